// Lists a dump that arrives on standard input, in pieces of any length (RULES.md, 10.12): a line for each good entry as soon as it is whole, then
// `entries N bytes M`, or `bad at N` with the first byte of the first entry that is not good. Behind such an entry nothing more is read.
//
// A read that fails is told on standard error: the lines so far stay, and no closing line follows, since nothing is known of the rest. A write that
// fails is told there too and ends the program, also at a pipe that nobody reads any more. The exit status is 0 in every case: whether all is well is
// what the last line says.
#![tactic(auto)]

ghost use Rattle.std.specs.Prelude.{◌≡◌, ◌++◌, ◌+◌, ◌<◌, ◌≤◌, List, length, IfOk, IfErr, OnOk, IfSome, []};
ghost use Rattle.std.specs.Io.KnownBytes.{Appends, Consumes};
ghost use Rattle.limits.specs.Limits.{max_piece};
ghost use Rattle.slices.specs.Bytes.{Bytes};
ghost use Rattle.reader.specs.declared.Listing.{Listing};
ghost use Rattle.reader.specs.Pieces.{HandsOut};
ghost use Rattle.reader.specs.HasRead.{HasRead};
ghost use Rattle.list_dump.specs.Lines.{ascii, decimal, marks, entry_line, closing_line};
ghost use Rattle.list_dump.specs.Runs.{listing_lines, entry_lines, dump_lines, Took, IsDone, AfterTurn, OnInput};

use arrayvec::ArrayString;
use reader::{Listing, READER_BYTES, Verdict};
use std::fmt::Write as _;
use std::io::{Read, Write};
use std::{fmt, io};

// Room for a line: the longest has four numbers of at most 20 digits and 20 other bytes.
const LINE: usize = 128;

// The most bytes that are read at once.
const PIECE: usize = 4096;

// Puts a number behind the text of a line, in decimal digits.
fn put_number(line: &mut ArrayString<LINE>, value: u64)
    requires { length line.old.bytes + 20 ≤ 128 }
    ensures put { line.new.bytes ≡ line.old.bytes ++ decimal value }
    ensures bound { length line.new.bytes ≤ length line.old.bytes + 20 }
{
    let mut digits = itoa::Buffer::new();
    line.push_str(digits.format(value));
}

// A word and a number behind it, likewise.
fn put_field(line: &mut ArrayString<LINE>, word: &str, value: u64)
    requires { length line.old.bytes + length word.now + 20 ≤ 128 }
    ensures put { line.new.bytes ≡ line.old.bytes ++ (word.now ++ decimal value) }
    ensures bound { length line.new.bytes ≤ length line.old.bytes + length word.now + 20 }
{
    line.push_str(word);
    put_number(line, value);
}

// The marks of an entry, by its rank: the number of '#' in its name, or `all` where it is for a whole namespace.
fn put_marks(line: &mut ArrayString<LINE>, rank: u32)
    requires { length line.old.bytes + 27 ≤ 128 }
    ensures put { line.new.bytes ≡ line.old.bytes ++ (ascii " marks " ++ marks rank) }
    ensures bound { length line.new.bytes ≤ length line.old.bytes + 27 }
{
    if rank as usize == limits::WHOLE_NAMESPACE_RANK {
        line.push_str(" marks all");
        return;
    }
    put_field(line, " marks ", rank as u64);
}

// The line of an entry: its place in the dump, and what is listed of it. (No `Display`, here and below: what its `fmt` promises holds of a success alone, and
// this is the text of every line, which fits.)
fn entry_text(index: u64, listing: Listing) -> ArrayString<LINE>
    ensures { result.bytes ≡ entry_line index listing }
{
    let mut line = ArrayString::new();
    put_number(&mut line, index);
    put_field(&mut line, " size ", listing.size as u64);
    put_field(&mut line, " lock ", listing.lock as u64);
    put_marks(&mut line, listing.rank);
    line.push_str("\n");
    line
}

// The last line: how many entries there are and how many bytes they take, or where the first bad one begins.
fn closing_text(v: Verdict) -> ArrayString<LINE>
    ensures { result.bytes ≡ closing_line v }
{
    let mut line = ArrayString::new();
    if !v.whole {
        put_field(&mut line, "bad at ", v.bytes as u64);
        line.push_str("\n");
        return line;
    }
    put_field(&mut line, "entries ", v.entries as u64);
    put_field(&mut line, " bytes ", v.bytes as u64);
    line.push_str("\n");
    line
}

// What failed, with the system's reason.
#[derive(Debug, Drop)]
enum Failure {
    Input(io::Error),
    Output(io::Error),
}

// An error's text without its number, which std puts behind it in brackets.
fn reason(text: &str) -> &str {
    match text.split_once(" (os error ") {
        Some((reason, _)) => reason,
        None => text,
    }
}

impl fmt::Display for Failure {
    fn fmt<W: fmt::Write>(&self, f: &mut fmt::Formatter<W>) -> fmt::Result {
        let mut text = ArrayString::<256>::new();
        match self {
            Failure::Input(error) => write!(text, "standard input: {error}")?,
            Failure::Output(error) => write!(text, "standard output: {error}")?,
        }
        f.write_str(reason(text.as_str()))
    }
}

// Writes the line of an entry.
fn write_entry<W: Write>(output: &mut W, index: u64, listing: Listing) -> io::Result<()>
    ensures { OnOk result (Appends (W.contents output.old) (W.contents output.new) (entry_line index listing)) }
{
    let line = entry_text(index, listing);
    output.write_all(line.as_str().as_bytes())
}

// Writes the last line.
fn write_closing<W: Write>(output: &mut W, v: Verdict) -> io::Result<()>
    ensures { OnOk result (Appends (W.contents output.old) (W.contents output.new) (closing_line v)) }
{
    let line = closing_text(v);
    output.write_all(line.as_str().as_bytes())
}

// Writes the lines of the good entries from byte from of the dump on, of which the first is entry index.
fn list_entries<W: Write>(
    output: &mut W,
    reader: &[u8; READER_BYTES],
    index: u32,
    from: u32,
) -> io::Result<()>
    ensures { OnOk result ((ls : List Listing) → HandsOut reader.now from ls
        → Appends (W.contents output.old) (W.contents output.new) (listing_lines index ls)) }
{
    let mut i = index as u64;
    let mut at = from as usize;
    while let Some(listing) = reader::listing_at(reader, at) {
        write_entry(output, i, listing)?;
        i += 1;
        at += listing.size as usize;
    }
    Ok(())
}

// Reads once, feeds what came, and writes the lines of the entries that are good since. Answers whether more is to be read.
fn read_piece<R: Read, W: Write>(
    input: &mut R,
    output: &mut W,
    reader: &mut [u8; READER_BYTES],
    buffer: &mut [u8],
) -> Result<bool, Failure>
    ensures ok { IfOk result (λ more. (d : Bytes) → HasRead reader.old d → 0 < length buffer.old → length buffer.old ≤ max_piece
        → (p : Bytes) × Took d p (R.remaining input.old) (R.remaining input.new) (W.contents output.old) (W.contents output.new) reader.new
        × AfterTurn more d p (R.remaining input.new)) }
    ensures unread { IfErr result (λ failure. OnInput failure ((d : Bytes) → HasRead reader.old d
        → Took d [] (R.remaining input.old) (R.remaining input.new) (W.contents output.old) (W.contents output.new) reader.new)) }
{
    let n = input.read(buffer).map_err(Failure::Input)?;
    if n == 0 {
        return Ok(false);
    }
    let before = reader::verdict_of(reader);
    reader::feed(reader, &buffer[..n]);
    list_entries(output, reader, before.entries, before.bytes).map_err(Failure::Output)?;
    Ok(!reader::verdict_of(reader).ended)
}

// Reads to the end, or to a bad entry. Each piece has a byte, and a dump with more than POLICY_BYTES is bad: there are no more turns than that.
fn read_all<R: Read, W: Write>(
    input: &mut R,
    output: &mut W,
    reader: &mut [u8; READER_BYTES],
) -> Result<(), Failure>
    ensures ok { OnOk result ((d : Bytes) → HasRead reader.old d
        → (p : Bytes) × Took d p (R.remaining input.old) (R.remaining input.new) (W.contents output.old) (W.contents output.new) reader.new
        × IsDone (d ++ p) (R.remaining input.new)) }
    ensures unread { IfErr result (λ failure. OnInput failure ((d : Bytes) → HasRead reader.old d
        → (p : Bytes) × Took d p (R.remaining input.old) (R.remaining input.new) (W.contents output.old) (W.contents output.new) reader.new)) }
{
    let mut buffer = [0u8; PIECE];
    for _ in 0..limits::POLICY_BYTES + 1 {
        let more = read_piece(input, output, reader, &mut buffer)?;
        if !more {
            return Ok(());
        }
    }
    Ok(())
}

// Lists the dump of all that is left to read: at its end, or where the rest would change nothing, all its lines were written; where a read failed, those
// of the entries so far, and no last line.
fn list<R: Read, W: Write>(input: &mut R, output: &mut W) -> Result<(), Failure>
    ensures ok { OnOk result (IfSome (R.remaining input.old) (λ d.
        Appends (W.contents output.old) (W.contents output.new) (dump_lines d))) }
    ensures unread { IfErr result (λ failure. OnInput failure ((p : Bytes) × Consumes (R.remaining input.old) (R.remaining input.new) p
        × Appends (W.contents output.old) (W.contents output.new) (entry_lines p))) }
{
    let mut reader = [0u8; READER_BYTES];
    reader::start(&mut reader);
    read_all(input, output, &mut reader)?;
    write_closing(output, reader::verdict_of(&reader)).map_err(Failure::Output)?;
    Ok(())
}

fn main(rt: HostRuntime) {
    if let Err(failure) = list(&mut rt.stdin(), &mut rt.stdout()) {
        let _ = eprintln!(rt; "{failure}");
    }
}
