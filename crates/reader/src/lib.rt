// The reader of a dump that arrives in pieces (RULES.md, 10.12). A reader is READER_BYTES that the caller lends: the bytes that arrived, the filter over
// the entries that were found good, and three numbers. Any bytes of that length are a reader.
#![tactic(auto)]

ghost use Rattle.std.specs.Prelude.{◌≡◌, [], ◌∷◌, true, ◌||◌, cond, ◌+◌, ◌≤◌, ◌<◌, length, take, set, eqb, ltb};
ghost use Rattle.limits.specs.Limits.{policy_bytes};
ghost use Rattle.slices.specs.Test.{◌and◌};
ghost use Rattle.slices.specs.Bytes.{part, overwrite};
ghost use Rattle.slices.specs.Chunks.{contains};
ghost use Rattle.slices.specs.Filter.{joined};
ghost use Rattle.entry.specs.Entry.{well_formed};
ghost use Rattle.policy.specs.Policy.{entries_of};
ghost use Rattle.policy.specs.Stated.{stated_of, repeats};
ghost use Rattle.reader.specs.Reading.{decided};
ghost use Rattle.reader.specs.Reader.{held_at, good_at, count_at, reader_bytes, held, good, put, stop, fresh, admits, accepted, judged, all_judged, taken, fed, feed_status, after_feed, verdict_in, listing_in};

use entry::Packed;
use status::Status;

// Where its parts begin; `specs/Reader.antt` has the same for the rules.
const FILTER_AT: usize = limits::POLICY_BYTES;

const HELD_AT: usize = FILTER_AT + policy::SLOTS;

const GOOD_AT: usize = HELD_AT + 2;

const COUNT_AT: usize = GOOD_AT + 2;

pub const READER_BYTES: usize = COUNT_AT + 2;

// The most bytes of an entry.
const MAX_ENTRY_BYTES: usize = limits::TRIGGER_NAME_AT + 2 * limits::MAX_NAME_SIZE;

// The number of bytes held where no more are taken. It stands for a state, and no enum does, since the caller lends the bytes, whatever they are (the C interface).
const STOPPED: usize = 65535;

// What a reader says of the bytes that arrived: whether they are good entries and nothing else; whether the reading has ended, so that no further bytes change
// anything; how many entries are good, up to the first that is not, and how many bytes they take.
#[derive(Clone, Copy, Debug, PartialEq, Eq)]
pub struct Verdict {
    pub whole: bool,
    pub ended: bool,
    pub entries: u32,
    pub bytes: u32,
}

// What it tells of a good entry: its Size, its lock type and its rank.
#[derive(Clone, Copy, Debug, PartialEq, Eq)]
pub struct Listing {
    pub size: u32,
    pub lock: u32,
    pub rank: u32,
}

// A bad entry was met: no more is taken.
fn stop(r: &mut [u8; READER_BYTES])
    ensures { r.new ≡ stop r.old }
{
    slices::put16(r, HELD_AT, STOPPED);
}

// Whether it is decided what begins at byte from, by the bytes up to byte to: a header is there, and as many bytes as its Size says, or its Size is more than an
// entry has.
fn is_decided(r: &[u8; READER_BYTES], from: usize, to: usize) -> bool
    requires { (from < 65536) × (to ≤ policy_bytes) }
    ensures { result ≡ decided (part from to r.now) }
{
    if to < from + limits::ENTRY_HEADER {
        return false;
    }
    let size = slices::get16(r, from + limits::SIZE_AT);
    (size <= to - from) | (MAX_ENTRY_BYTES < size)
}

// What a slot of the filter holds after an entry with that fingerprint: 0 where none was met, 255 where several were. They are numbers since the slots are among
// the bytes that the caller lends (the C interface).
fn joined(seen: u8, fingerprint: u8) -> u8
    ensures { result ≡ joined seen fingerprint }
{
    if seen == 0 { fingerprint } else { 255 }
}

// Whether the entry from byte from up to byte to repeats one of those before it, where the filter has `seen` in its slot. Most often the filter tells that it
// does not. The search is called in two places, since the compiler puts a function that is called in one into the loop over the entries, which then takes 18
// instructions more for each.
fn repeats(r: &[u8; READER_BYTES], from: usize, to: usize, seen: u8, fingerprint: u8) -> bool
    requires { (from ≤ to) × (to ≤ policy_bytes) × (well_formed (part from to r.now) ≡ true) }
    ensures { result ≡ ((eqb seen 255 || eqb seen fingerprint) and contains (repeats (part from to r.now)) (stated_of (take from r.now))) }
{
    let before = &r[..from];
    let e = Packed {
        bytes: &r[from..to],
    };
    if seen == 255 {
        return policy::has_target(before, e);
    }
    if seen == fingerprint {
        return policy::has_target(before, e);
    }
    false
}

// Writes that there are count good entries now, the last of which ends at byte to and is marked in a slot of the filter.
fn note(r: &mut [u8; READER_BYTES], slot: usize, mark: u8, to: usize, count: usize)
    requires { slot < reader_bytes }
    ensures { r.new ≡ put (put (set r.old slot mark) good_at to) count_at count }
{
    r[slot] = mark;
    slices::put16(r, GOOD_AT, to);
    slices::put16(r, COUNT_AT, count);
}

// Takes the entry from byte from up to byte to among the good ones, if it is not one too many and repeats none of them.
fn accept(r: &mut [u8; READER_BYTES], from: usize, to: usize) -> bool
    requires { (from ≡ good r.old) × (from ≤ to) × (to ≤ policy_bytes) × (well_formed (part from to r.old) ≡ true) }
    ensures answer { result ≡ admits r.old (part from to r.old) }
    ensures after { r.new ≡ cond result (accepted r.old (part from to r.old)) r.old }
{
    let count = slices::get16(r, COUNT_AT);
    if limits::MAX_ENTRIES <= count {
        return false;
    }
    let mark = policy::mark_of(Packed {
        bytes: &r[from..to],
    });
    let slot = FILTER_AT + mark.slot;
    let fingerprint = mark.fingerprint;
    let seen = r[slot];
    if repeats(r, from, to, seen, fingerprint) {
        return false;
    }
    note(r, slot, joined(seen, fingerprint), to, count + 1);
    true
}

// Takes the entries that stand from byte from up to byte to among the good ones, up to the first that is not good, and tells where they end.
fn take_good(r: &mut [u8; READER_BYTES], from: usize, to: usize) -> usize
    requires { (from ≡ good r.old) × (from ≤ to) × (to ≤ policy_bytes) }
    ensures after { r.new ≡ judged r.old (entries_of (part from to r.old)) }
    ensures end { (result ≡ good r.new) × (result ≤ to) × (held r.new ≡ held r.old) }
{
    let mut at = from;
    while let Some(e) = policy::first_entry(&r[at..to]) {
        let end = at + e.bytes.len();
        if !accept(r, at, end) {
            return at;
        }
        at = end;
    }
    at
}

// Judges the entries behind the good ones. Where it is decided what is left, that is a bad one, and no more is taken.
fn judge(r: &mut [u8; READER_BYTES])
    requires { (good r.old ≤ held r.old) × (held r.old ≤ policy_bytes) }
    ensures { r.new ≡ all_judged r.old }
{
    let to = slices::get16(r, HELD_AT);
    let from = slices::get16(r, GOOD_AT);
    let at = take_good(r, from, to);
    if is_decided(r, at, to) {
        stop(r);
    }
}

// Writes that the bytes up to byte to have arrived, and tells whether it is now decided what stands behind the good entries.
fn hold(r: &mut [u8; READER_BYTES], to: usize) -> bool
    requires { to ≤ policy_bytes }
    ensures after { r.new ≡ put r.old held_at to }
    ensures answer { result ≡ decided (part (good r.old) to r.old) }
{
    slices::put16(r, HELD_AT, to);
    let good = slices::get16(r, GOOD_AT);
    is_decided(r, good, to)
}

// Takes bytes, for which there is room behind the `from` that are held.
fn take_bytes(r: &mut [u8; READER_BYTES], from: usize, bytes: &[u8])
    requires { (from ≡ held r.old) × (from + length bytes.now ≤ policy_bytes) }
    ensures { r.new ≡ taken r.old bytes.now }
{
    slices::copy_in(r, from, bytes);
    if hold(r, from + bytes.len()) {
        judge(r);
    }
}

// Takes the bytes of a piece, as far as there is room.
fn take_piece(r: &mut [u8; READER_BYTES], piece: &[u8])
    ensures { r.new ≡ fed r.old piece.now }
{
    let from = slices::get16(r, HELD_AT);
    if limits::POLICY_BYTES < from {
        return;
    }
    let room = limits::POLICY_BYTES - from;
    if piece.len() <= room {
        take_bytes(r, from, piece);
        return;
    }
    take_bytes(r, from, &piece[..room]);
    stop(r);
}

// Writes a byte at index at.
fn put_byte(r: &mut [u8; READER_BYTES], at: usize, byte: u8)
    requires { at < reader_bytes }
    ensures { r.new ≡ overwrite r.old at (byte ∷ []) }
{
    r[at] = byte;
}

// Whether there is room for a byte.
fn has_room(r: &[u8; READER_BYTES]) -> bool
    ensures { result ≡ ltb (held r.now) policy_bytes }
{
    slices::get16(r, HELD_AT) < limits::POLICY_BYTES
}

// Takes a piece of one byte, for which there is room, in few instructions.
fn take_byte(r: &mut [u8; READER_BYTES], byte: u8)
    requires { held r.old < policy_bytes }
    ensures { r.new ≡ fed r.old (byte ∷ []) }
{
    let from = slices::get16(r, HELD_AT);
    put_byte(r, from, byte);
    if hold(r, from + 1) {
        judge(r);
    }
}

// A reader to which nothing was fed. The bytes that arrived before stay where they are.
pub fn start(reader: &mut [u8; READER_BYTES])
    ensures { reader.new ≡ fresh reader.old }
{
    slices::fill(reader, FILTER_AT, READER_BYTES - FILTER_AT, 0);
}

// Feeds a piece: 0, or 2 if it has no byte or more than MAX_PIECE; refused, the reader is as it was. A byte by itself has a way of its own. That take_piece is
// called in two places keeps the compiler from putting it here, where that way would save its registers.
pub fn feed(reader: &mut [u8; READER_BYTES], piece: &[u8]) -> Status
    ensures answer { result ≡ feed_status piece.now }
    ensures after { reader.new ≡ after_feed reader.old piece.now }
{
    if piece.len() == 1 {
        if has_room(reader) {
            take_byte(reader, piece[0]);
            return Status::Success;
        }
        take_piece(reader, piece);
        return Status::Success;
    }
    if piece.len() == 0 {
        return Status::InvalidParameter;
    }
    if limits::MAX_PIECE < piece.len() {
        return Status::InvalidParameter;
    }
    take_piece(reader, piece);
    Status::Success
}

// What the reader says of the bytes that arrived.
pub fn verdict_of(reader: &[u8; READER_BYTES]) -> Verdict
    ensures { result ≡ verdict_in reader.now }
{
    let held = slices::get16(reader, HELD_AT);
    let good = slices::get16(reader, GOOD_AT);
    Verdict {
        whole: (held <= limits::POLICY_BYTES) & (good == held),
        ended: limits::POLICY_BYTES < held,
        entries: slices::get16(reader, COUNT_AT) as u32,
        bytes: good as u32,
    }
}

// What it tells of the entry that begins at that byte of the dump, within the good ones; or that none does.
pub fn listing_at(reader: &[u8; READER_BYTES], at: usize) -> Option<Listing>
    ensures { result ≡ listing_in reader.now at }
{
    let p = slices::part(reader, at, slices::get16(reader, GOOD_AT));
    let e = policy::first_entry(p)?;
    Some(Listing {
        size: e.bytes.len() as u32,
        lock: slices::byte(e.bytes, limits::LOCK_TYPE_AT) as u32,
        rank: e.rank() as u32,
    })
}
