// Many searches of two sound stores for one walk: a walk notes where records begin, by a key of their names, and a search looks there first. A record that the
// notes do not lead to is searched for as ever, so that the key decides how long a search takes and never what it finds.
#![tactic(auto)]

ghost use Rattle.std.specs.Prelude.{◌≡◌, true, false, cond, ◌+◌, ◌≤◌, ◌<◌, eqb, length, get_or, set, replicate};
ghost use Rattle.limits.specs.Limits.{max_store};
ghost use Rattle.names.specs.Name.{variable};
ghost use Rattle.store.specs.Store.{end_of};
ghost use Rattle.noted.specs.Noted.{keys, notes, NoteOf, Noted, Tried};

mod notes;

pub use notes::Notes;
use store::Found;

// How many keys there are, and how long the notes of a store: of each key the first record and the last. `specs/Noted.antt` has the same for the proofs.
const KEYS: usize = 1024;

pub const NOTES: usize = 2048;

// Notes of no record.
// A note is 0 for none, and no Option: what may not change, the clauses here and of `Notes::new` say zeros; and a table of Option<u16> has twice the bytes (fixed memory).
pub fn none() -> [u16; NOTES]
    ensures { result ≡ replicate notes 0 }
{
    [0u16; NOTES]
}

// The key of a name, by its last four units.
fn key(name: &[u8]) -> usize
    ensures { result < keys }
{
    let n = name.len();
    if n < 8 {
        return mixed(slices::le32(name, 0) as usize + slices::le16(name, 4) as usize);
    }
    mixed(slices::get32(name, n - 4) + 31 * slices::get32(name, n - 8))
}

// The upper bits of a product, which every bit of x moves.
fn mixed(x: usize) -> usize
    ensures { result < keys }
{
    x % 4294967296 * 2654435761 / 4194304 % KEYS
}

// What the first note of a key is after another record.
fn earlier(first: u16, note: u16) -> u16
    ensures { result ≡ cond (eqb first 0) note first }
{
    if first == 0 { note } else { first }
}

// Notes a record under a key.
fn put(table: &mut [u16; NOTES], k: usize, note: u16)
    requires { (k < keys) × (length table.old ≡ notes) }
    ensures { table.new ≡ set (set table.old (keys + k) note) k (cond (eqb (get_or table.old k 0) 0) note (get_or table.old k 0)) }
{
    let first = table[k];
    table[KEYS + k] = note;
    table[k] = earlier(first, note);
}

// Notes where the records of a store begin.
// A store and its table come as they are, here to be written and in `find` to be read: two functions, and a type that holds both for both uses is no plainer.
pub fn note(s: &[u8], nonvolatile: bool, end: usize, table: &mut [u16; NOTES])
    requires { (end ≡ end_of nonvolatile s.now) × (length s.now ≤ max_store) × (length table.old ≡ notes) × Noted nonvolatile s.now table.old }
    ensures { (length table.new ≡ notes) × Noted nonvolatile s.now table.new }
{
    for record in store::Records::new(s, nonvolatile, end) {
        put(
            table,
            key(store::name_of(record.bytes)),
            (record.at + 1) as u16,
        );
    }
}

// The record that a note leads to, if it is the variable's.
// What is asked of the note follows from `Noted` of the table that `Notes` holds; a type for one note, made at `find`'s two calls alone, is no plainer.
fn try_note(s: &[u8], nonvolatile: bool, note: u16, namespace: &[u8], name: &[u8]) -> Option<Found>
    requires { NoteOf nonvolatile s.now note }
    ensures { Tried nonvolatile s.now (variable namespace.now name.now) result }
{
    if note == 0 {
        return None;
    }
    let at = note as usize - 1;
    let r = &s[at..];
    let size = store::record_size(slices::get32(r, 8), slices::get32(r, 12));
    store::find_within(&r[..size], nonvolatile, size, namespace, name)?;
    Some(Found { at, len: size })
}

// The variable's record in a store, if the notes lead to it.
// `Notes` holds what is asked of both tables; a type for one store and its table, made at `locate`'s two calls alone, is no plainer.
fn find(
    s: &[u8],
    nonvolatile: bool,
    table: &[u16; NOTES],
    k: usize,
    namespace: &[u8],
    name: &[u8],
) -> Option<Found>
    requires { (k < keys) × (length table.now ≡ notes) × Noted nonvolatile s.now table.now }
    ensures { Tried nonvolatile s.now (variable namespace.now name.now) result }
{
    let last = table[KEYS + k];
    let first = try_note(s, nonvolatile, table[k], namespace, name);
    first.or_else(|| try_note(s, nonvolatile, last, namespace, name))
}
