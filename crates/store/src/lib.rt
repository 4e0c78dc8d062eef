// The store of variables: one record, the search, where a payload stands, and the edits in place.
#![tactic(auto)]

ghost use Rattle.std.specs.Prelude.{◌≡◌, true, ◌++◌, ℕ, ◌+◌, ◌/◌, ◌%◌, ◌≤◌, ◌<◌, eqb, length, drop, MatchOption};
ghost use Rattle.limits.specs.Limits.{namespace_bytes, max_name_bytes, max_payload, record_header};
ghost use Rattle.slices.specs.Bytes.{Bytes, le32, le32_bytes, all_are, overwrite};
ghost use Rattle.slices.specs.Chunks.{find};
ghost use Rattle.store.specs.Record.{has_nv, has_bs, has_rt, has_append, attributes_of, name_size, data_size, namespace_of, name_of, record_size, attributes_ok, record_mark, header_ok, body_ok, record_length, is_of, encode_record};
ghost use Rattle.store.specs.Store.{records_of, end_of, store_ok, place_of, without_variable, has_room, with_record};
ghost use Rattle.store.specs.Parts.{variable, HeaderFits, Storable, record_in, attributes_in, payload_in, bounds_in, Held, joined, resized};

mod records;

pub use records::{Record, Records};

// Where a record was found: it begins at `at` and is `len` bytes long.
#[derive(Clone, Copy)]
pub struct Found {
    pub at: usize,
    pub len: usize,
}

// A part of a store: from the byte `from` up to, and without, the byte `to`. A struct and no range, since a range is not copied.
#[derive(Clone, Copy)]
pub struct Bounds {
    pub from: usize,
    pub to: usize,
}

// Whether an attribute word has the bit of this weight, a power of two.
fn has<const WEIGHT: u32>(attributes: u32) -> bool
    requires { 0 < WEIGHT }
    ensures { result ≡ eqb (attributes / WEIGHT % 2) 1 }
{
    attributes / WEIGHT % 2 == 1
}

// The bits of an attribute word.
pub fn has_nv(attributes: u32) -> bool
    ensures { result ≡ has_nv attributes }
{
    has::<1>(attributes)
}

pub fn has_bs(attributes: u32) -> bool
    ensures { result ≡ has_bs attributes }
{
    has::<2>(attributes)
}

pub fn has_rt(attributes: u32) -> bool
    ensures { result ≡ has_rt attributes }
{
    has::<4>(attributes)
}

pub fn has_append(attributes: u32) -> bool
    ensures { result ≡ has_append attributes }
{
    has::<64>(attributes)
}

// Whether a record of the store may have these attributes.
fn attributes_ok(attributes: u32, nonvolatile: bool) -> bool
    ensures { result ≡ attributes_ok nonvolatile attributes }
{
    attributes <= 7 && has_bs(attributes) && has_nv(attributes) == nonvolatile
}

// Whether the header is that of a record. Nine tests of numbers at hand, with no branch between them: `&&` is no plainer.
fn header_ok(r: &[u8], nonvolatile: bool) -> bool
    requires { record_header ≤ length r.now }
    ensures { result ≡ header_ok nonvolatile r.now }
{
    let n = slices::get32(r, 8);
    let d = slices::get32(r, 12);
    (r[0] == 0xAA)
        & (r[1] == 0x55)
        & (r[2] == limits::RECORD_ADDED)
        & (r[3] == 0)
        & attributes_ok(slices::get32(r, 4) as u32, nonvolatile)
        & (4 <= n)
        & (n <= limits::MAX_NAME_SIZE)
        & (1 <= d)
        & (d <= limits::MAX_PAYLOAD)
}

// Whether the name is terminated, and all behind the payload is 0xFF, in a record of a sound header.
fn body_ok(r: &[u8], n: usize, d: usize) -> bool
    requires { (n ≡ name_size r.now) × (d ≡ data_size r.now) × (record_header + n + d ≤ length r.now) }
    ensures { result ≡ body_ok r.now }
{
    names::is_terminated(&r[limits::RECORD_HEADER..limits::RECORD_HEADER + n])
        && slices::few_are(&r[limits::RECORD_HEADER + n + d..], 255)
}

// How long a record is with a NameSize of n and a DataSize of d.
pub fn record_size(n: usize, d: usize) -> usize
    requires { (n < 4294967296) × (d < 4294967296) }
    ensures { result ≡ record_size n d }
{
    (limits::RECORD_HEADER + 3 + n + d) / 4 * 4
}

// The length of the well-formed record that begins t, if one does.
pub fn record_length(t: &[u8], nonvolatile: bool) -> Option<usize>
    ensures { MatchOption result (record_length nonvolatile t.now ≡ 0) (λ n. (0 < n) × (record_length nonvolatile t.now ≡ n)) }
{
    if t.len() < limits::RECORD_HEADER {
        return None;
    }
    if !header_ok(t, nonvolatile) {
        return None;
    }
    let n = slices::get32(t, 8);
    let d = slices::get32(t, 12);
    let size = record_size(n, d);
    let record = t.get(..size)?;
    body_ok(record, n, d).then_some(size)
}

// The namespace of a record.
pub fn namespace_of(r: &[u8]) -> &[u8]
    requires { HeaderFits r.now }
    ensures { result.now ≡ namespace_of r.now }
{
    &r[16..limits::RECORD_HEADER]
}

// The name of a record, without its closing zero unit.
pub fn name_of(r: &[u8]) -> &[u8]
    requires { HeaderFits r.now }
    ensures { result.now ≡ name_of r.now }
{
    let end = limits::RECORD_HEADER - 2 + slices::get32(r, 8);
    &r[limits::RECORD_HEADER..end]
}

// Whether the record r is that of the variable: the names first, since most records share a namespace.
fn is_of(r: &[u8], namespace: &[u8], name: &[u8]) -> bool
    requires { HeaderFits r.now }
    ensures { result ≡ is_of (variable namespace.now name.now) r.now }
{
    names::same_name(name_of(r), name) && names::same_name(namespace_of(r), namespace)
}

// The same of a record of a store, with the first four bytes of the name, which rule most records out: a name of one unit has its closing zero unit there.
#[inline(always)]
fn stands_for(record: &Record<'_>, first: usize, namespace: &[u8], name: &[u8]) -> bool
    ensures { first ≡ le32 name.now 0 → result ≡ is_of (variable namespace.now name.now) record.now.bytes.now }
{
    slices::get32(record.bytes, limits::RECORD_HEADER) == first
        && is_of(record.bytes, namespace, name)
}

// Where the variable's record stands in a store whose records end at `end`.
pub fn find_within(
    s: &[u8],
    nonvolatile: bool,
    end: usize,
    namespace: &[u8],
    name: &[u8],
) -> Option<Found>
    requires { end ≡ end_of nonvolatile s.now }
    ensures { result ≡ place_of nonvolatile s.now (variable namespace.now name.now) }
{
    let first = slices::le32(name, 0) as usize;
    Records::new(s, nonvolatile, end)
        .find(|r| stands_for(r, first, namespace, name))
        .map(|r| Found {
            at: r.at,
            len: r.bytes.len(),
        })
}

// The attributes of a record.
pub fn attributes(r: &[u8]) -> u32
    ensures { result ≡ attributes_of r.now }
{
    slices::le32(r, 4)
}

// The attributes of the record that was found; 0 where there is none.
// A number and no Option: what may not change, the definition `attributes_in none = 0`, which `step` answers by.
pub fn attributes_found(s: &[u8], found: Option<Found>) -> u32
    requires { Held s.now found }
    ensures { result ≡ attributes_in (record_in s.now found) }
{
    found.map_or(0, |r| attributes(&s[r.at..r.at + r.len]))
}

// Where the payload of the record that was found stands, behind the header and the name; 0 and 0 where there is none.
// Bounds and no Option: what may not change, the definition `bounds_in` of None, by which `payload` is empty where there is none.
pub fn payload_bounds(s: &[u8], found: Option<Found>) -> Bounds
    requires { Held s.now found }
    ensures { result ≡ bounds_in s.now found }
{
    let Some(r) = found else {
        return Bounds { from: 0, to: 0 };
    };
    let record = &s[r.at..r.at + r.len];
    let from = r.at + limits::RECORD_HEADER + slices::get32(record, 8);
    Bounds {
        from,
        to: from + slices::get32(record, 12),
    }
}

// The payload of the record that was found, as a part of the store; an empty part where there is none.
pub fn payload(s: &[u8], found: Option<Found>) -> &[u8]
    requires { Held s.now found }
    ensures { result.now ≡ payload_in (record_in s.now found) }
{
    let bounds = payload_bounds(s, found);
    &s[bounds.from..bounds.to]
}

// The same of the variable's record, where it was found.
pub fn payload_found<'a>(
    s: &'a [u8],
    nonvolatile: bool,
    found: Option<Found>,
    namespace: &[u8],
    name: &[u8],
) -> &'a [u8]
    requires { found ≡ place_of nonvolatile s.now (variable namespace.now name.now) }
    ensures { result.now ≡ payload_in (find (is_of (variable namespace.now name.now)) (records_of nonvolatile s.now)) }
{
    payload(s, found)
}

// Makes room of `new` bytes in place of the `old` ones at `at`, in a store whose records end at `end`.
// What the room holds is the caller's to write.
fn resize_record(s: &mut [u8], at: usize, old: usize, new: usize, end: usize)
    requires { (at + old ≤ end) × (end ≤ length s.old) × (end + new ≤ length s.old + old) × (all_are 255 (drop end s.old) ≡ true) }
    ensures { s.new ≡ resized s.old at old new end }
{
    if new == old {
        return;
    }
    let from = at + old;
    let to = at + new;
    let n = end - from;
    if new < old {
        slices::move_down(s, from, to, n);
        slices::fill(s, to + n, old - new, 255);
    } else {
        slices::move_up(s, from, to, n);
    }
}

// Takes the variable's record out of a sound store, where it was found: the gap is closed and the freed room is 0xFF.
pub fn remove(
    s: &mut [u8],
    nonvolatile: bool,
    end: usize,
    found: Option<Found>,
    namespace: &[u8],
    name: &[u8],
)
    requires { (store_ok nonvolatile s.old ≡ true) × (end ≡ end_of nonvolatile s.old) × (found ≡ place_of nonvolatile s.old (variable namespace.now name.now)) }
    ensures { s.new ≡ without_variable nonvolatile s.old (variable namespace.now name.now) }
{
    if let Some(r) = found {
        resize_record(s, r.at, r.len, 0, end);
    }
}

// The first 16 bytes of a record: mark, state, attributes, NameSize and DataSize.
fn header(attributes: u8, n: usize, d: usize) -> [u8; 16]
    requires { (n < 256) × (d < 65536) }
    ensures { result ≡ record_mark ++ le32_bytes attributes ++ le32_bytes n ++ le32_bytes d }
{
    let [low, high] = (d as u16).to_le_bytes();
    [
        0xAA,
        0x55,
        limits::RECORD_ADDED,
        0,
        attributes,
        0,
        0,
        0,
        n as u8,
        0,
        0,
        0,
        low,
        high,
        0,
        0,
    ]
}

// Writes a record at `at`.
fn put_record(
    s: &mut [u8],
    at: usize,
    attributes: u8,
    namespace: &[u8],
    name: &[u8],
    payload: &[u8],
)
    requires { (length namespace.now ≡ namespace_bytes) × (length name.now ≤ max_name_bytes) × (length payload.now ≤ max_payload) × (at + record_size (length name.now + 2) (length payload.now) ≤ length s.old) }
    ensures { s.new ≡ overwrite s.old at (encode_record attributes (variable namespace.now name.now) payload.now) }
{
    let n = name.len() + 2;
    let d = payload.len();
    let from = limits::RECORD_HEADER + n;
    let end = from + d;
    let record = &mut s[at..at + record_size(n, d)];
    record[..16].copy_from_slice(&header(attributes, n, d));
    record[16..limits::RECORD_HEADER].copy_from_slice(namespace);
    record[limits::RECORD_HEADER..from - 2].copy_from_slice(name);
    record[from - 2..from].fill(0);
    record[from..end].copy_from_slice(payload);
    record[end..].fill(255);
}

// Step 9: whether the store has room for the variable's record with a payload of n bytes, in place of the one found or behind the last.
pub fn has_room(
    s: &[u8],
    nonvolatile: bool,
    end: usize,
    found: Option<Found>,
    namespace: &[u8],
    name: &[u8],
    n: usize,
) -> bool
    requires { (end ≡ end_of nonvolatile s.now) × (found ≡ place_of nonvolatile s.now (variable namespace.now name.now)) × (length namespace.now ≡ namespace_bytes) × (length name.now ≤ max_name_bytes) × (n ≤ max_payload) }
    ensures { (a : ℕ) (p : Bytes) → length p ≡ n → result ≡ has_room nonvolatile s.now (variable namespace.now name.now) (encode_record a (variable namespace.now name.now) p) }
{
    let size = record_size(name.len() + 2, n);
    match found {
        Some(r) => size <= s.len() - (end - r.len),
        None => size <= s.len() - end,
    }
}

// Stores the variable's record in a sound store that has room for it: in place of the one found, or behind the last.
pub fn write(
    s: &mut [u8],
    nonvolatile: bool,
    end: usize,
    found: Option<Found>,
    attributes: u8,
    namespace: &[u8],
    name: &[u8],
    payload: &[u8],
)
    requires { (store_ok nonvolatile s.old ≡ true) × (end ≡ end_of nonvolatile s.old) × (found ≡ place_of nonvolatile s.old (variable namespace.now name.now))
        × Storable nonvolatile attributes (variable namespace.now name.now) payload.now
        × (has_room nonvolatile s.old (variable namespace.now name.now) (encode_record attributes (variable namespace.now name.now) payload.now) ≡ true) }
    ensures { s.new ≡ with_record nonvolatile s.old (variable namespace.now name.now) (encode_record attributes (variable namespace.now name.now) payload.now) }
{
    match found {
        Some(r) => {
            resize_record(
                s,
                r.at,
                r.len,
                record_size(name.len() + 2, payload.len()),
                end,
            );
            put_record(s, r.at, attributes, namespace, name, payload);
        }
        None => put_record(s, end, attributes, namespace, name, payload),
    }
}

// Joins the payload to that of the variable's record, where it was found, or stores it as a new variable's.
pub fn append(
    s: &mut [u8],
    nonvolatile: bool,
    end: usize,
    found: Option<Found>,
    attributes: u8,
    namespace: &[u8],
    name: &[u8],
    payload: &[u8],
)
    requires { (store_ok nonvolatile s.old ≡ true) × (end ≡ end_of nonvolatile s.old) × (found ≡ place_of nonvolatile s.old (variable namespace.now name.now))
        × Storable nonvolatile attributes (variable namespace.now name.now) (joined nonvolatile s.old (variable namespace.now name.now) payload.now)
        × (has_room nonvolatile s.old (variable namespace.now name.now) (encode_record attributes (variable namespace.now name.now) (joined nonvolatile s.old (variable namespace.now name.now) payload.now)) ≡ true) }
    ensures { s.new ≡ with_record nonvolatile s.old (variable namespace.now name.now)
        (encode_record attributes (variable namespace.now name.now) (joined nonvolatile s.old (variable namespace.now name.now) payload.now)) }
{
    let mut both = [0u8; limits::MAX_PAYLOAD];
    let old = payload_found(s, nonvolatile, found, namespace, name);
    let n = old.len();
    slices::copy_in(&mut both, 0, old);
    slices::copy_in(&mut both, n, payload);
    let m = n + payload.len();
    write(
        s,
        nonvolatile,
        end,
        found,
        attributes,
        namespace,
        name,
        &both[..m],
    )
}
