// The policy record, and the entry that is chosen for a variable.
#![tactic(auto)]

ghost use Rattle.std.specs.Prelude.{◌≡◌, [], ◌∷◌, ◌++◌, true, ◌+◌, ◌≤◌, ◌<◌, length, take, MatchOption};
ghost use Rattle.limits.specs.Limits.{entry_header, max_entries, policy_bytes};
ghost use Rattle.slices.specs.Bytes.{overwrite};
ghost use Rattle.slices.specs.Chunks.{flat, contains};
ghost use Rattle.names.specs.Name.{variable};
ghost use Rattle.entry.specs.Entry.{well_formed, same_target};
ghost use Rattle.policy.specs.Policy.{entry_length, entries_of, sizes_sum, pack_policy, empty_policy, valid_within, policy_valid, check_within, policy_check};
ghost use Rattle.policy.specs.Dump.{dump_valid, dump_check};
ghost use Rattle.policy.specs.Stated.{stated_length, stated_of, repeats};
ghost use Rattle.policy.specs.Filter.{slots, key_of, slot_of, fingerprint_of, Marks, marks_with};
ghost use Rattle.policy.specs.Choice.{choice_of};
ghost use Rattle.policy.specs.Walk.{EntryEnds};
ghost use Rattle.policy.specs.Best.{as_choice};

mod entries;
mod search;

pub use entries::Entries;
use entry::Packed;
use search::Search;

// The slots of the filter; `specs/Filter.antt` has the same for the proofs.
pub const SLOTS: usize = 2048;

// As many entries as a record may have, for arrays.
pub const ENTRIES: usize = limits::MAX_ENTRIES;

// What the check of a valid policy record finds: how many entries, and how many bytes they take.
#[derive(Clone, Copy)]
pub struct Extent {
    pub count: usize,
    pub used: usize,
}

// The chosen entry: its place counted from 0, its first byte in the record and its rank.
#[derive(Clone, Copy)]
pub struct Chosen {
    pub index: usize,
    pub at: usize,
    pub rank: usize,
}

// The well-formed entry that the bytes begin with.
pub fn first_entry(p: &[u8]) -> Option<Packed<'_>>
    ensures { MatchOption result (entry_length p.now ≡ 0)
        (λ e. (e.bytes.now ≡ take (entry_length p.now) p.now) × (length e.bytes.now ≡ entry_length p.now)) }
{
    if p.len() < limits::ENTRY_HEADER {
        return None;
    }
    let n = slices::get16(p, limits::SIZE_AT);
    if p.len() < n {
        return None;
    }
    Packed::new(&p[..n])
}

// Whether one of the first count entries has the namespace and the name of e.
fn is_among(policy: &[u8], count: usize, e: Packed<'_>) -> bool
    requires { count ≤ length (entries_of policy.now) }
    ensures { result ≡ contains (same_target e.entry.bytes.now) (take count (entries_of policy.now)) }
{
    let mut at = 0;
    for _ in 0..count {
        let end = at + slices::get16(policy, at + limits::SIZE_AT);
        let met = Packed {
            bytes: &policy[at..end],
        };
        if e.same_target(met) {
            return true;
        }
        at = end;
    }
    false
}

// The entry that the bytes begin with, as long as its Size says; none where not so many bytes are there, or no header.
fn stated_entry(p: &[u8]) -> Option<&[u8]>
    ensures { MatchOption result (stated_length p.now ≡ 0)
        (λ f. (f.now ≡ take (stated_length p.now) p.now) × (length f.now ≡ stated_length p.now) × (entry_header ≤ length f.now)) }
{
    if p.len() < limits::ENTRY_HEADER {
        return None;
    }
    let n = slices::get16(p, limits::SIZE_AT);
    if n < limits::ENTRY_HEADER {
        return None;
    }
    if p.len() < n {
        return None;
    }
    Some(&p[..n])
}

// Whether f is a well-formed entry with the namespace and the name of e: that first, since most are another's, and whether it is well formed last.
fn repeats(e: Packed<'_>, f: &[u8]) -> bool
    requires { entry_header ≤ length f.now }
    ensures { result ≡ repeats e.entry.bytes.now f.now }
{
    if !names::same_namespace(e.namespace(), &f[limits::NAMESPACE_AT..limits::MIN_SIZE_AT]) {
        return false;
    }
    let name = slices::part(f, slices::get16(f, limits::OFFSET_TO_NAME_AT), f.len() - 2);
    if !names::same_name(e.name(), name) {
        return false;
    }
    entry::well_formed(f)
}

// Whether one of the entries that the bytes begin with, whatever they are, has the namespace and the name of e.
pub fn has_target(entries: &[u8], e: Packed<'_>) -> bool
    ensures { result ≡ contains (repeats e.entry.bytes.now) (stated_of entries.now) }
{
    let mut rest = entries;
    while let Some(f) = stated_entry(rest) {
        if repeats(e, f) {
            return true;
        }
        rest = &rest[f.len()..];
    }
    false
}

// The key of an entry, from which its slot in the filter and its fingerprint are taken.
fn key(e: Packed<'_>) -> usize
    ensures { result ≡ key_of e.entry.bytes.now }
{
    let h = slices::hash(slices::get32(e.bytes, limits::NAMESPACE_AT), e.name());
    let product = h % 4294967296 * 2654435761;
    product % 4294967296 + product / 4294967296
}

// Where the filter notes an entry, and as what.
#[derive(Clone, Copy)]
pub struct Mark {
    pub slot: usize,
    pub fingerprint: u8,
}

pub fn mark_of(e: Packed<'_>) -> Mark
    ensures { (result.slot ≡ slot_of e.entry.bytes.now) × (result.fingerprint ≡ fingerprint_of e.entry.bytes.now) }
{
    let key = key(e);
    Mark {
        slot: key / 2097152 % SLOTS,
        fingerprint: (key / 8192 % 128 + 1) as u8,
    }
}

// Whether one of the first count entries, which the filter has, has the namespace and the name of e; the filter then has e too.
fn is_repeated(policy: &[u8], count: usize, e: Packed<'_>, marks: &mut [u8; SLOTS]) -> bool
    requires { (count ≤ length (entries_of policy.now)) × Marks marks.old (take count (entries_of policy.now)) }
    ensures answer { result ≡ contains (same_target e.entry.bytes.now) (take count (entries_of policy.now)) }
    ensures marked { marks.new ≡ marks_with marks.old e.entry.bytes.now }
{
    let mark = mark_of(e);
    let slot = mark.slot;
    let fingerprint = mark.fingerprint;
    let seen = marks[slot];
    if seen == 0 {
        marks[slot] = fingerprint;
        return false;
    }
    marks[slot] = 255;
    if (seen == 255) | (seen == fingerprint) {
        return is_among(policy, count, e);
    }
    false
}

// The check of entries and then zeros, whatever the length, with a filter that has no entry. Where each entry ends is noted.
fn scan(policy: &[u8], marks: &mut [u8; SLOTS], ends: &mut [u16; ENTRIES]) -> Option<Extent>
    requires { (length policy.now ≤ policy_bytes) × Marks marks.old [] × (length ends.old ≡ max_entries) }
    ensures answer { result ≡ check_within (length policy.now) policy.now }
    ensures noted { valid_within well_formed max_entries (length policy.now) policy.now ≡ true
        → EntryEnds ends.new policy.now }
{
    let mut count = 0;
    let mut used = 0;
    while let Some(e) = first_entry(&policy[used..]) {
        if count == limits::MAX_ENTRIES {
            return None;
        }
        if is_repeated(policy, count, e, marks) {
            return None;
        }
        let end = used + e.bytes.len();
        ends[count] = end as u16;
        count += 1;
        used = end;
    }
    slices::all_are(&policy[used..], 0).then_some(Extent { count, used })
}

// A filter that has no entry.
fn no_marks() -> [u8; SLOTS]
    ensures { length result ≡ slots }
{
    [0u8; SLOTS]
}

// A place for the ends of the entries, before they are known.
pub fn no_ends() -> [u16; ENTRIES]
    ensures { length result ≡ max_entries }
{
    [0u16; ENTRIES]
}

// The same with a filter of its own, which takes its room on the stack for this time alone.
fn scan_noting(policy: &[u8], ends: &mut [u16; ENTRIES]) -> Option<Extent>
    requires { (length policy.now ≤ policy_bytes) × (length ends.old ≡ max_entries) }
    ensures answer { result ≡ check_within (length policy.now) policy.now }
    ensures noted { valid_within well_formed max_entries (length policy.now) policy.now ≡ true
        → EntryEnds ends.new policy.now }
{
    let mut marks = no_marks();
    scan(policy, &mut marks, ends)
}

// The check of a lent policy record (RULES.md, 7), which notes where each entry ends.
pub fn check_noting(policy: &[u8], ends: &mut [u16; ENTRIES]) -> Option<Extent>
    requires { length ends.old ≡ max_entries }
    ensures answer { result ≡ policy_check policy.now }
    ensures noted { policy_valid policy.now ≡ true → EntryEnds ends.new policy.now }
{
    if policy.len() != limits::POLICY_BYTES {
        return None;
    }
    scan_noting(policy, ends)
}

// The check alone.
pub fn check(policy: &[u8]) -> Option<Extent>
    ensures { result ≡ policy_check policy.now }
{
    let mut ends = no_ends();
    check_noting(policy, &mut ends)
}

// The check of a dump (RULES.md, 10.11), which notes where each entry ends: a record without a length of its own, and nothing behind the entries.
pub fn check_dump(dump: &[u8], ends: &mut [u16; ENTRIES]) -> Option<Extent>
    requires { length ends.old ≡ max_entries }
    ensures answer { result ≡ dump_check dump.now }
    ensures noted { dump_valid dump.now ≡ true → EntryEnds ends.new dump.now }
{
    if limits::POLICY_BYTES < dump.len() {
        return None;
    }
    let extent = scan_noting(dump, ends)?;
    (dump.len() <= extent.used).then_some(extent)
}

// Whether an entry of the record has the namespace and the name of e: what registration answers 20 to.
pub fn contains(policy: &[u8], count: usize, e: Packed<'_>) -> bool
    requires { count ≡ length (entries_of policy.now) }
    ensures { result ≡ contains (same_target e.entry.bytes.now) (entries_of policy.now) }
{
    is_among(policy, count, e)
}

// Puts the entry e behind the others, which take `used` bytes.
pub fn append(policy: &mut [u8], used: usize, e: &[u8])
    requires { (policy_valid policy.old ≡ true) × (used ≡ sizes_sum policy.old) × (used + length e.now ≤ policy_bytes) }
    ensures { policy.new ≡ pack_policy (entries_of policy.old ++ (e.now ∷ [])) }
{
    slices::copy_in(policy, used, e);
}

// Writes the entries, which take `used` bytes, from the start of the buffer; its later bytes stay.
pub fn dump_into(policy: &[u8], used: usize, buffer: &mut [u8])
    requires { (used ≡ sizes_sum policy.now) × (used ≤ length buffer.old) }
    ensures { buffer.new ≡ overwrite buffer.old 0 (flat (entries_of policy.now)) }
{
    slices::copy_in(buffer, 0, &policy[..used]);
}

// Leaves a record without entries.
pub fn clear(policy: &mut [u8])
    requires { length policy.old ≡ policy_bytes }
    ensures { policy.new ≡ empty_policy }
{
    let n = policy.len();
    slices::fill(policy, 0, n, 0);
}

// The choice of the entry at index whose first byte is at; none where the rank is NO_RANK.
#[tactic(auto, unfolding(crate::specs::Best::as_choice))]
fn choice_of(rank: usize, index: usize, at: usize) -> Option<Chosen>
    ensures { result ≡ as_choice rank index at }
{
    (rank != limits::NO_RANK).then_some(Chosen { index, at, rank })
}

// The chosen entry for the variable of that namespace and name.
// The best rank so far is NO_RANK while there is none; a rank of 0 is not beaten.
pub fn choose(entries: Entries<'_>, namespace: &[u8; 16], name: &[u8]) -> Option<Chosen>
    ensures { result ≡ choice_of (entries_of entries.entry.bytes.now) (variable namespace.now name.now) }
{
    let search = Search::new(namespace, name);
    let mut best = limits::NO_RANK;
    let mut best_index = 0;
    let mut first = 0;
    while let Some(index) = search.candidate(&entries, first) {
        let rank = search.rank_for(entries.get(index));
        if rank == 0 {
            let at = entries.start(index);
            return Some(Chosen { index, at, rank });
        }
        if rank < best {
            best = rank;
            best_index = index;
        }
        first = index + 1;
    }
    choice_of(best, best_index, entries.start(best_index))
}
