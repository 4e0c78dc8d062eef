// Entries of a dump that quarrel (RULES.md, 10.11): two of equal rank that target one variable.
#![tactic(auto)]

ghost use Rattle.std.specs.Prelude.{◌≡◌, ℕ, true, ◌≤◌, ◌<◌, length, get_or, replicate, eqb, ltb, [], MatchOption};
ghost use Rattle.std.specs.Int.Bits.{bit_and};
ghost use Rattle.slices.specs.Test.{◌and◌};
ghost use Rattle.patterns.specs.Common.{same_signs};
ghost use Rattle.limits.specs.Limits.{max_entries};
ghost use Rattle.patterns.specs.Literals.{literal_mask_of, literals_of};
ghost use Rattle.entry.specs.Entry.{name_of};
ghost use Rattle.policy.specs.Policy.{entries_of};
ghost use Rattle.policy.specs.Dump.{dump_valid};
ghost use Rattle.quarrels.specs.Quarrel.{quarrel, quarrel_at, pair_of, quarrels_of, buffer_after};
ghost use Rattle.quarrels.specs.Group.{groups, group_of, group_at, InGroup, Rises, Chains, Others, front, notes, noted_for, Noted, Skipped};

use entry::Packed;
use names::Tail;
use policy::{ENTRIES, Entries};

// The groups of entries that may quarrel; `specs/Group.antt` has the same for the proofs.
const GROUPS: usize = 256;

// Two numbers for each entry that a dump may have, and between the two a zero at the end of all chains.
const NOTES: usize = 2 * limits::MAX_ENTRIES + 1;

// Where the second numbers begin.
const TAILS: usize = limits::MAX_ENTRIES + 1;

// The end of a chain: behind the last entry that a dump may have. (A number and no `Option`, since what is noted at that place stops the loop of `candidate` without
// a second test. A link has 32 bits, since that loop takes an instruction more with 64 and two with 8.)
const END: u32 = limits::MAX_ENTRIES as u32;

// The same for a group without an entry. (A head becomes a link as it stands, so that it too is a number; it has 8 bits, since 256 heads are filled for every dump.)
const NONE: u8 = limits::MAX_ENTRIES as u8;

// The places of two entries of a dump, counted from 0.
#[derive(Clone, Copy, Debug, PartialEq, Eq)]
pub struct Pair {
    pub earlier: usize,
    pub later: usize,
}

// The first two entries that quarrel, and the length of the least name that both target.
#[derive(Clone, Copy, Debug, PartialEq, Eq)]
pub struct FoundQuarrel {
    pub pair: Pair,
    pub length: usize,
}

// The bytes are no dump.
#[derive(Clone, Copy, Debug, PartialEq, Eq)]
pub struct NoDump;

// The entries of a dump that was found valid. (That its bytes are less than 256 is not told of a field.)
#[derive(Clone, Copy)]
struct Dump<'a> {
    entries: Entries<'a>,
    ghost valid: { dump_valid entries.bytes.now ≡ true },
    ghost fit: { (k : ℕ) → get_or entries.bytes.now k 0 < 256 },
}

// For each entry of a dump the next one of its group, and the first one behind it that has '#' at other places. (Two arrays, since each loop reads one of them.)
#[derive(Drop)]
struct Links {
    next: [u32; ENTRIES],
    first: [u32; ENTRIES],
}

// Of the first and of the last units of each entry which bits count, and these. (Two arrays and none of pairs, since the loop of `candidate` reads both by one index.)
#[derive(Drop)]
struct Notes {
    masks: [usize; NOTES],
    shown: [usize; NOTES],
}

// A dump with all its entries linked and noted.
#[derive(Clone, Copy)]
struct Grouped<'a> {
    dump: Dump<'a>,
    links: &'a Links,
    notes: &'a Notes,
    ghost chained: { Chains (group_at (entries_of dump.entries.bytes.now)) (length (entries_of dump.entries.bytes.now)) links.now.next 0 },
    ghost others: { Others (entries_of dump.entries.bytes.now) links.now.first 0 },
    ghost masked: { Noted literal_mask_of (entries_of dump.entries.bytes.now) notes.now.masks 0 },
    ghost shows: { Noted literals_of (entries_of dump.entries.bytes.now) notes.now.shown 0 },
}

// The group of an entry: of two that quarrel it is the same. None where there is no '#' in its name, since such entries quarrel with none.
fn group_of(e: Packed<'_>) -> Option<usize>
    ensures { MatchOption result (groups ≡ group_of e.entry.bytes.now) (λ group. (group ≡ group_of e.entry.bytes.now) × (group < groups)) }
{
    let name = e.name();
    if !patterns::has_sign(name) {
        return None;
    }
    let key = slices::get32(e.bytes, limits::NAMESPACE_AT) + 4099 * name.len();
    Some(key % 4294967296 * 2654435761 / 16777216 % GROUPS)
}

// Whether two entries quarrel.
fn quarrel(e: Packed<'_>, f: Packed<'_>) -> bool
    ensures { result ≡ quarrel e.entry.bytes.now f.entry.bytes.now }
{
    let own = e.name();
    let other = f.name();
    if own.len() != other.len() {
        return false;
    }
    if own.len() == 0 {
        return false;
    }
    if !patterns::overlap(own, other) {
        return false;
    }
    if names::wildcards(own) != names::wildcards(other) {
        return false;
    }
    names::same_namespace(e.namespace(), f.namespace())
}

// A place in a chain as an index.
fn place(link: u32) -> usize
    ensures { result ≡ link }
{
    link as usize
}

// No entry of any group, before they are met.
fn no_heads() -> [u8; GROUPS]
    ensures { result ≡ replicate groups max_entries }
{
    [NONE; GROUPS]
}

// Every entry at the end of a chain, before they are linked.
fn no_links() -> Links
    ensures { (result.next ≡ replicate max_entries max_entries) × (result.first ≡ replicate max_entries max_entries) }
{
    Links {
        next: [END; ENTRIES],
        first: [END; ENTRIES],
    }
}

// No number noted for any entry.
fn no_notes() -> Notes
    ensures { (result.masks ≡ replicate notes 0) × (result.shown ≡ replicate notes 0) }
{
    Notes {
        masks: [0usize; NOTES],
        shown: [0usize; NOTES],
    }
}

// Whether there is an entry at that place, and it has '#' just where the name has it.
fn alike(entries: Entries<'_>, name: &[u8], place: usize) -> bool
    ensures { result ≡ (ltb place entries.entry.count and same_signs name.now (name_of (get_or (entries_of entries.entry.bytes.now) place []))) }
{
    if entries.count <= place {
        return false;
    }
    let e = entries.get(place);
    patterns::same_signs(name, e.name())
}

// The first four units of a name; of a shorter one all.
fn front(name: &[u8]) -> &[u8]
    ensures { result.now ≡ front name.now }
{
    if name.len() < 8 {
        return name;
    }
    &name[..8]
}

// Notes the first and the last units of the entry at that place.
fn note(name: &[u8], place: usize, noted: &mut Notes)
    requires { (place < max_entries) × (length noted.old.masks ≡ notes) × (length noted.old.shown ≡ notes) }
    ensures masked { noted.new.masks ≡ noted_for literal_mask_of noted.old.masks place name.now }
    ensures shown { noted.new.shown ≡ noted_for literals_of noted.old.shown place name.now }
{
    let foremost = patterns::literals(front(name));
    let last = patterns::literals(name);
    noted.masks[place] = foremost.mask;
    noted.shown[place] = foremost.shown;
    noted.masks[TAILS + place] = last.mask;
    noted.shown[TAILS + place] = last.shown;
}

// Links each entry with '#' in its name to the next one of its group, and to the first that has '#' at other places; its first and last units are
// noted. From the last entry to the first, so that `heads` has the first of each group among those that were met.
fn link(entries: Entries<'_>, links: &mut Links, noted: &mut Notes)
    requires { Chains (group_at (entries_of entries.bytes.now)) (length (entries_of entries.bytes.now)) links.old.next (length (entries_of entries.bytes.now))
        × Others (entries_of entries.bytes.now) links.old.first (length (entries_of entries.bytes.now))
        × Noted literal_mask_of (entries_of entries.bytes.now) noted.old.masks (length (entries_of entries.bytes.now))
        × Noted literals_of (entries_of entries.bytes.now) noted.old.shown (length (entries_of entries.bytes.now)) }
    ensures chained { Chains (group_at (entries_of entries.entry.bytes.now)) (length (entries_of entries.entry.bytes.now)) links.new.next 0 }
    ensures others { Others (entries_of entries.entry.bytes.now) links.new.first 0 }
    ensures masked { Noted literal_mask_of (entries_of entries.entry.bytes.now) noted.new.masks 0 }
    ensures shows { Noted literals_of (entries_of entries.entry.bytes.now) noted.new.shown 0 }
{
    let mut heads = no_heads();
    for i in (0..entries.count).rev() {
        let e = entries.get(i);
        if let Some(group) = group_of(e) {
            let name = e.name();
            let behind = heads[group] as u32;
            heads[group] = i as u8;
            links.next[i] = behind;
            links.first[i] = behind;
            note(name, i, noted);
            let other = place(behind);
            if alike(entries, name, other) {
                links.first[i] = links.first[other];
            }
        }
    }
}

// Whether what was noted agrees, at these two indices, in the units that both entries spell out.
fn agree(noted: &Notes, i: usize, j: usize) -> bool
    requires { (i < notes) × (j < notes) }
    ensures { result ≡ eqb (bit_and (get_or noted.now.shown i 0) (get_or noted.now.masks j 0)) (bit_and (get_or noted.now.shown j 0) (get_or noted.now.masks i 0)) }
{
    noted.shown[i] & noted.masks[j] == noted.shown[j] & noted.masks[i]
}

// Whether the entries at two places of one group quarrel. Their names are looked at where the first and the last units agree.
fn quarrel_at(grouped: &Grouped<'_>, earlier: usize, later: usize) -> bool
    requires { InGroup (entries_of grouped.now.dump.entries.bytes.now) earlier later }
    ensures { result ≡ quarrel_at (entries_of grouped.now.dump.entries.bytes.now) earlier later }
{
    if !agree(grouped.notes, earlier, later) {
        return false;
    }
    if !agree(grouped.notes, TAILS + earlier, TAILS + later) {
        return false;
    }
    let e = grouped.dump.entries.get(earlier);
    let f = grouped.dump.entries.get(later);
    quarrel(e, f)
}

// The first place of a chain, from one on, where the first units agree with those of an entry, `own`, in all that both spell out. At the end of the chain no bit
// counts. (A `while`: the loop follows links, and no range or slice has its places.)
fn candidate(grouped: &Grouped<'_>, from: usize, own: Tail) -> usize
    requires { from ≤ max_entries }
    ensures { Skipped grouped.now.links.now.next grouped.now.notes.now.masks grouped.now.notes.now.shown own.shown own.mask from result }
{
    let links = grouped.links;
    let noted = grouped.notes;
    let mut j = from;
    while (noted.shown[j] ^ own.shown) & noted.masks[j] & own.mask != 0 {
        j = place(links.next[j]);
    }
    j
}

// The first two entries that quarrel: of each entry those behind it in its group are looked at, from the first on that has '#' at other places, and behind
// that one those whose first units agree with its own. (`candidate` is called once only: with two calls the compiler laid one of the loops out with a jump more.)
fn first_pair(grouped: &Grouped<'_>) -> Option<Pair>
    ensures { result ≡ pair_of (entries_of grouped.now.dump.entries.bytes.now) }
{
    let links = grouped.links;
    let noted = grouped.notes;
    let count = grouped.dump.entries.count;
    let mut found = None;
    'pairs: for i in 0..count {
        let own = Tail {
            mask: noted.masks[i],
            shown: noted.shown[i],
        };
        let mut j = place(links.first[i]);
        // A `while`: the loop follows links, and no range or slice has its places.
        while j < count {
            if quarrel_at(grouped, i, j) {
                found = Some(Pair {
                    earlier: i,
                    later: j,
                });
                break 'pairs;
            }
            j = candidate(grouped, place(links.next[j]), own);
        }
    }
    found
}

// Links and notes the entries of a dump that was found valid, and looks for the first two that quarrel. Without a '#' in it there is nothing to look for.
fn pair_of(dump: Dump<'_>) -> Option<Pair>
    ensures { result ≡ pair_of (entries_of dump.entry.entries.bytes.now) }
{
    if !patterns::has_sign(dump.entries.bytes) {
        return None;
    }
    let mut links = no_links();
    let mut notes = no_notes();
    link(dump.entries, &mut links, &mut notes);
    first_pair(&Grouped {
        dump,
        links: &links,
        notes: &notes,
    })
}

// The quarrels of a dump: whether the bytes are one, and if so the first two entries that quarrel, with the least name that both target at the
// front of the buffer.
pub fn quarrels(dump: &[u8], name: &mut [u8; 128]) -> Result<Option<FoundQuarrel>, NoDump>
    ensures answer { result ≡ quarrels_of dump.now }
    ensures buffer { name.new ≡ buffer_after dump.now name.old }
{
    let mut ends = policy::no_ends();
    let Some(extent) = policy::check_dump(dump, &mut ends) else {
        return Err(NoDump);
    };
    let entries = Entries {
        bytes: dump,
        count: extent.count,
        ends: &ends,
    };
    let Some(pair) = pair_of(Dump { entries }) else {
        return Ok(None);
    };
    let own = entries.get(pair.earlier).name();
    let other = entries.get(pair.later).name();
    patterns::put_least(own, other, name);
    Ok(Some(FoundQuarrel {
        pair,
        length: own.len(),
    }))
}
