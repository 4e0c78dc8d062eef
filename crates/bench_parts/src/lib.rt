// The parts of the calls that the benchmark measures by themselves; not for users, who link varpolicy.
// Each takes any bytes, tests what the part asks for, and answers for every input.
#![tactic(auto)]

ghost use Rattle.std.specs.Prelude.{◌≡◌, ◌+◌, leb};
ghost use Rattle.names.specs.Name.{units, matches, variable};
ghost use Rattle.policy.specs.Policy.{policy_check};
ghost use Rattle.stores.specs.Pair.{pair_check};
ghost use Rattle.bench_parts.specs.Parts.{of_policy, of_pair, of_place, chosen_in, found_in, slot_in, filled, copied, moved};

use policy::Entries;
use store::Found;
use stores::Place;

// What a part found, as numbers for C: which case, 0 for nothing, and the two numbers of that case.
#[repr(C)]
#[derive(Clone, Copy)]
pub struct Numbers {
    pub kind: u32,
    pub first: usize,
    pub second: usize,
}

fn answer(kind: u32, first: usize, second: usize) -> Numbers
    ensures { result ≡ record { kind = kind; first = first; second = second } }
{
    Numbers {
        kind,
        first,
        second,
    }
}

// The check of a policy record.
#[unsafe(no_mangle)]
pub extern "C" fn bench_check_policy(policy: &[u8]) -> Numbers
    ensures { result ≡ of_policy (policy_check policy.now) }
{
    match policy::check(policy) {
        Some(extent) => answer(1, extent.count, extent.used),
        None => answer(0, 0, 0),
    }
}

// The check of a policy record, and then the choice; with an empty name the check alone.
#[unsafe(no_mangle)]
pub extern "C" fn bench_choose(policy: &[u8], namespace: &[u8; 16], name: &[u8]) -> Numbers
    ensures { result ≡ chosen_in policy.now (variable namespace.now name.now) }
{
    let mut ends = policy::no_ends();
    let Some(extent) = policy::check_noting(policy, &mut ends) else {
        return answer(0, 0, 0);
    };
    if name.len() == 0 {
        return answer(0, 0, 0);
    }
    let entries = Entries {
        bytes: policy,
        count: extent.count,
        ends: &ends,
    };
    match policy::choose(entries, namespace, name) {
        Some(chosen) => answer(1, chosen.at, chosen.rank),
        None => answer(0, 0, 0),
    }
}

// The check of the two stores.
#[unsafe(no_mangle)]
pub extern "C" fn bench_check_stores(nv: &[u8], vol: &[u8]) -> Numbers
    ensures { result ≡ of_pair (pair_check nv.now vol.now) }
{
    match stores::check(nv, vol) {
        Some(ends) => answer(1, ends.nv, ends.vol),
        None => answer(0, 0, 0),
    }
}

// The record at a place: 1 in the non-volatile store, 2 in the volatile one.
fn answer_place(place: Place) -> Numbers
    ensures { result ≡ of_place place }
{
    let Some(Found { at, len }) = place.found else {
        return answer(0, 0, 0);
    };
    if place.nonvolatile {
        answer(1, at, len)
    } else {
        answer(2, at, len)
    }
}

// The check of the two stores, and then the search for a variable; with an empty name the check alone.
#[unsafe(no_mangle)]
pub extern "C" fn bench_find(nv: &[u8], vol: &[u8], namespace: &[u8; 16], name: &[u8]) -> Numbers
    ensures { result ≡ found_in nv.now vol.now (variable namespace.now name.now) }
{
    let Some(ends) = stores::check(nv, vol) else {
        return answer(0, 0, 0);
    };
    if name.len() == 0 {
        return answer(0, 0, 0);
    }
    answer_place(stores::locate(nv, vol, ends, namespace, name))
}

// The slot of a record in the filter of the pair's check; 0 where its name and payload do not lie within the bytes.
#[unsafe(no_mangle)]
pub extern "C" fn bench_slot(s: &[u8]) -> usize
    ensures { result ≡ slot_in s.now }
{
    if s.len() < limits::RECORD_HEADER {
        return 0;
    }
    let n = slices::get32(s, 8);
    if n < 4 {
        return 0;
    }
    if s.len() < limits::RECORD_HEADER + n + slices::get32(s, 12) {
        return 0;
    }
    stores::slot(stores::hash(s))
}

// Whether n bytes from index at on lie within len bytes.
fn fits(len: usize, at: usize, n: usize) -> bool
    ensures { result ≡ leb (at + n) len }
{
    n <= len && at <= len - n
}

// Whether an entry's name matches a variable's.
#[unsafe(no_mangle)]
pub extern "C" fn bench_match(p: &[u8], v: &[u8]) -> bool
    ensures { result ≡ matches (units p.now) (units v.now) }
{
    names::matches(p, v)
}

// Sets n bytes from index at on to v. Where they do not lie within the bytes, this and the next two change nothing.
#[unsafe(no_mangle)]
pub extern "C" fn bench_fill(s: &mut [u8], at: usize, n: usize, v: u8)
    ensures { s.new ≡ filled s.old at n v }
{
    if fits(s.len(), at, n) {
        slices::fill(s, at, n, v);
    }
}

// Copies all of src to index at.
#[unsafe(no_mangle)]
pub extern "C" fn bench_copy(s: &mut [u8], at: usize, src: &[u8])
    ensures { s.new ≡ copied s.old at src.now }
{
    if fits(s.len(), at, src.len()) {
        slices::copy_in(s, at, src);
    }
}

// Moves n bytes from index from to index to.
#[unsafe(no_mangle)]
pub extern "C" fn bench_move(s: &mut [u8], from: usize, to: usize, n: usize)
    ensures { s.new ≡ moved s.old from to n }
{
    if !fits(s.len(), from, n) {
        return;
    }
    if !fits(s.len(), to, n) {
        return;
    }
    if to <= from {
        slices::move_down(s, from, to, n);
    } else {
        slices::move_up(s, from, to, n);
    }
}
