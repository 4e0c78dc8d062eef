// Pairs of patterns, the names of entries: whether some name matches both, and the least that does; '#' in them and in a whole dump.
#![tactic(auto)]

ghost use Rattle.std.specs.Prelude.{◌≡◌, ℕ, ◌+◌, ◌-◌, ◌%◌, ◌≤◌, ◌<◌, length, drop};
ghost use Rattle.slices.specs.Bytes.{overwrite};
ghost use Rattle.patterns.specs.Signs.{has_sign};
ghost use Rattle.patterns.specs.Common.{least_name, overlap, least_of, units_overlap, sign_alike, same_signs};
ghost use Rattle.patterns.specs.Literals.{literal_mask, literal_mask_of, literals_of};

use names::{Tail, Units};

// Whether one of the eight units of a block is '#'.
fn eight_signs(block: &[u8; 16]) -> bool
    ensures { result ≡ has_sign block.now }
{
    !names::block_passes(block, |u| u != 0x23)
}

// The same unit by unit: for a few units.
fn few_signs(s: &[u8]) -> bool
    ensures { result ≡ has_sign s.now }
{
    !Units(s).all(|u| u != 0x23)
}

// The same of whole units, where none is '#' but in the rest, fewer than sixteen: its first eight, where it has so many, and the last eight of all, which may
// have been seen.
fn last_signs(s: &[u8], rest: &[u8], last: &[u8; 16]) -> bool
    requires { (i : ℕ) × (rest.now ≡ drop i s.now) × (i % 2 ≡ 0) × (length s.now % 2 ≡ 0) × (length s.now < i + 32) × (has_sign s.now ≡ has_sign (drop i s.now))
        × (16 ≤ length s.now) × (last.now ≡ drop (length s.now - 16) s.now) }
    ensures { result ≡ has_sign s.now }
{
    match rest.first_chunk::<16>() {
        Some(first) => eight_signs(first) | eight_signs(last),
        None => eight_signs(last),
    }
}

// Whether a unit is '#', of a name or of a whole dump: looked at by sixteens, and behind these by the eights of `last_signs`.
pub fn has_sign(s: &[u8]) -> bool
    ensures { result ≡ has_sign s.now }
{
    let whole = &s[..2 * names::unit_count(s)];
    let Some(last) = whole.last_chunk::<16>() else {
        return few_signs(whole);
    };
    let (blocks, rest) = whole.as_chunks::<32>();
    if !blocks
        .iter()
        .all(|block| names::block_passes(block, |u| u != 0x23))
    {
        return true;
    }
    last_signs(whole, rest, last)
}

// Whether some unit matches two units of patterns: they are equal, or one matches the other.
fn units_overlap(p: u16, q: u16) -> bool
    ensures { result ≡ units_overlap p q }
{
    let one = names::unit_matches(p, q) | names::unit_matches(q, p);
    (p == q) | one
}

// Whether some name matches two patterns as long as each other.
pub fn overlap(p: &[u8], q: &[u8]) -> bool
    requires { length p.now ≡ length q.now }
    ensures { result ≡ overlap p.now q.now }
{
    Units(p)
        .zip(Units(q))
        .all(|(own, other)| units_overlap(own, other))
}

// Whether two units of patterns are both '#', or neither is.
fn sign_alike(p: u16, q: u16) -> bool
    ensures { result ≡ sign_alike p q }
{
    let both = (p == 0x23) & (q == 0x23);
    let neither = (p != 0x23) & (q != 0x23);
    both | neither
}

// Whether two patterns have as many units, and '#' at the same places. Two such that some name matches are the same name.
pub fn same_signs(p: &[u8], q: &[u8]) -> bool
    ensures { result ≡ same_signs p.now q.now }
{
    if names::unit_count(p) != names::unit_count(q) {
        return false;
    }
    names::each_pair(p, q, |own, other| sign_alike(own, other))
}

// The least unit that matches two units of patterns, where there is one: of '#' twice '0', of '#' and another unit that one.
fn least_unit(p: u16, q: u16) -> u16
    ensures { result ≡ least_of p q }
{
    if p != 0x23 {
        return p;
    }
    if q != 0x23 {
        return q;
    }
    0x30
}

// Writes the least name that two patterns as long as each other both match, where there is one.
pub fn put_least(p: &[u8], q: &[u8], name: &mut [u8])
    requires { (length p.now ≡ length q.now) × (length p.now ≤ length name.old) }
    ensures { name.new ≡ overwrite name.old 0 (least_name p.now q.now) }
{
    for i in 0..p.len() / 2 {
        let least = least_unit(names::unit(p, 2 * i), names::unit(q, 2 * i));
        slices::put16(name, 2 * i, usize::from(least));
    }
}

// The bits of a pattern's unit that count: of '#' none, of another unit all.
fn literal_mask(u: u16) -> u16
    ensures { result ≡ literal_mask u }
{
    if u == 0x23 { 0 } else { 65535 }
}

// The last four units of a pattern, for a walk over many pairs: which bits count, and these. Two patterns as long as each other overlap only if they show
// the same bits where both count.
pub fn literals(p: &[u8]) -> Tail
    ensures { (result.mask ≡ literal_mask_of p.now) × (result.shown ≡ literals_of p.now) }
{
    names::tail_by(p, |u| literal_mask(u))
}
