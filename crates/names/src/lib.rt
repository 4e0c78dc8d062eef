// Names of variables, entries and triggers: bytes of 16-bit little-endian units.
#![tactic(auto)]

ghost use Rattle.std.specs.Prelude.{◌≡◌, true, ◌+◌, ◌-◌, ◌/◌, ◌%◌, ◌≤◌, ◌<◌, length, take, drop};
ghost use Rattle.limits.specs.Limits.{namespace_bytes};
ghost use Rattle.slices.specs.Test.{◌and◌};
ghost use Rattle.slices.specs.Bytes.{le16, same, pairwise};
ghost use Rattle.names.specs.Tail.{unit_mask, word, masks_at, OfMask, TailBy, TailOf};
ghost use Rattle.names.specs.Name.{units, each, is_name, is_terminated, is_hex_digit, unit_matches, matches, wildcards, is_plain_terminated, name_length, closed, signs_in, plain_unit, OfTest, OfPairTest, unit_near};

pub mod units;

pub use units::Units;

// The number of whole units.
pub fn unit_count(s: &[u8]) -> usize
    ensures { result ≡ length (units s.now) }
{
    s.len() / 2
}

// The unit from byte i on, as 16 bits: of such, unlike of wider numbers, eight are compared at once.
pub fn unit(s: &[u8], i: usize) -> u16
    requires { i + 2 ≤ length s.now }
    ensures { result ≡ le16 s.now i }
{
    u16::from_le_bytes([s[i], s[i + 1]])
}

// Whether each of the units of a block passes the test. No exit before the end: of a known length it is compiled to wide compares.
#[inline(always)]
pub fn block_passes<const N: usize, F: Fn(u16) -> bool>(block: &[u8; N], test: F) -> bool
    requires { F.IsAlwaysCallable test }
    ensures { OfTest F.post test result (λ t. each t (units block.now)) }
{
    Units(block).fold(true, |ok, u| ok & test(u))
}

// Whether each unit passes the test: eight at a time, and then one by one.
#[inline(always)]
pub fn each_unit<F: Fn(u16) -> bool>(s: &[u8], test: F) -> bool
    requires { F.IsAlwaysCallable test }
    ensures { OfTest F.post test result (λ t. each t (units s.now)) }
{
    let (blocks, rest) = s.as_chunks::<16>();
    blocks.iter().all(|block| block_passes(block, |u| test(u))) && Units(rest).all(|u| test(u))
}

// The bits that '#' has not.
const OTHER_BITS: u16 = 0xFFDC;

// How many bytes from the start on, by sixteens, have only units with a bit that '#' has not: then none is zero or '#'. What is behind
// them decides.
fn clear_length(s: &[u8]) -> usize
    ensures within { result ≤ length s.now }
    ensures behind { each plain_unit (units s.now) ≡ each plain_unit (units (drop result s.now)) }
{
    let (blocks, _) = s.as_chunks::<16>();
    let clear = blocks
        .iter()
        .take_while(|block| block_passes(*block, |u| u & OTHER_BITS != 0));
    16 * clear.count()
}

// Whether no unit is zero or '#', in one pass.
fn plain_units(s: &[u8]) -> bool
    ensures { result ≡ each plain_unit (units s.now) }
{
    Units(&s[clear_length(s)..]).all(|u| (u != 0) & (u != 0x23))
}

// Whether so many bytes are 1 to 64 whole units.
fn name_length(n: usize) -> bool
    ensures { result ≡ name_length n }
{
    if n % 2 != 0 {
        return false;
    }
    if n < 2 {
        return false;
    }
    n <= limits::MAX_NAME_BYTES
}

// The one checker: whether the bytes are a name without its closing zero unit, 1 to 64 whole units, none zero, and none '#' either
// unless `signs` allows it. One pass over the units.
fn check_name(s: &[u8], signs: bool) -> bool
    ensures { result ≡ (is_name s.now and signs_in signs s.now) }
{
    if !name_length(s.len()) {
        return false;
    }
    if signs {
        return each_unit(s, |u| u != 0);
    }
    plain_units(s)
}

// Whether the last unit is zero.
fn is_closed(s: &[u8]) -> bool
    ensures { result ≡ closed s.now }
{
    let n = s.len();
    if n < 2 {
        return false;
    }
    if s[n - 2] != 0 {
        return false;
    }
    s[n - 1] == 0
}

// The same for a name and then one zero unit.
fn check_terminated(s: &[u8], signs: bool) -> bool
    ensures { result ≡ (is_terminated s.now and signs_in signs (take (length s.now - 2) s.now)) }
{
    if !is_closed(s) {
        return false;
    }
    check_name(&s[..s.len() - 2], signs)
}

// Whether the bytes are a name.
pub fn is_name(s: &[u8]) -> bool
    ensures { result ≡ is_name s.now }
{
    check_name(s, true)
}

// Whether the bytes are a name and then one zero unit.
pub fn is_terminated(s: &[u8]) -> bool
    ensures { result ≡ is_terminated s.now }
{
    check_terminated(s, true)
}

// Whether the bytes are a name that has no '#', and then one zero unit: how an entry carries its trigger's.
pub fn is_plain_terminated(s: &[u8]) -> bool
    ensures { result ≡ is_plain_terminated s.now }
{
    check_terminated(s, false)
}

// Whether the unit is a hex digit: 0 to 9, A to F or a to f. Without a branch, so that eight units are tested at once.
pub fn is_hex_digit(u: u16) -> bool
    ensures { result ≡ is_hex_digit u }
{
    let digit = (0x30 <= u) & (u <= 0x39);
    let upper = (0x41 <= u) & (u <= 0x46);
    let lower = (0x61 <= u) & (u <= 0x66);
    digit | (upper | lower)
}

// One unit of an entry's name against one of a variable's: '#' over a hex digit, or another unit over itself.
pub fn unit_matches(p: u16, u: u16) -> bool
    ensures { result ≡ unit_matches p u }
{
    let itself = (p == u) & (p != 0x23);
    let wildcard = (p == 0x23) & is_hex_digit(u);
    itself | wildcard
}

// Whether the units are near: equal, or the entry's is '#', whatever it stands over. Units that are not near do not match.
fn unit_near(p: u16, u: u16) -> bool
    ensures is { result ≡ unit_near p u }
    ensures needed { unit_matches p u ≡ true → result ≡ true }
{
    (p == u) | (p == 0x23)
}

// Whether each pair of the eight units of two blocks passes the test. No exit before the end: it is compiled to wide compares.
#[inline(always)]
fn eight_pairs<F: Fn(u16, u16) -> bool>(p: &[u8; 16], v: &[u8; 16], test: F) -> bool
    requires { F.IsAlwaysCallable test }
    ensures { OfPairTest F.post test result (λ t. pairwise t (units p.now) (units v.now)) }
{
    Units(p)
        .zip(Units(v))
        .fold(true, |ok, (own, u)| ok & test(own, u))
}

// The bits in which an entry's unit must agree with this one to match it: of a hex digit those in which '#' agrees with it, of
// another unit all.
fn unit_mask(u: u16) -> u16
    ensures { result ≡ unit_mask u }
{
    if is_hex_digit(u) {
        return 65535 - (u ^ 0x23);
    }
    65535
}

// Four numbers of 16 bits as one word.
pub fn word(a: usize, b: usize, c: usize, d: usize) -> usize
    requires { (a < 65536) × (b < 65536) × (c < 65536) × (d < 65536) }
    ensures { result ≡ word a b c d }
{
    a + 65536 * (b + 65536 * (c + 65536 * d))
}

// The masks of the four units from byte i on.
#[inline(always)]
fn masks_at<F: Fn(u16) -> u16>(v: &[u8], i: usize, mask: F) -> usize
    requires { F.IsAlwaysCallable mask × (i + 8 ≤ length v.now) }
    ensures { OfMask F.post mask (λ t. result ≡ masks_at t v.now i) }
{
    let first = usize::from(mask(unit(v, i)));
    let second = usize::from(mask(unit(v, i + 2)));
    let third = usize::from(mask(unit(v, i + 4)));
    let fourth = usize::from(mask(unit(v, i + 6)));
    word(first, second, third, fourth)
}

// The last four units of a name, for a walk over many others: a mask of each, and the bits that count of these.
#[derive(Clone, Copy)]
pub struct Tail {
    pub mask: usize,
    pub shown: usize,
}

// The last four units under the masks that a function makes of them; of a shorter name no bits count.
#[inline(always)]
pub fn tail_by<F: Fn(u16) -> u16>(v: &[u8], mask: F) -> Tail
    requires { F.IsAlwaysCallable mask }
    ensures { OfMask F.post mask (λ t. TailBy t v.now result.mask result.shown) }
{
    if v.len() < 8 {
        return Tail { mask: 0, shown: 0 };
    }
    let last = v.len() - 8;
    let mask = masks_at(v, last, mask);
    let shown = slices::get64(v, last) & mask;
    Tail { mask, shown }
}

// The last four units of a variable's name, as entries' names must agree with them to match it.
pub fn tail_of(v: &[u8]) -> Tail
    ensures { TailOf v.now result.mask result.shown }
{
    tail_by(v, |u| unit_mask(u))
}

// Whether the first unit is near, of names that are not empty. Where not, the names do not match.
fn first_near(p: &[u8], v: &[u8]) -> bool
    requires { (2 ≤ length p.now) × (2 ≤ length v.now) }
    ensures { matches (units p.now) (units v.now) ≡ true → result ≡ true }
{
    unit_near(unit(p, 0), unit(v, 0))
}

// Whether the first units of an entry's name, not empty and as long as the variable's, are near: the first, and of eight and more
// the first eight. Where not, the names do not match. This is for a walk over many names, behind the test of their last units.
pub fn may_match(p: &[u8], v: &[u8]) -> bool
    requires { (length p.now ≡ length v.now) × (2 ≤ length v.now) }
    ensures { matches (units p.now) (units v.now) ≡ true → result ≡ true }
{
    if !first_near(p, v) {
        return false;
    }
    match (p.first_chunk::<16>(), v.first_chunk::<16>()) {
        (Some(own), Some(name)) => eight_pairs(own, name, |p, u| unit_near(p, u)),
        _ => true,
    }
}

// Whether the first unit and the last are near, of names that are not empty and as long. Where not, the names do not match.
fn ends_near(p: &[u8], v: &[u8]) -> bool
    requires { (length p.now ≡ length v.now) × (length v.now % 2 ≡ 0) × (2 ≤ length v.now) }
    ensures { matches (units p.now) (units v.now) ≡ true → result ≡ true }
{
    if !first_near(p, v) {
        return false;
    }
    let last = v.len() - 2;
    unit_near(unit(p, last), unit(v, last))
}

// Whether each pair of as many units passes the test: eight at a time, and then one by one.
#[inline(always)]
pub fn each_pair<F: Fn(u16, u16) -> bool>(p: &[u8], v: &[u8], test: F) -> bool
    requires callable { F.IsAlwaysCallable test }
    requires as_many { length p.now / 2 ≡ length v.now / 2 }
    ensures { OfPairTest F.post test result (λ t. pairwise t (units p.now) (units v.now)) }
{
    let (owns, own_rest) = p.as_chunks::<16>();
    let (blocks, rest) = v.as_chunks::<16>();
    owns.iter()
        .zip(blocks)
        .all(|(own, block)| eight_pairs(own, block, |p, u| test(p, u)))
        && Units(own_rest).zip(Units(rest)).all(|(p, u)| test(p, u))
}

// How many bytes from the start on, by sixteens, are the same in both and have no '#'. What is behind them decides.
fn plain_length(p: &[u8], v: &[u8]) -> usize
    requires { length p.now ≡ length v.now }
    ensures within { result ≤ length v.now }
    ensures behind { matches (units p.now) (units v.now) ≡ matches (units (drop result p.now)) (units (drop result v.now)) }
{
    let (owns, _) = p.as_chunks::<16>();
    let (blocks, _) = v.as_chunks::<16>();
    let plain = owns.iter().zip(blocks).take_while(|(own, block)| eight_pairs(
        *own,
        *block,
        |p, u| (p == u) & (p != 0x23),
    ));
    16 * plain.count()
}

// Whether as many units match; as far as they are equal and no '#', the usual case, by fewer tests.
fn units_match(p: &[u8], v: &[u8]) -> bool
    requires { length p.now ≡ length v.now }
    ensures { result ≡ matches (units p.now) (units v.now) }
{
    let i = plain_length(p, v);
    each_pair(&p[i..], &v[i..], |p, u| unit_matches(p, u))
}

// The one comparison of a name with a pattern: an entry's name against a variable's, as many units, each matching. The first and
// the last are looked at before the others.
pub fn matches(p: &[u8], v: &[u8]) -> bool
    ensures { result ≡ matches (units p.now) (units v.now) }
{
    let n = 2 * unit_count(p);
    if n != 2 * unit_count(v) {
        return false;
    }
    if n == 0 {
        return true;
    }
    let own = &p[..n];
    let name = &v[..n];
    if !ends_near(own, name) {
        return false;
    }
    units_match(own, name)
}

// The one comparison of two names: whether they are the same bytes. The last eight are compared first, since names differ there most often.
pub fn same_name(a: &[u8], b: &[u8]) -> bool
    ensures { result ≡ same a.now b.now }
{
    if a.len() != b.len() {
        return false;
    }
    if a.len() < 8 {
        return a == b;
    }
    let last = a.len() - 8;
    if !slices::eight(a, b, last) {
        return false;
    }
    let (words, _) = a.as_chunks::<8>();
    let (others, _) = b.as_chunks::<8>();
    words.iter().zip(others).all(|(x, y)| *x == *y)
}

// Whether two namespaces are equal: two words of eight bytes, both looked at.
pub fn same_namespace(a: &[u8], b: &[u8]) -> bool
    requires { (length a.now ≡ namespace_bytes) × (length b.now ≡ namespace_bytes) }
    ensures { result ≡ same a.now b.now }
{
    slices::eight(a, b, 0) & slices::eight(a, b, 8)
}

// The number of '#' among the units, each looked at.
#[inline(always)]
fn signs(s: &[u8]) -> usize
    ensures { result ≡ wildcards (units s.now) }
{
    Units(s).map(|u| usize::from(u == 0x23)).sum()
}

// The number of '#' among the units. Most often eight have none, and are then not counted.
pub fn wildcards(s: &[u8]) -> usize
    ensures { result ≡ wildcards (units s.now) }
{
    let (blocks, rest) = s.as_chunks::<16>();
    let in_blocks: usize = blocks
        .iter()
        .filter(|block| !block_passes(*block, |u| u != 0x23))
        .map(|block| signs(block))
        .sum();
    in_blocks + signs(rest)
}
