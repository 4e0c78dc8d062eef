// Byte primitives: numbers of two, four and eight bytes, parts, tests of bytes, a hash, and writes and moves in place.
#![tactic(auto)]

ghost use Rattle.std.specs.Prelude.{◌≡◌, ◌+◌, ◌≤◌, ◌<◌, length, get_or, take, drop, replicate};
ghost use Rattle.slices.specs.Bytes.{le16, le32, le64, le16_bytes, part, all_are, same, overwrite};
ghost use Rattle.slices.specs.Hash.{mixed, hash_from};

// The byte at a place, and 0 past the end.
pub fn byte(s: &[u8], at: usize) -> u8
    ensures { result ≡ get_or s.now at 0 }
{
    s.get(at).copied().unwrap_or(0)
}

// The bytes from a place on, and none past the end.
fn rest(s: &[u8], at: usize) -> &[u8]
    ensures { result.now ≡ drop at s.now }
{
    s.get(at..).unwrap_or(&[])
}

// The number of the two bytes from a place on, a byte past the end counting as 0.
pub fn le16(s: &[u8], at: usize) -> u16
    ensures { result ≡ le16 s.now at }
{
    let s = rest(s, at);
    u16::from_le_bytes([byte(s, 0), byte(s, 1)])
}

// The number of the four bytes from a place on, a byte past the end counting as 0.
pub fn le32(s: &[u8], at: usize) -> u32
    ensures { result ≡ le32 s.now at }
{
    let s = rest(s, at);
    u32::from_le_bytes([byte(s, 0), byte(s, 1), byte(s, 2), byte(s, 3)])
}

// The bytes from a up to e, as far as there are any.
pub fn part(s: &[u8], a: usize, e: usize) -> &[u8]
    ensures { result.now ≡ part a e s.now }
{
    if e <= a {
        return &s[..0];
    }
    if s.len() <= a {
        return &s[..0];
    }
    if s.len() < e {
        return &s[a..];
    }
    &s[a..e]
}

// The same numbers, where the bytes are known to be there.
pub fn get16(s: &[u8], at: usize) -> usize
    requires { at + 2 ≤ length s.now }
    ensures is { result ≡ le16 s.now at }
    ensures bound { result < 65536 }
{
    usize::from(u16::from_le_bytes([s[at], s[at + 1]]))
}

pub fn get32(s: &[u8], at: usize) -> usize
    requires { at + 4 ≤ length s.now }
    ensures is { result ≡ le32 s.now at }
    ensures bound { result < 4294967296 }
{
    u32::from_le_bytes([s[at], s[at + 1], s[at + 2], s[at + 3]]) as usize
}

// By two numbers of four bytes, which the compiler makes one load: `from_le_bytes` with its array of eight bytes written out is no plainer.
pub fn get64(s: &[u8], at: usize) -> usize
    requires { at + 8 ≤ length s.now }
    ensures { result ≡ le64 s.now at }
{
    get32(s, at) + 4294967296 * get32(s, at + 4)
}

// Puts a number's two bytes at index at and the one behind it.
pub fn put16(s: &mut [u8], at: usize, n: usize)
    requires { at + 2 ≤ length s.old }
    ensures { s.new ≡ overwrite s.old at (le16_bytes n) }
{
    let [low, high] = ((n % 65536) as u16).to_le_bytes();
    s[at] = low;
    s[at + 1] = high;
}

// Whether every byte is v. No exit before the end, so that the loop is compiled to wide compares.
pub fn all_are(s: &[u8], v: u8) -> bool
    ensures { result ≡ all_are v s.now }
{
    s.iter().fold(true, |ok, b| ok & (*b == v))
}

// The same, left at the first other byte: for a few bytes.
pub fn few_are(s: &[u8], v: u8) -> bool
    ensures { result ≡ all_are v s.now }
{
    s.iter().all(|b| *b == v)
}

// Whether the eight bytes from index i on are the same in both: one compare of words.
pub fn eight(a: &[u8], b: &[u8], i: usize) -> bool
    requires { (i + 8 ≤ length a.now) × (i + 8 ≤ length b.now) }
    ensures { result ≡ same (take 8 (drop i a.now)) (take 8 (drop i b.now)) }
{
    get64(a, i) == get64(b, i)
}

// A hash and a number more.
fn mixed(h: usize, n: usize) -> usize
    requires { n < 4294967296 }
    ensures { result ≡ mixed h n }
{
    h % 4294967296 * 2654435761 + n
}

// A hash of h and fewer than four bytes: the first two of them count.
fn few_mixed(h: usize, s: &[u8]) -> usize
    requires { length s.now < 4 }
    ensures { result ≡ hash_from h s.now }
{
    if 2 <= s.len() {
        mixed(h, get16(s, 0))
    } else {
        h
    }
}

// A hash of h0 and the bytes of s, four at a time.
pub fn hash(h0: usize, s: &[u8]) -> usize
    ensures { result ≡ hash_from h0 s.now }
{
    let (fours, rest) = s.as_chunks::<4>();
    let h = fours
        .iter()
        .fold(h0, |h, four| mixed(h, u32::from_le_bytes(*four) as usize));
    few_mixed(h, rest)
}

// Sets the n bytes from index at on to v.
pub fn fill(s: &mut [u8], at: usize, n: usize, v: u8)
    requires { at + n ≤ length s.old }
    ensures { s.new ≡ overwrite s.old at (replicate n v) }
{
    s[at..at + n].fill(v);
}

// Copies all of src into s from index at on.
pub fn copy_in(s: &mut [u8], at: usize, src: &[u8])
    requires { at + length src.now ≤ length s.old }
    ensures { s.new ≡ overwrite s.old at src.now }
{
    s[at..at + src.len()].copy_from_slice(src);
}

// Moves n bytes, at most 128, from index from to index to, whatever the overlap: all are read before one is written.
// A move of 128 is compiled to eight wide loads and stores.
fn move_block(s: &mut [u8], from: usize, to: usize, n: usize)
    requires { (n ≤ 128) × (from + n ≤ length s.old) × (to + n ≤ length s.old) }
    ensures { s.new ≡ overwrite s.old to (take n (drop from s.old)) }
{
    let mut block = [0u8; 128];
    block[..n].copy_from_slice(&s[from..from + n]);
    s[to..to + n].copy_from_slice(&block[..n]);
}

// Moves n bytes from index from down to index to, the first ones first.
// Not by `copy_within`: it takes 2.29 times the instructions of `memmove`, over the bar of 2.00, and blocks take 1.35.
pub fn move_down(s: &mut [u8], from: usize, to: usize, n: usize)
    requires { (to ≤ from) × (from + n ≤ length s.old) }
    ensures { s.new ≡ overwrite s.old to (take n (drop from s.old)) }
{
    let whole = n / 128;
    for k in 0..whole {
        move_block(s, from + 128 * k, to + 128 * k, 128);
    }
    let done = 128 * whole;
    move_block(s, from + done, to + done, n - done);
}

// Moves n bytes from index from up to index to, the last ones first.
// Not by `copy_within`: it takes 2.30 times the instructions of `memmove`, over the bar of 2.00, and blocks take 1.35.
pub fn move_up(s: &mut [u8], from: usize, to: usize, n: usize)
    requires { (from ≤ to) × (to + n ≤ length s.old) }
    ensures { s.new ≡ overwrite s.old to (take n (drop from s.old)) }
{
    let first = n % 128;
    for k in (0..n / 128).rev() {
        let at = first + 128 * k;
        move_block(s, from + at, to + at, 128);
    }
    move_block(s, from, to, first);
}
