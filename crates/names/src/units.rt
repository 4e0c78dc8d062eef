// The 16-bit little-endian units of bytes, one after the other.
ghost use Rattle.std.specs.Iterator.{YieldsFirst, item_count};
ghost use Rattle.names.specs.Name.{units};

// The units that are left.
#[derive(Drop)]
pub struct Units<'a>(pub &'a [u8]);

impl<'a> Iterator for Units<'a> {
    type Item = u16;

    ghost next_gives = { YieldsFirst (λ s. units s.0.now) };

    ghost remaining = { item_count (λ s. units s.0.now) };

    // Two bytes at a time, the low one first; an odd last byte is no unit.
    #[inline(always)]
    fn next(&mut self) -> Option<u16> {
        let (unit, rest) = self.0.split_first_chunk::<2>()?;
        self.0 = rest;
        Some(u16::from_le_bytes(*unit))
    }
}
