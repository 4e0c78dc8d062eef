// The entries of a policy record or a dump that was found valid.

ghost use Rattle.std.specs.Prelude.{◌≡◌, length};
ghost use Rattle.policy.specs.Policy.{entries_of};
ghost use Rattle.policy.specs.Walk.{EntryEnds};

use crate::ENTRIES;
use entry::Packed;

// The bytes, how many entries they begin with, and where each of these ends.
#[derive(Clone, Copy)]
pub struct Entries<'a> {
    pub bytes: &'a [u8],
    pub count: usize,
    pub ends: &'a [u16; ENTRIES],
    pub ghost counted: { count ≡ length (entries_of bytes.now) },
    pub ghost noted: { EntryEnds ends.now bytes.now },
}

impl<'a> Entries<'a> {
    ghost use Rattle.std.specs.Prelude.{[], get_or, ◌≤◌, ◌<◌};
    ghost use Rattle.policy.specs.Walk.{start_of};

    // The first byte of the entry at index, which is the end of the one before it.
    pub fn start(self, index: usize) -> usize
        requires { index ≤ self.count }
        ensures { result ≡ start_of self.entry.bytes.now index }
    {
        if index == 0 {
            return 0;
        }
        self.ends[index - 1] as usize
    }

    // The entry at index.
    pub fn get(self, index: usize) -> Packed<'a>
        requires { index < self.count }
        ensures { result.bytes.now ≡ get_or (entries_of self.entry.bytes.now) index [] }
    {
        let start = self.start(index);
        let end = self.ends[index] as usize;
        Packed {
            bytes: &self.bytes[start..end],
        }
    }
}
