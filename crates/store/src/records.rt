// The records of a store, one after the other. What is known to be a record is not tested again.
ghost use Rattle.std.specs.Prelude.{◌≡◌, true, ◌+◌, ◌≤◌, length, drop};
ghost use Rattle.std.specs.Iterator.{YieldsFirstBy, item_count};
ghost use Rattle.slices.specs.Bytes.{Bytes};
ghost use Rattle.store.specs.Record.{body_ok};
ghost use Rattle.store.specs.Store.{end_of, standing};
ghost use Rattle.store.specs.Parts.{HeaderFits};

// One record: where it begins in its store, and its bytes.
#[derive(Clone, Copy)]
pub struct Record<'a> {
    pub at: usize,
    pub bytes: &'a [u8],
    pub ghost fits: { HeaderFits bytes.now },
    pub ghost body: { body_ok bytes.now ≡ true },
}

// The records that are left of a store: the next begins at `at`, and the last one ends at `end`.
#[derive(Drop)]
pub struct Records<'a> {
    pub store: &'a [u8],
    pub nonvolatile: bool,
    pub at: usize,
    pub end: usize,
    pub ghost ends: { end ≡ end_of nonvolatile store.now },
    pub ghost within: { at ≤ length store.now },
    pub ghost behind: { end_of nonvolatile store.now ≡ at + end_of nonvolatile (drop at store.now) },
}

impl<'a> Records<'a> {
    // Those of a store whose records end at `end`.
    #[inline(always)]
    pub fn new(store: &'a [u8], nonvolatile: bool, end: usize) -> Records<'a>
        requires { end ≡ end_of nonvolatile store.now }
        ensures { standing result.nonvolatile result.at result.store.now ≡ standing nonvolatile 0 store.now }
    {
        Records {
            store,
            nonvolatile,
            at: 0,
            end,
        }
    }
}

impl<'a> Iterator for Records<'a> {
    type Item = Record<'a>;

    ghost next_gives = { YieldsFirstBy (λ r. (r.at, r.bytes.now)) (λ s. standing s.nonvolatile s.at s.store.now) };

    ghost remaining = { item_count (λ s. standing s.nonvolatile s.at s.store.now) };

    // The record that begins at `at`, as long as its header says.
    #[inline(always)]
    fn next(&mut self) -> Option<Record<'a>> {
        if self.end <= self.at {
            return None;
        }
        let at = self.at;
        let rest = &self.store[at..];
        let size = crate::record_size(slices::get32(rest, 8), slices::get32(rest, 12));
        self.at = at + size;
        Some(Record {
            at,
            bytes: &rest[..size],
        })
    }
}
