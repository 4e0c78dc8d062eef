// A store whose records were gone through.
ghost use Rattle.std.specs.Prelude.{◌≡◌};
ghost use Rattle.store.specs.Store.{end_of};

// The store, which of the two it is, and where its records end.
#[derive(Clone, Copy)]
pub struct Walked<'a> {
    pub s: &'a [u8],
    pub nonvolatile: bool,
    pub end: usize,
    pub ghost ended: { end ≡ end_of nonvolatile s.now },
}

impl<'a> Walked<'a> {
    ghost use Rattle.slices.specs.Chunks.{contains};
    ghost use Rattle.store.specs.Parts.{variable};
    ghost use Rattle.store.specs.Record.{is_of};
    ghost use Rattle.store.specs.Store.{records_of};

    // Whether the variable has a record there.
    pub fn has(self, namespace: &[u8], name: &[u8]) -> bool
        ensures { result ≡ contains (is_of (variable namespace.now name.now)) (records_of self.entry.nonvolatile self.entry.s.now) }
    {
        store::find_within(self.s, self.nonvolatile, self.end, namespace, name).is_some()
    }
}
