// Two sound stores with notes of where their records begin.
ghost use Rattle.std.specs.Prelude.{◌≡◌, true, false, length};
ghost use Rattle.noted.specs.Noted.{notes, Noted};

use crate::NOTES;
use stores::{Lookup, Place, Stores};

// The stores, and the notes of each.
#[derive(Clone, Copy)]
pub struct Notes<'a> {
    pub stores: Stores<'a>,
    pub in_nv: &'a [u16; NOTES],
    pub in_vol: &'a [u16; NOTES],
    pub ghost long_nv: { length in_nv.now ≡ notes },
    pub ghost long_vol: { length in_vol.now ≡ notes },
    pub ghost noted_nv: { ∥ Noted true stores.nv.now in_nv.now ∥₁ },
    pub ghost noted_vol: { ∥ Noted false stores.vol.now in_vol.now ∥₁ },
}

impl<'a> Notes<'a> {
    ghost use Rattle.names.specs.Name.{variable};
    ghost use Rattle.stores.specs.Pair.{lookup};
    ghost use Rattle.stores.specs.Place.{record_at, Within};
    ghost use Rattle.std.specs.Prelude.{replicate};

    // Notes where the records of both begin, in tables that note none.
    pub fn new(
        stores: Stores<'a>,
        in_nv: &'a mut [u16; NOTES],
        in_vol: &'a mut [u16; NOTES],
    ) -> Notes<'a>
        requires { (in_nv.old ≡ replicate notes 0) × (in_vol.old ≡ replicate notes 0) }
        ensures { result.stores ≡ stores.entry }
    {
        crate::note(stores.nv, true, stores.ends.nv, in_nv);
        crate::note(stores.vol, false, stores.ends.vol, in_vol);
        Notes {
            stores,
            in_nv,
            in_vol,
        }
    }

    // Where the variable's record stands, in whichever store: where the notes lead, or by a search.
    pub fn locate(&self, namespace: &[u8], name: &[u8]) -> Place
        ensures is { record_at self.now.stores.nv.now self.now.stores.vol.now result ≡ lookup self.now.stores.nv.now self.now.stores.vol.now (variable namespace.now name.now) }
        ensures within { Within self.now.stores.nv.now self.now.stores.vol.now result }
    {
        let k = crate::key(name);
        let first = crate::find(self.stores.nv, true, self.in_nv, k, namespace, name);
        if first.is_some() {
            return Place {
                nonvolatile: true,
                found: first,
            };
        }
        let second = crate::find(self.stores.vol, false, self.in_vol, k, namespace, name);
        if second.is_some() {
            return Place {
                nonvolatile: false,
                found: second,
            };
        }
        self.stores.locate(namespace, name)
    }
}

impl<'a> Lookup for Notes<'a> {
    ghost use Rattle.stores.specs.Pair.{lookup};

    ghost found = { λ n. lookup n.stores.nv.now n.stores.vol.now };

    fn payload_of(&self, namespace: &[u8], name: &[u8]) -> &[u8] {
        self.stores.payload_at(self.locate(namespace, name))
    }
}
