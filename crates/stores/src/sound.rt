// Two lent stores that were found sound, with where their records end.
ghost use Rattle.std.specs.Prelude.{◌≡◌, true, false, MatchOption};
ghost use Rattle.stores.specs.Pair.{sound, ends_of};

use crate::{Ends, Place};
use store::Bounds;

// A sound pair of stores.
#[derive(Clone, Copy)]
pub struct Stores<'a> {
    pub nv: &'a [u8],
    pub vol: &'a [u8],
    pub ends: Ends,
    pub ghost checked: { sound nv.now vol.now ≡ true },
    pub ghost ended: { ends ≡ ends_of nv.now vol.now },
}

impl<'a> Stores<'a> {
    ghost use Rattle.names.specs.Name.{variable};
    ghost use Rattle.stores.specs.Pair.{lookup};
    ghost use Rattle.stores.specs.Place.{place_in, record_at, attributes_at, payload_at, bounds_at, Within};

    // The pair, if it is sound.
    pub fn new(nv: &'a [u8], vol: &'a [u8]) -> Option<Stores<'a>>
        ensures { MatchOption result (sound nv.now vol.now ≡ false) (λ s. (s.nv ≡ nv.entry) × (s.vol ≡ vol.entry)) }
    {
        let ends = crate::check(nv, vol)?;
        Some(Stores { nv, vol, ends })
    }

    // Where the variable stands.
    pub fn locate(self, namespace: &[u8], name: &[u8]) -> Place
        ensures is { result ≡ place_in self.entry.nv.now self.entry.vol.now (variable namespace.now name.now) }
        ensures looked_up { record_at self.entry.nv.now self.entry.vol.now result ≡ lookup self.entry.nv.now self.entry.vol.now (variable namespace.now name.now) }
        ensures within { Within self.entry.nv.now self.entry.vol.now result }
    {
        crate::locate(self.nv, self.vol, self.ends, namespace, name)
    }

    // The attributes of the record at a place; 0 where there is none.
    pub fn attributes_at(self, place: Place) -> u32
        requires { Within self.nv.now self.vol.now place }
        ensures { result ≡ attributes_at self.entry.nv.now self.entry.vol.now place }
    {
        crate::attributes_at(self.nv, self.vol, place)
    }

    // Where the payload of the record at a place stands in the store that holds it; 0 and 0 where there is none.
    pub fn payload_bounds(self, place: Place) -> Bounds
        requires { Within self.nv.now self.vol.now place }
        ensures { result ≡ bounds_at self.entry.nv.now self.entry.vol.now place }
    {
        crate::payload_bounds(self.nv, self.vol, place)
    }

    // The payload of the record at a place, as a part of the store that holds it; an empty part where there is none.
    pub fn payload_at(self, place: Place) -> &'a [u8]
        requires { Within self.nv.now self.vol.now place }
        ensures { result.now ≡ payload_at self.entry.nv.now self.entry.vol.now place }
    {
        crate::payload_at(self.nv, self.vol, place)
    }
}
