// What looks variables up in two sound stores.
ghost use Rattle.std.specs.Prelude.{◌≡◌};
ghost use Rattle.std.proofs.Math.Option.{Option};
ghost use Rattle.slices.specs.Bytes.{Bytes};
ghost use Rattle.names.specs.Name.{Variable, variable};
ghost use Rattle.store.specs.Parts.{payload_in};
ghost use Rattle.stores.specs.Pair.{lookup};

use crate::Stores;

// The stores by themselves, or with what makes a search short.
pub trait Lookup {
    // The record of each variable.
    ghost found: { Self → Variable → Option Bytes };

    // The payload of the variable's record; an empty part where there is none.
    fn payload_of(&self, namespace: &[u8], name: &[u8]) -> &[u8]
        ensures { result.now ≡ payload_in (found self.now (variable namespace.now name.now)) };
}

impl<'a> Lookup for Stores<'a> {
    ghost found = { λ s. lookup s.nv.now s.vol.now };

    fn payload_of(&self, namespace: &[u8], name: &[u8]) -> &[u8] {
        self.payload_at(self.locate(namespace, name))
    }
}
