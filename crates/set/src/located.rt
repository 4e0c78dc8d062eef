// A request over two sound stores, and steps 5 to 9: what is decided of it by what is stored of its variable.
// `exited`, and `enabled` of the report, are handed on alone: each step asks one switch, and `Switches` would be no plainer (`is_shown(switches, ..)` reads one of four).
ghost use Rattle.std.specs.Prelude.{◌≡◌};
ghost use Rattle.names.specs.Name.{variable};
ghost use Rattle.stores.specs.Place.{place_in};

use crate::{Known, Request};
use rules::{Change, Refusal};
use status::Status;
use stores::{Place, Stores};

// A request, the stores that it is lent, and where its variable stands in them.
#[derive(Clone, Copy)]
pub struct Located<'a> {
    pub request: Request<'a>,
    pub stores: Stores<'a>,
    pub place: Place,
    pub ghost stands: { place ≡ place_in stores.nv.now stores.vol.now (variable request.namespace.now request.name.now) },
}

impl<'a> Located<'a> {
    ghost use Rattle.std.specs.Prelude.{true, false, ◌≤◌, length};
    ghost use Rattle.limits.specs.Limits.{max_payload};
    ghost use Rattle.slices.specs.Bytes.{Bytes};
    ghost use Rattle.names.specs.Name.{named};
    ghost use Rattle.store.specs.Record.{has_nv, encode_record};
    ghost use Rattle.store.specs.Store.{has_room};
    ghost use Rattle.rules.specs.Set.{length_after, delete_decision, other_attributes, stored_attributes, store_of, store_decision, write_decision};
    ghost use Rattle.set.specs.Asked.{asked};
    ghost use Rattle.set.specs.Known.{Knows, stored};

    // Looks for the request's variable.
    pub fn new(request: Request<'a>, stores: Stores<'a>) -> Located<'a>
        ensures { (result.request ≡ request.entry) × (result.stores ≡ stores.entry) }
    {
        let namespace = request.namespace;
        let name = request.name;
        Located {
            request,
            stores,
            place: stores.locate(namespace, name),
        }
    }

    // What step 10 needs of it, once the stores are lent to be written.
    pub fn known(self) -> Known
        ensures { Knows result self.entry.stores.nv.now self.entry.stores.vol.now (asked self.entry.request).variable }
    {
        Known {
            ends: self.stores.ends,
            place: self.place,
        }
    }

    // How long the variable's payload would be afterwards: an append joins what is stored.
    pub(crate) fn length_after(self) -> usize
        ensures { result ≡ length_after (stored self.entry) (asked self.entry.request) }
    {
        let payload = self.request.payload;
        if store::has_append(self.request.attributes) {
            let stored = self.stores.payload_at(self.place);
            return stored.len() + payload.len();
        }
        payload.len()
    }

    // Step 5, of a deletion. NOT_FOUND where the variable is absent or, after exit, has no RT; WRITE_PROTECTED, after exit, where it is volatile.
    fn decide_delete(self, exited: bool) -> Result<Change, Refusal>
        ensures { result ≡ delete_decision exited (stored self.entry) }
    {
        if !crate::is_shown(exited, self.stores.nv, self.stores.vol, self.place) {
            return Err(Refusal::ByStatus(Status::NotFound));
        }
        if crate::exit_protects(exited, self.stores.nv, self.stores.vol, self.place) {
            return Err(Refusal::ByStatus(Status::WriteProtected));
        }
        Ok(Change::Delete)
    }

    // Whether the store that the attributes name has room for the variable's record with a payload of n bytes. The variable does not
    // stand in the other store.
    fn has_room(self, n: usize) -> bool
        requires { (named (asked self.request).variable ≡ true) × (other_attributes (stored self) self.request.attributes ≡ false) × (n ≤ max_payload) }
        ensures { (p : Bytes) → length p ≡ n
            → result ≡ has_room (has_nv self.entry.request.attributes) (store_of self.entry.request.attributes self.entry.stores.nv.now self.entry.stores.vol.now)
            (asked self.entry.request).variable
            (encode_record (stored_attributes self.entry.request.attributes) (asked self.entry.request).variable p) }
    {
        let found = self.place.found;
        let namespace = self.request.namespace;
        let name = self.request.name;
        let ends = self.stores.ends;
        if store::has_nv(self.request.attributes) {
            let nv = self.stores.nv;
            return store::has_room(nv, true, ends.nv, found, namespace, name, n);
        }
        let vol = self.stores.vol;
        store::has_room(vol, false, ends.vol, found, namespace, name, n)
    }

    // Steps 8 and 9. OUT_OF_RESOURCES for a payload that is then longer than 1,024 bytes, or where the store has no room.
    fn decide_store(self) -> Result<Change, Refusal>
        requires { (named (asked self.request).variable ≡ true) × (other_attributes (stored self) self.request.attributes ≡ false) }
        ensures { result ≡ store_decision self.entry.stores.nv.now self.entry.stores.vol.now (stored self.entry) (asked self.entry.request) }
    {
        let n = self.length_after();
        if limits::MAX_PAYLOAD < n {
            return Err(Refusal::ByStatus(Status::OutOfResources));
        }
        if self.has_room(n) {
            return Ok(Change::Store);
        }
        Err(Refusal::ByStatus(Status::OutOfResources))
    }

    // Steps 5 to 9. A deletion ends at step 5; INVALID_PARAMETER where the variable is stored with a different NV, BS or RT.
    pub(crate) fn decide_write(self, exited: bool) -> Result<Change, Refusal>
        requires { named (asked self.request).variable ≡ true }
        ensures { result ≡ write_decision exited self.entry.stores.nv.now self.entry.stores.vol.now (stored self.entry) (asked self.entry.request) }
    {
        if self.request.is_deletion() {
            return self.decide_delete(exited);
        }
        let found = stores::is_somewhere(self.place);
        if found & (self.stores.attributes_at(self.place) != self.request.attributes % 8) {
            return Err(Refusal::ByStatus(Status::InvalidParameter));
        }
        if self.request.is_empty_append() {
            return Ok(Change::Keep);
        }
        self.decide_store()
    }
}
