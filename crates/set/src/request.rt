// What a set asks for, and the tests on it that need neither a store nor an entry (steps 1 to 3, and which way a set goes).
ghost use Rattle.std.specs.Prelude.{◌≡◌, length};
ghost use Rattle.limits.specs.Limits.{namespace_bytes};

use status::Status;

// A set's request: the variable's namespace and name, the attributes and the payload. The namespace has 16 bytes.
#[derive(Clone, Copy)]
pub struct Request<'a> {
    pub namespace: &'a [u8; 16],
    pub name: &'a [u8],
    pub attributes: u32,
    pub payload: &'a [u8],
    pub ghost sixteen: { length namespace.now ≡ namespace_bytes },
}

impl<'a> Request<'a> {
    ghost use Rattle.std.specs.Prelude.{false, MatchResult};
    ghost use Rattle.status.specs.Status.{is_success};
    ghost use Rattle.status.specs.declared.Status.TheVariants.{Success};
    ghost use Rattle.rules.specs.Set.{is_deletion, needs_bs, needs_runtime, request_status, is_empty_append};
    ghost use Rattle.set.specs.Asked.{asked};

    // Whether RT or append stands without BS.
    fn needs_bs(self) -> bool
        ensures { result ≡ needs_bs self.entry.attributes }
    {
        if store::has_bs(self.attributes) {
            return false;
        }
        if store::has_rt(self.attributes) {
            return true;
        }
        store::has_append(self.attributes)
    }

    // Whether it is a deletion (RULES.md, 10.9): without append, and with no payload or with neither of BS and RT.
    pub(crate) fn is_deletion(self) -> bool
        ensures { result ≡ is_deletion self.entry.attributes self.entry.payload.now }
    {
        if store::has_append(self.attributes) {
            return false;
        }
        if self.payload.len() == 0 {
            return true;
        }
        if store::has_bs(self.attributes) {
            return false;
        }
        !store::has_rt(self.attributes)
    }

    // Whether it is an append that joins nothing.
    pub(crate) fn is_empty_append(self) -> bool
        ensures { result ≡ is_empty_append self.entry.attributes self.entry.payload.now }
    {
        if store::has_append(self.attributes) {
            return self.payload.len() == 0;
        }
        false
    }

    // Whether after exit it is no deletion and lacks one of NV, BS and RT.
    fn needs_runtime(self, exited: bool) -> bool
        ensures { result ≡ needs_runtime exited self.entry.attributes self.entry.payload.now }
    {
        if !exited {
            return false;
        }
        if self.is_deletion() {
            return false;
        }
        let attributes = self.attributes;
        !(store::has_nv(attributes) & store::has_bs(attributes) & store::has_rt(attributes))
    }

    // INVALID_PARAMETER for a name or a payload that a set does not take; UNSUPPORTED for an attribute bit outside 0x47;
    // INVALID_PARAMETER for RT or append without BS; INVALID_PARAMETER, after exit, for a set that is no deletion without one of NV, BS and RT.
    pub fn check(self, exited: bool) -> Result<(), Status>
        ensures { MatchResult result (λ _. request_status exited (asked self.entry) ≡ Success)
            (λ s. (s ≡ request_status exited (asked self.entry)) × (is_success s ≡ false)) }
    {
        if !names::is_name(self.name) {
            return Err(Status::InvalidParameter);
        }
        if limits::MAX_PAYLOAD < self.payload.len() {
            return Err(Status::InvalidParameter);
        }
        if self.attributes & limits::KNOWN_ATTRIBUTES != self.attributes {
            return Err(Status::Unsupported);
        }
        if self.needs_bs() {
            return Err(Status::InvalidParameter);
        }
        if self.needs_runtime(exited) {
            return Err(Status::InvalidParameter);
        }
        Ok(())
    }
}
