// A packed entry that was found well formed.

ghost use Rattle.std.specs.Prelude.{◌≡◌, true, false, MatchOption};
ghost use Rattle.entry.specs.Entry.{well_formed};

use crate::{Entry, LockRule, Trigger};

// The bytes of a well-formed entry.
#[derive(Clone, Copy)]
pub struct Packed<'a> {
    pub bytes: &'a [u8],
    pub ghost formed: { well_formed bytes.now ≡ true },
}

impl<'a> Packed<'a> {
    ghost use Rattle.std.specs.Prelude.{length};
    ghost use Rattle.limits.specs.Limits.{namespace_bytes};
    ghost use Rattle.entry.specs.Entry.{namespace_of, name_of, lock_of, entry_of, rank, same_target};

    // The entry that the bytes are, if they are well formed.
    pub fn new(bytes: &'a [u8]) -> Option<Packed<'a>>
        ensures { MatchOption result (well_formed bytes.now ≡ false) (λ e. e.bytes.now ≡ bytes.now) }
    {
        if !crate::well_formed(bytes) {
            return None;
        }
        Some(Packed { bytes })
    }

    // The namespace of the variables that it is for.
    pub fn namespace(self) -> &'a [u8]
        ensures is { result.now ≡ namespace_of self.entry.bytes.now }
        ensures long { length result.now ≡ namespace_bytes }
    {
        &self.bytes[limits::NAMESPACE_AT..limits::MIN_SIZE_AT]
    }

    // The bytes of its name without its zero unit; of an empty name, none.
    pub fn name(self) -> &'a [u8]
        ensures { result.now ≡ name_of self.entry.bytes.now }
    {
        let start = slices::get16(self.bytes, limits::OFFSET_TO_NAME_AT);
        let end = self.bytes.len();
        if start == end {
            return &self.bytes[..0];
        }
        &self.bytes[start..end - 2]
    }

    // Its lock rule.
    pub fn lock(self) -> LockRule
        ensures { result ≡ lock_of self.entry.bytes.now }
    {
        match slices::byte(self.bytes, limits::LOCK_TYPE_AT) {
            0 => LockRule::NoLock,
            1 => LockRule::LockNow,
            2 => LockRule::LockOnCreate,
            _ => LockRule::LockOnVarState(Trigger {
                value: slices::byte(self.bytes, limits::TRIGGER_VALUE_AT),
                namespace: limits::TRIGGER_NAMESPACE_AT,
                name: limits::TRIGGER_NAME_AT,
                name_end: slices::le16(self.bytes, limits::OFFSET_TO_NAME_AT) as usize - 2,
            }),
        }
    }

    // Its fields. (In line: a set asks some of them, a registration whether there are any.)
    #[inline(always)]
    pub fn fields(self) -> Entry
        ensures { result ≡ entry_of self.entry.bytes.now }
    {
        let lock = self.lock();
        Entry {
            size: self.bytes.len(),
            offset_to_name: slices::le16(self.bytes, limits::OFFSET_TO_NAME_AT) as usize,
            min_size: slices::le32(self.bytes, limits::MIN_SIZE_AT),
            max_size: slices::le32(self.bytes, limits::MAX_SIZE_AT),
            attributes_must_have: slices::le32(self.bytes, limits::MUST_HAVE_AT),
            attributes_cant_have: slices::le32(self.bytes, limits::CANT_HAVE_AT),
            lock,
        }
    }

    // Its rank.
    pub fn rank(self) -> usize
        ensures { result ≡ rank self.entry.bytes.now }
    {
        let name = self.name();
        if name.is_empty() {
            return limits::WHOLE_NAMESPACE_RANK;
        }
        names::wildcards(name)
    }

    // Whether two entries have the same namespace and the same name: the names first, since most entries share a namespace.
    pub fn same_target(self, other: Packed<'_>) -> bool
        ensures { result ≡ same_target self.entry.bytes.now other.entry.bytes.now }
    {
        names::same_name(self.name(), other.name())
            && names::same_namespace(self.namespace(), other.namespace())
    }
}
