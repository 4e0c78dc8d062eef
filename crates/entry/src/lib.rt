// The packed policy entry.
#![tactic(auto)]

ghost use Rattle.std.specs.Prelude.{◌≡◌, true};
ghost use Rattle.entry.specs.Entry.{offset_to_name, header_ok, lock_ok, name_ok, well_formed, parse};

mod packed;

pub use packed::Packed;

// The trigger of the fourth lock rule: the value that locks, and where its namespace and its name stand in the entry's bytes.
// The name's last byte before its closing zero unit is at name_end - 1.
#[derive(Clone, Copy)]
pub struct Trigger {
    pub value: u8,
    pub namespace: usize,
    pub name: usize,
    pub name_end: usize,
}

// The lock rule of an entry (RULES.md, 5).
#[derive(Clone, Copy)]
pub enum LockRule {
    NoLock,
    LockNow,
    LockOnCreate,
    LockOnVarState(Trigger),
}

// What a packed entry says. Its name starts at offset_to_name and ends, with its zero unit, at size.
#[derive(Clone, Copy)]
pub struct Entry {
    pub size: usize,
    pub offset_to_name: usize,
    pub min_size: u32,
    pub max_size: u32,
    pub attributes_must_have: u32,
    pub attributes_cant_have: u32,
    pub lock: LockRule,
}

// A whole header, Version, Size, the order of the two sizes, and no common bit.
fn header_ok(e: &[u8]) -> bool
    ensures { result ≡ header_ok e.now }
{
    if e.len() < limits::ENTRY_HEADER {
        return false;
    }
    if slices::le32(e, limits::VERSION_AT) != limits::ENTRY_VERSION {
        return false;
    }
    if slices::le16(e, limits::SIZE_AT) as usize != e.len() {
        return false;
    }
    if slices::le32(e, limits::MAX_SIZE_AT) < slices::le32(e, limits::MIN_SIZE_AT) {
        return false;
    }
    if slices::le32(e, limits::MUST_HAVE_AT) & slices::le32(e, limits::CANT_HAVE_AT) != 0 {
        return false;
    }
    true
}

// LockPolicyType and OffsetToName; of type 3 the trigger's name, which has no '#': a part of the entry's bytes.
fn lock_ok(e: &[u8], offset: usize) -> bool
    requires { offset ≡ offset_to_name e.now }
    ensures { result ≡ lock_ok e.now }
{
    let kind = slices::byte(e, limits::LOCK_TYPE_AT);
    if kind <= 2 {
        return offset == limits::ENTRY_HEADER;
    }
    if kind != 3 {
        return false;
    }
    if offset < limits::TRIGGER_NAME_AT {
        return false;
    }
    if e.len() < offset {
        return false;
    }
    names::is_plain_terminated(&e[limits::TRIGGER_NAME_AT..offset])
}

// The entry's own name: empty, or a name with its zero unit.
fn name_ok(e: &[u8], offset: usize) -> bool
    requires { offset ≡ offset_to_name e.now }
    ensures { result ≡ name_ok e.now }
{
    offset <= e.len() && (offset == e.len() || names::is_terminated(&e[offset..]))
}

// Whether the bytes are a well-formed entry.
pub fn well_formed(e: &[u8]) -> bool
    ensures { result ≡ well_formed e.now }
{
    if !header_ok(e) {
        return false;
    }
    let offset = slices::get16(e, limits::OFFSET_TO_NAME_AT);
    lock_ok(e, offset) && name_ok(e, offset)
}

// A packed entry, checked and read.
#[tactic(auto, unfolding(crate::specs::Entry::parse))]
pub fn parse(e: &[u8]) -> Option<Entry>
    ensures { result ≡ parse e.now }
{
    Packed::new(e).map(|packed| packed.fields())
}
