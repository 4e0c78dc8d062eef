// The limits (RULES.md, 11), once for the code; `specs/Limits.antt` has the same for the rules.
#![tactic(auto)]

// The most bytes of a name without its closing zero unit: 64 units.
pub const MAX_NAME_BYTES: usize = 128;

// NameSize of a record counts the closing zero unit: 4 to 130.
pub const MAX_NAME_SIZE: usize = 130;

// The rank of an entry for a whole namespace: behind that of 64 '#'.
pub const WHOLE_NAMESPACE_RANK: usize = 65;

// Behind every rank: no entry.
pub const NO_RANK: usize = 66;

// The bytes of a namespace.
pub const NAMESPACE_BYTES: usize = 16;

// The Version of an entry.
pub const ENTRY_VERSION: u32 = 0x10000;

// The byte at which each field of an entry begins. The namespace ends where MinSize begins.
pub const VERSION_AT: usize = 0;

pub const SIZE_AT: usize = 4;

pub const OFFSET_TO_NAME_AT: usize = 6;

pub const NAMESPACE_AT: usize = 8;

pub const MIN_SIZE_AT: usize = 24;

pub const MAX_SIZE_AT: usize = 28;

pub const MUST_HAVE_AT: usize = 32;

pub const CANT_HAVE_AT: usize = 36;

pub const LOCK_TYPE_AT: usize = 40;

// The bytes of an entry before what its lock type and its name add.
pub const ENTRY_HEADER: usize = 44;

// The fields that lock type 3 adds. The trigger's namespace ends where its Value begins; its name ends, with its zero unit, at OffsetToName.
pub const TRIGGER_NAMESPACE_AT: usize = 44;

pub const TRIGGER_VALUE_AT: usize = 60;

pub const TRIGGER_NAME_AT: usize = 62;

// The most entries that an engine holds.
pub const MAX_ENTRIES: usize = 128;

// The length of the policy record, which is the most that the Sizes of its entries sum to.
pub const POLICY_BYTES: usize = 16384;

// The most bytes of a piece in which a dump arrives.
pub const MAX_PIECE: usize = 4096;

// The most links from a settled variable to the last trigger.
pub const MAX_LINKS: usize = 16;

// The attribute bits that a request may have.
pub const KNOWN_ATTRIBUTES: u32 = 0x47;

// The most bytes of a payload.
pub const MAX_PAYLOAD: usize = 1024;

// The bytes of a record before its name, and the state of one that is complete.
pub const RECORD_HEADER: usize = 32;

pub const RECORD_ADDED: u8 = 0x3F;

// The most bytes of a store.
pub const MAX_STORE: usize = 32768;
