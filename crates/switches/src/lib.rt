// The engine's switches: enabled, locked, disabling allowed, exited; and the bytes in which a caller keeps them.
#![tactic(auto)]

ghost use Rattle.std.specs.Prelude.{◌≡◌};
ghost use Rattle.status.specs.declared.Status.TheVariants.{Success};
ghost use Rattle.switches.specs.Switches.{lock_answer, disable_answer, exit_answer};
ghost use Rattle.switches.specs.SwitchBytes.{gives_leave, switches_of, bytes_of, locked_bytes, disabled_bytes, exited_bytes, bytes_answer};

use status::Status;

#[derive(Clone, Copy)]
pub struct Switches {
    pub enabled: bool,
    pub locked: bool,
    pub disabling_allowed: bool,
    pub exited: bool,
}

// What a call on the switches answers: its status, and the switches as it leaves or hands them back.
// No Result: what may not change, the calls' clauses name the switches beside a refusal too (`hand_back` of a refused start; `lock_answer` and its like).
#[derive(Clone, Copy)]
pub struct SwitchAnswer {
    pub status: Status,
    pub switches: Switches,
}

impl SwitchAnswer {
    // A call that is done, and the switches that it leaves.
    fn done(switches: Switches) -> SwitchAnswer
        ensures { result ≡ record { status = Success; switches = switches } }
    {
        SwitchAnswer {
            status: Status::Success,
            switches,
        }
    }

    // A call that is refused hands the switches back as they were.
    fn refused(status: Status, switches: Switches) -> SwitchAnswer
        ensures { result ≡ record { status = status; switches = switches } }
    {
        SwitchAnswer { status, switches }
    }
}

// Locks the engine: no entry is registered until the next power-on or restart.
// UNSUPPORTED after exit; WRITE_PROTECTED where it is locked already.
pub fn lock(switches: Switches) -> SwitchAnswer
    ensures { result ≡ lock_answer switches }
{
    if switches.exited {
        return SwitchAnswer::refused(Status::Unsupported, switches);
    }
    if switches.locked {
        return SwitchAnswer::refused(Status::WriteProtected, switches);
    }
    SwitchAnswer::done(Switches {
        locked: true,
        ..switches
    })
}

// Disables the engine: sets are no longer held to the entries, until the next power-on or restart.
// UNSUPPORTED after exit; ALREADY_STARTED where it is disabled; WRITE_PROTECTED where it is locked or disabling is not allowed.
pub fn disable(switches: Switches) -> SwitchAnswer
    ensures { result ≡ disable_answer switches }
{
    if switches.exited {
        return SwitchAnswer::refused(Status::Unsupported, switches);
    }
    if !switches.enabled {
        return SwitchAnswer::refused(Status::AlreadyStarted, switches);
    }
    if switches.locked || !switches.disabling_allowed {
        return SwitchAnswer::refused(Status::WriteProtected, switches);
    }
    SwitchAnswer::done(Switches {
        enabled: false,
        ..switches
    })
}

// Tells the engine that the operating system starts: until the next power-on or restart, what RULES.md, 8.1, says of exited.
// UNSUPPORTED where it has exited already.
pub fn exit(switches: Switches) -> SwitchAnswer
    ensures { result ≡ exit_answer switches }
{
    if switches.exited {
        return SwitchAnswer::refused(Status::Unsupported, switches);
    }
    SwitchAnswer::done(Switches {
        exited: true,
        ..switches
    })
}

// The switches as a caller keeps and lends them. Each of the 256 values of each byte has a meaning.
#[repr(C)]
#[derive(Clone, Copy)]
pub struct SwitchBytes {
    pub enabled: u8,
    pub locked: u8,
    pub disabling_allowed: u8,
    pub exited: u8,
}

// What a call on lent bytes answers: the number of its status, and the bytes to be written if it is granted.
#[derive(Clone, Copy)]
pub struct BytesAnswer {
    pub status: u32,
    pub written: Option<SwitchBytes>,
}

// Whether a byte gives leave to disable: 1 does, and no other.
// No From: a conversion would hold of every byte, and those of the other switches are read differently; that is no plainer.
pub fn gives_leave(byte: u8) -> bool
    ensures { result ≡ gives_leave byte }
{
    byte == 1
}

// What the bytes say: `enabled`, `locked` and `exited` are set by any byte but 0, leave to disable is given by 1 alone.
impl From<SwitchBytes> for Switches {
    ghost from_gives = { λ b s. s ≡ switches_of b };

    fn from(bytes: SwitchBytes) -> Switches {
        Switches {
            enabled: bytes.enabled != 0,
            locked: bytes.locked != 0,
            disabling_allowed: gives_leave(bytes.disabling_allowed),
            exited: bytes.exited != 0,
        }
    }
}

// The bytes of switches that are handed back: 1 if set, 0 if clear.
impl From<Switches> for SwitchBytes {
    ghost from_gives = { λ s b. b ≡ bytes_of s };

    fn from(switches: Switches) -> SwitchBytes {
        SwitchBytes {
            enabled: u8::from(switches.enabled),
            locked: u8::from(switches.locked),
            disabling_allowed: u8::from(switches.disabling_allowed),
            exited: u8::from(switches.exited),
        }
    }
}

// The bytes with `locked` set.
pub fn locked_bytes(bytes: SwitchBytes) -> SwitchBytes
    ensures { result ≡ locked_bytes bytes }
{
    SwitchBytes { locked: 1, ..bytes }
}

// The bytes with `enabled` clear.
pub fn disabled_bytes(bytes: SwitchBytes) -> SwitchBytes
    ensures { result ≡ disabled_bytes bytes }
{
    SwitchBytes {
        enabled: 0,
        ..bytes
    }
}

// The bytes with `exited` set.
pub fn exited_bytes(bytes: SwitchBytes) -> SwitchBytes
    ensures { result ≡ exited_bytes bytes }
{
    SwitchBytes { exited: 1, ..bytes }
}

// The answer of a call on lent bytes: they are to be written only beside SUCCESS.
pub fn bytes_answer(status: Status, new: SwitchBytes) -> BytesAnswer
    ensures { result ≡ bytes_answer status new }
{
    BytesAnswer {
        status: u32::from(status),
        written: (status == Status::Success).then_some(new),
    }
}
