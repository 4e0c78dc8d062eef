// The statuses (RULES.md, 9.1), by the names of the UEFI specification: an EFI_STATUS without its error bit.
#![tactic(auto)]

ghost use Rattle.std.specs.Prelude.{◌≡◌};
ghost use Rattle.status.specs.Status.{status_number};

// Not a Result's error alone: the rules' `step` answers a status also where a call is done, each call's clause is an equation with it, and C is handed its
// number, 0 among them.
#[derive(Clone, Copy, PartialEq, Eq, Debug)]
pub enum Status {
    Success,
    InvalidParameter,
    Unsupported,
    BufferTooSmall,
    WriteProtected,
    OutOfResources,
    VolumeCorrupted,
    NotFound,
    AlreadyStarted,
}

// The number of a status.
impl From<Status> for u32 {
    ghost from_gives = { λ s n. n ≡ status_number s };

    fn from(status: Status) -> u32 {
        match status {
            Status::Success => 0,
            Status::InvalidParameter => 2,
            Status::Unsupported => 3,
            Status::BufferTooSmall => 5,
            Status::WriteProtected => 8,
            Status::OutOfResources => 9,
            Status::VolumeCorrupted => 10,
            Status::NotFound => 14,
            Status::AlreadyStarted => 20,
        }
    }
}
