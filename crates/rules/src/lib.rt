// The rules (RULES.md) as definitions; the code has only the kinds of answer that the definitions name.
#![tactic(auto)]

ghost use Rattle.std.specs.Prelude.{◌≡◌, Some, Err};
ghost use Rattle.rules.specs.Set.{ground_status, decision_status};
ghost use Rattle.rules.specs.Report.{ground_number};

use status::Status;

// Which of step 4's grounds speaks against a set: its size, its attributes, a lock.
#[derive(Clone, Copy, Debug, PartialEq, Eq)]
pub enum Ground {
    SizeGround,
    AttributeGround,
    LockGround,
}

// The number of a ground.
impl From<Ground> for u32 {
    ghost from_gives = { λ g n. n ≡ ground_number (Some g) };

    fn from(ground: Ground) -> u32 {
        match ground {
            Ground::SizeGround => 1,
            Ground::AttributeGround => 2,
            Ground::LockGround => 3,
        }
    }
}

// What is done where a set is granted: take the variable out, leave all as it is, or store it.
#[derive(Clone, Copy, Debug, PartialEq, Eq)]
pub enum Change {
    Delete,
    Keep,
    Store,
}

// Why a set is refused: with a status, by one of the other steps; or by a ground of step 4.
#[derive(Clone, Copy)]
pub enum Refusal {
    ByStatus(Status),
    ByGround(Ground),
}

// The status that a ground answers.
impl From<Ground> for Status {
    ghost from_gives = { λ g n. n ≡ ground_status g };

    fn from(ground: Ground) -> Status {
        match ground {
            Ground::SizeGround => Status::InvalidParameter,
            Ground::AttributeGround => Status::InvalidParameter,
            Ground::LockGround => Status::WriteProtected,
        }
    }
}

// The status of a refusal.
impl From<Refusal> for Status {
    ghost from_gives = { λ r n. n ≡ decision_status (Err r) };

    fn from(refusal: Refusal) -> Status {
        match refusal {
            Refusal::ByStatus(status) => status,
            Refusal::ByGround(ground) => Status::from(ground),
        }
    }
}

// What a set tells of step 4, beside its status (RULES.md, 10.10): the ground that spoke, if any, with the place of the chosen entry, counted from 0,
// and its rank; for attributes also how many required bits are missing, how many prohibited ones are set, and the lowest of them all. All else is 0.
#[derive(Clone, Copy)]
pub struct Report {
    pub ground: Option<Ground>,
    pub place: u32,
    pub rank: u32,
    pub missing: u32,
    pub prohibited: u32,
    pub lowest: u32,
}
