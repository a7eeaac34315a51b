// What is asked of a cube.
use register::entry::{Correction, Terms};
use register::kind::MovementKind;
use values::claim_days::ClaimDays;
use values::day::Day;

// A payment or a change of the case reserve.
#[derive(Clone, Copy)]
pub struct Movement {
    pub kind: MovementKind,
    pub claim: u32,
    pub terms: Terms,
}

// New claim days for a claim.
#[derive(Clone, Copy)]
pub struct NewDays {
    pub claim: u32,
    pub claim_days: ClaimDays,
}

// What is to be done; a number is that of a movement.
#[derive(Clone, Copy)]
pub enum Action {
    Open(ClaimDays),
    Move(Movement),
    // draft and post
    Correct(Correction),
    // draft and drop
    Abandon(u32),
    Void(u32),
    // draft, void the movement under draft, and drop
    VoidDrafted(u32),
    Redate(NewDays),
}

// An action, and the day on which it is to be booked.
#[derive(Clone, Copy)]
pub struct Request {
    pub booked: Day,
    pub action: Action,
}
