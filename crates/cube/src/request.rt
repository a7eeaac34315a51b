// Rows of calls as data: what is asked, and what is answered.
use crate::fault::CallFault;
use crate::ticket::Opened;
use register::entry::Terms;
use register::kind::MovementKind;
use values::claim_days::ClaimDays;
use values::day::Day;

// One call with its arguments. A post and a drop name their ticket by its place in a drawer of tickets, counted from 0.
#[derive(Clone, Copy)]
pub enum Request {
    Open {
        booked: Day,
        claim_days: ClaimDays,
    },
    Movement {
        kind: MovementKind,
        booked: Day,
        claim: u32,
        terms: Terms,
    },
    Void {
        booked: Day,
        number: u32,
    },
    Redate {
        booked: Day,
        claim: u32,
        claim_days: ClaimDays,
    },
    Draft {
        number: u32,
    },
    // the day first: with the place before it a request would take eight bytes more
    Post {
        booked: Day,
        place: usize,
        terms: Terms,
    },
    Drop {
        place: usize,
    },
    Query {
        known: Day,
        valued: Day,
    },
}

// What a request was answered.
#[derive(PartialEq, Clone, Debug, Drop)]
pub enum Answer {
    // a claim was opened
    Opened(Opened),
    // an entry was booked, with this number
    Booked(u32),
    // a draft was opened; its ticket lies at the end of the drawer
    Drafted,
    // the draft was closed; its ticket is spent
    Dropped,
    // a triangle was drawn
    Drawn(Vec<i64>),
    // the call was refused
    Refused(CallFault),
    // the drawer has no ticket at the place; no call was made
    NoTicket,
}

// Memory ran out: the answers to the requests that were served until then. Nothing was done for the others.
#[derive(PartialEq, Clone, Debug, Drop)]
pub struct Stopped {
    pub answers: Vec<Answer>,
}
