// Why a call on a cube is refused.
ghost use Rattle.std.specs.Prelude.{◌≡◌, Some};
ghost use Rattle.cube.specs.Faults.{call_fault_number};
ghost use Rattle.cube.specs.Texts.{call_fault_text, query_fault_text};
ghost use Rattle.cube.specs.declared.fault.QueryFault.TheVariants.{OutOfMemory, Refused};

use std::alloc::AllocError;
use std::error::Error;
use std::fmt;

// The reasons, each with its refusal number; a refused call alters nothing.
#[derive(Clone, Copy, PartialEq, Debug)]
pub enum CallFault {
    // the sheet is not as long as the cohort asks
    SheetLength = 4,
    // the register has entries already
    RegisterNotEmpty = 5,
    // the register takes no entry or no claim
    NoRoom = 6,
    // the booking day is before the last entry's
    BookedEarlier = 7,
    // the register is full
    RegisterFull = 8,
    // as many claims are opened as the register takes
    ClaimsUsedUp = 9,
    // not inception ≤ occurrence ≤ report
    DaysOutOfOrder = 10,
    // the day is after the booking day
    AfterBooking = 11,
    // no such claim was opened
    NoSuchClaim = 12,
    // the effective day is before the claim's report day
    BeforeReport = 13,
    // there is no such entry
    NoSuchEntry = 14,
    // the entry is no movement
    NotAMovement = 15,
    // the movement no longer stands
    NotStanding = 16,
    // a draft is open on the entry, or, for a new draft, on any
    UnderDraft = 17,
    // the ticket is not that of the open draft
    NotTheDraft = 18,
    // a standing movement of the claim has an effective day before the new report day
    MovementBeforeReport = 19,
}

// Why a query gives no triangle; the answer sheet is then as it was.
#[derive(Clone, Copy, PartialEq, Debug)]
pub enum QueryFault {
    Refused(CallFault),
    OutOfMemory(AllocError),
}

impl CallFault {
    // The refusal number.
    pub fn number(self) -> u32
        ensures { result ≡ call_fault_number self }
    {
        self as u32
    }
}

impl fmt::Display for CallFault {
    ghost output = { λ fault. Some (call_fault_text fault) };

    fn fmt<W: fmt::Write>(&self, f: &mut fmt::Formatter<W>) -> fmt::Result {
        f.write_str(match self {
            CallFault::SheetLength => "the sheet has another length",
            CallFault::RegisterNotEmpty => "the register has entries already",
            CallFault::NoRoom => "the register takes no entry or no claim",
            CallFault::BookedEarlier => "the last entry has a later booking day",
            CallFault::RegisterFull => "the register is full",
            CallFault::ClaimsUsedUp => "the register takes no further claim",
            CallFault::DaysOutOfOrder => "inception, occurrence and report are not in this order",
            CallFault::AfterBooking => "the day is after the booking day",
            CallFault::NoSuchClaim => "no such claim was opened",
            CallFault::BeforeReport => "the effective day is before the claim's report day",
            CallFault::NoSuchEntry => "there is no such entry",
            CallFault::NotAMovement => "the entry is no payment, reserve change or correction",
            CallFault::NotStanding => "the entry was corrected or voided",
            CallFault::UnderDraft => "a draft is open on the entry, or on another one",
            CallFault::NotTheDraft => "the ticket is not that of the open draft",
            CallFault::MovementBeforeReport => "a movement is before the new report day",
        })
    }
}

impl Error for CallFault {}

impl From<CallFault> for QueryFault {
    ghost from_gives = { λ fault e. e ≡ Refused fault };

    fn from(fault: CallFault) -> QueryFault {
        QueryFault::Refused(fault)
    }
}

impl From<AllocError> for QueryFault {
    ghost from_gives = { λ error e. e ≡ OutOfMemory error };

    fn from(error: AllocError) -> QueryFault {
        QueryFault::OutOfMemory(error)
    }
}

impl fmt::Display for QueryFault {
    ghost output = { λ fault. Some (query_fault_text fault) };

    fn fmt<W: fmt::Write>(&self, f: &mut fmt::Formatter<W>) -> fmt::Result {
        match self {
            QueryFault::Refused(fault) => write!(f, "{fault}"),
            QueryFault::OutOfMemory(_) => write!(f, "out of memory"),
        }
    }
}

impl Error for QueryFault {}
