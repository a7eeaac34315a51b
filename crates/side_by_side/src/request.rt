// What is asked of a register, and what it answers.
use register::entry::Entry;
use register::fault::AddFault;
use register::numbered::NumberedEntry;

// One call on a register, with its arguments.
#[derive(Clone, Copy)]
pub enum Request {
    Add(Entry),
    Length,
    Capacity,
    ClaimBound,
    Openings,
    Entry(u32),
    NextOfClaim { claim: u32, after: u32 },
    // no call of its own: it is counted by the calls for the next entry of the claim
    EntriesOfClaim(u32),
}

// What came back.
#[derive(Clone, Copy, PartialEq)]
pub enum Answer {
    Added(Result<u32, AddFault>),
    Count(u32),
    Entry(Option<Entry>),
    Numbered(Option<NumberedEntry>),
}
