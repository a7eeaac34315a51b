// What calls hand out.

// A half-made correction: the right to post or to drop the draft of one entry of one cube. It cannot be copied or let go, so
// that every draft is ended by a post or a drop.
pub struct Ticket {
    pub(crate) mark: u32,
    pub(crate) entry: u32,
}

// The numbers of a new claim: of the entry that opens it, and its own.
#[derive(Clone, Copy, PartialEq, Debug)]
pub struct Opened {
    pub entry: u32,
    pub claim: u32,
}
