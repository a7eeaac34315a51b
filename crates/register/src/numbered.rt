// An entry found in a register.
use crate::entry::Entry;

// An entry with its number.
#[derive(Clone, Copy, PartialEq, Debug)]
pub struct NumberedEntry {
    pub number: u32,
    pub entry: Entry,
}
