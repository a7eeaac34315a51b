// Making a flat log, and its answers.
ghost use Rattle.std.specs.Prelude.{◌≡◌, length, ◌==◌};
ghost use Rattle.std.specs.List.{position};
ghost use Rattle.register.specs.Flat.{flat_meaning, flat_sound, new_flat};

use super::FlatLog;
use crate::adding::{check_add, openings_of};
use crate::bounded::BoundedList;
use crate::entry::Entry;
use crate::fault::AddFault;
use crate::limits::{MOST_CLAIMS, MOST_ENTRIES};
use crate::numbered::NumberedEntry;
use crate::register::Register;

// The index of the first entry of a claim.
fn first_of_claim(entries: &[Entry], claim: u32) -> Option<usize>
    ensures { result ≡ position (λ entry. entry.claim == claim) entries.now }
{
    entries.iter().position(|entry| entry.claim == claim)
}

impl<'a> FlatLog<'a> {
    // The empty log over lent slots, whatever they hold, for claims numbered up to a bound.
    pub fn new(slots: &'a mut [Entry], bound: u32) -> FlatLog<'a>
        ensures { flat_meaning result ≡ new_flat (length slots.old) bound }
    {
        FlatLog {
            entries: BoundedList::new(slots),
            bound: bound.min(MOST_CLAIMS),
            opened: 0,
        }
    }
}

impl Register for FlatLog<'_> {
    ghost meaning = { flat_meaning };

    ghost sound = { flat_sound };

    fn len(&self) -> u32 {
        self.entries.len() as u32
    }

    fn capacity(&self) -> u32 {
        self.entries.room().min(MOST_ENTRIES as usize) as u32
    }

    fn claim_bound(&self) -> u32 {
        self.bound
    }

    fn openings(&self) -> u32 {
        self.opened
    }

    fn entry(&self, number: u32) -> Option<Entry> {
        self.entries.get(number.checked_sub(1)? as usize)
    }

    fn next_of_claim(&self, claim: u32, after: u32) -> Option<NumberedEntry> {
        let later = self.entries.as_slice().get(after as usize..)?;
        let index = first_of_claim(later, claim)?;
        Some(NumberedEntry {
            number: after + index as u32 + 1,
            entry: later[index],
        })
    }

    fn add(&mut self, entry: Entry) -> Result<u32, AddFault> {
        let len = self.len();
        check_add(self.bound, entry.claim, len, self.capacity())?;
        self.opened += openings_of(entry);
        self.entries.push(entry).unwrap();
        Ok(len + 1)
    }
}
