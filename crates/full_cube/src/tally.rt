// Counting what came of requests.
use crate::request::Action;
use cube::fault::CallFault;
use register::kind::MovementKind;

// The refusal numbers of calls end before this.
pub const FAULT_NUMBERS: usize = 20;

// The entries that were booked, by kind, the drafts that were dropped, and the refusals, by number: an array and no map, since
// counting must not allocate.
#[derive(Clone, Copy, PartialEq, Default)]
pub struct Tally {
    pub openings: u32,
    pub payments: u32,
    pub reserve_changes: u32,
    pub corrections: u32,
    pub voids: u32,
    pub redatings: u32,
    pub dropped: u32,
    pub refused: [u32; FAULT_NUMBERS],
}

// One more.
fn count(counter: &mut u32) {
    *counter = counter.saturating_add(1);
}

impl Tally {
    // Counts a request that was accepted.
    fn accept(&mut self, action: Action) {
        match action {
            Action::Open(_) => count(&mut self.openings),
            Action::Move(movement) => match movement.kind {
                MovementKind::Paid => count(&mut self.payments),
                MovementKind::Reserved => count(&mut self.reserve_changes),
            },
            Action::Correct(_) => count(&mut self.corrections),
            Action::Abandon(_) => count(&mut self.dropped),
            Action::Void(_) | Action::VoidDrafted(_) => count(&mut self.voids),
            Action::Redate(_) => count(&mut self.redatings),
        }
    }

    // Counts a request by its answer.
    pub fn note(&mut self, action: Action, answer: Result<Option<u32>, CallFault>) {
        match answer {
            Ok(_) => self.accept(action),
            Err(fault) => {
                if let Some(counter) = self.refused.get_mut(fault.number() as usize) {
                    count(counter);
                }
            }
        }
    }

    // The entries that were booked.
    pub fn entries(&self) -> u32 {
        self.openings
            .saturating_add(self.payments)
            .saturating_add(self.reserve_changes)
            .saturating_add(self.corrections)
            .saturating_add(self.voids)
            .saturating_add(self.redatings)
    }
}
