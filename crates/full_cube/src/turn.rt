// What happens to a claim of the book in one turn.
use crate::request::{Action, Movement, NewDays, Request};
use register::entry::{Correction, Terms};
use register::kind::MovementKind;
use samples::happening::{Happening, Shares};
use samples::samples::Samples;
use values::day::Day;
use values::fault::ValueFault;

// A report or a movement is booked after fewer days than these.
pub const BOOKING_DELAY: u64 = 30;
// Before one entry in so many there is a request that is refused.
const REFUSED_EVERY: u64 = 150;
// Before one entry in so many there is a draft that is dropped.
const DROPPED_EVERY: u64 = 200;

// A movement that stands: its number, and its effective day as a count.
#[derive(Clone, Copy)]
pub struct Standing {
    pub number: u32,
    pub effective: u64,
}

// What the book knows of a claim that was opened: its number, its report day as a count, its last movement, if that stands,
// and the number of the last movement that was corrected or voided. The number is kept, since a turn has no place of its claim.
#[derive(Clone, Copy)]
pub struct Claim {
    pub number: u32,
    pub report: u64,
    pub standing: Option<Standing>,
    pub replaced: Option<u32>,
}

// How far the book is made: how many entries and claims it has by now, and the day that it has come to, with its count.
#[derive(Clone, Copy)]
pub struct Progress {
    pub entries: u32,
    pub claims: u32,
    pub count: u64,
    pub today: Day,
}

// A turn of an open claim.
#[derive(Drop)]
pub struct Turn<'a> {
    pub samples: &'a mut Samples,
    pub claim: &'a mut Claim,
    pub progress: Progress,
}

// Of a hundred happenings 45 are payments.
const SHARES: Shares = Shares {
    payments: 45,
    reserve_changes: 30,
    corrections: 12,
    voids: 7,
    redatings: 6,
};

impl Turn<'_> {
    // New claim days. The report day does not become later, so that no movement lies before it.
    fn redating(&mut self) -> Result<Action, ValueFault> {
        let delay = self.samples.random.below(BOOKING_DELAY);
        self.claim.report = self.claim.report.saturating_sub(delay);
        Ok(Action::Redate(NewDays {
            claim: self.claim.number,
            claim_days: self.samples.claim_days(self.claim.report)?,
        }))
    }

    // The terms of the next entry, which becomes the last movement of the claim.
    fn next_terms(&mut self) -> Result<Terms, ValueFault> {
        let delay = self.samples.random.below(BOOKING_DELAY);
        let earliest = self.progress.count.saturating_sub(delay);
        let effective = earliest.max(self.claim.report);
        self.claim.standing = Some(Standing {
            number: self.progress.entries.saturating_add(1),
            effective,
        });
        Ok(Terms {
            effective: self.samples.day(effective)?,
            amount: self.samples.amount()?,
        })
    }

    // A payment or a reserve change.
    fn movement(&mut self, kind: MovementKind) -> Result<Action, ValueFault> {
        Ok(Action::Move(Movement {
            kind,
            claim: self.claim.number,
            terms: self.next_terms()?,
        }))
    }

    // The correction of the movement with a number.
    fn correction(&mut self, names: u32) -> Result<Action, ValueFault> {
        self.claim.replaced = Some(names);
        let terms = self.next_terms()?;
        Ok(Action::Correct(Correction::new(names, terms)))
    }

    // The void of the movement with a number.
    fn void(&mut self, number: u32) -> Action {
        self.claim.replaced = Some(number);
        self.claim.standing = None;
        Action::Void(number)
    }

    // Something happens to the claim. Where no movement of it is known to stand, there is a reserve change in place of a
    // correction or a void.
    fn change(&mut self) -> Result<Action, ValueFault> {
        match (
            SHARES.next_happening(&mut self.samples.random),
            self.claim.standing,
        ) {
            (Happening::Redating, _) => self.redating(),
            (Happening::Payment, _) => self.movement(MovementKind::Paid),
            (Happening::Correction, Some(last)) => self.correction(last.number),
            (Happening::Void, Some(last)) => Ok(self.void(last.number)),
            _ => self.movement(MovementKind::Reserved),
        }
    }

    // A draft that is dropped, where a movement of the claim stands.
    fn dropped(&self) -> Option<Request> {
        let last = self.claim.standing?;
        Some(Request {
            booked: self.progress.today,
            action: Action::Abandon(last.number),
        })
    }

    // The requests of the turn in their order: one that is refused, one that is dropped, and the one for the next entry.
    pub fn requests(&mut self) -> Result<[Option<Request>; 3], ValueFault> {
        let refused = (self.samples.random.below(REFUSED_EVERY) == 0)
            .then(|| self.refused())
            .transpose()?;
        let dropped = (self.samples.random.below(DROPPED_EVERY) == 0)
            .then(|| self.dropped())
            .flatten();
        let booking = Request {
            booked: self.progress.today,
            action: self.change()?,
        };
        Ok([refused, dropped, Some(booking)])
    }
}
