// Requests that a cube refuses.
use crate::request::{Action, Movement, NewDays, Request};
use crate::turn::Turn;
use register::entry::Terms;
use register::kind::MovementKind;
use samples::random::Random;
use values::claim_days::ClaimDays;
use values::day::Day;
use values::fault::ValueFault;

// The day before all that are counted.
const DAY_BEFORE: u64 = 20_131_231;

// Why a request is to be refused: those faults of a call that a request can bring about, so that no arm is for the other six.
#[derive(Clone, Copy, PartialEq)]
enum Refusal {
    // 7
    BookedEarlier,
    // 11
    AfterBooking,
    // 13
    BeforeReport,
    // 12
    NoSuchClaim,
    // 10
    DaysOutOfOrder,
    // 14
    NoSuchEntry,
    // 15
    NotAMovement,
    // 16
    NotStanding,
    // 17
    UnderDraft,
    // 19
    MovementBeforeReport,
}

// Each reason as often as the others.
fn next_refusal(random: &mut Random) -> Refusal {
    match random.below(10) {
        0 => Refusal::BookedEarlier,
        1 => Refusal::AfterBooking,
        2 => Refusal::BeforeReport,
        3 => Refusal::NoSuchClaim,
        4 => Refusal::DaysOutOfOrder,
        5 => Refusal::NoSuchEntry,
        6 => Refusal::NotAMovement,
        7 => Refusal::NotStanding,
        8 => Refusal::UnderDraft,
        _ => Refusal::MovementBeforeReport,
    }
}

impl Turn<'_> {
    // A payment as it is asked for, whether or not it can be booked.
    fn payment(&mut self, claim: u32, effective: Day) -> Result<Action, ValueFault> {
        let amount = self.samples.amount()?;
        Ok(Action::Move(Movement {
            kind: MovementKind::Paid,
            claim,
            terms: Terms { effective, amount },
        }))
    }

    // A redating to today, of the claim where a movement of it lies before; else of a claim that there cannot be, which is
    // refused with 12.
    fn late_redating(&self, first: Day) -> Action {
        let count = self.progress.count;
        let is_late = self
            .claim
            .standing
            .is_some_and(|last| last.effective < count);
        Action::Redate(NewDays {
            claim: if is_late { self.claim.number } else { 0 },
            claim_days: ClaimDays {
                inception: first,
                occurrence: first,
                report: self.progress.today,
            },
        })
    }

    // What is refused for a reason. Where the claim has no movement for it, the opening, which is entry 1, is named instead:
    // refused with 15.
    fn refused_action(&mut self, refusal: Refusal) -> Result<Action, ValueFault> {
        let first = self.samples.day(0)?;
        let today = self.progress.today;
        let claim = self.claim.number;
        match refusal {
            Refusal::BookedEarlier => self.payment(claim, first),
            Refusal::AfterBooking => {
                let tomorrow = self.samples.day(self.progress.count.saturating_add(1))?;
                self.payment(claim, tomorrow)
            }
            Refusal::BeforeReport => self.payment(claim, Day::new(DAY_BEFORE)?),
            Refusal::NoSuchClaim => self.payment(self.progress.claims.saturating_add(1), today),
            Refusal::DaysOutOfOrder => Ok(Action::Open(ClaimDays {
                inception: today,
                occurrence: first,
                report: today,
            })),
            Refusal::NoSuchEntry => Ok(Action::Void(0)),
            Refusal::NotAMovement => Ok(Action::Void(1)),
            Refusal::NotStanding => Ok(Action::Void(self.claim.replaced.unwrap_or(1))),
            Refusal::UnderDraft => {
                let last = self.claim.standing.map_or(1, |last| last.number);
                Ok(Action::VoidDrafted(last))
            }
            Refusal::MovementBeforeReport => Ok(self.late_redating(first)),
        }
    }

    // A request that is refused.
    pub fn refused(&mut self) -> Result<Request, ValueFault> {
        let refusal = next_refusal(&mut self.samples.random);
        let booked = match refusal {
            Refusal::BookedEarlier => self.samples.day(0)?,
            _ => self.progress.today,
        };
        let action = self.refused_action(refusal)?;
        Ok(Request { booked, action })
    }
}
