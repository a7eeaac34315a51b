// A request and its answer as a line of text.
use crate::request::{Action, Request};
use cube::fault::CallFault;
use register::kind::MovementKind;
use std::fmt;
use values::claim_days::ClaimDays;

// The fields of a line: a letter, the claim, the number of a movement, the effective day, the amount and the three claim days;
// each 0 where the request has none, since the format has a 0 there.
#[derive(Clone, Copy, Default)]
struct Fields {
    letter: char,
    claim: u32,
    number: u32,
    effective: u32,
    cents: i64,
    inception: u32,
    occurrence: u32,
    report: u32,
}

impl Fields {
    // A line with its letter alone.
    fn new(letter: char) -> Fields {
        Fields {
            letter,
            ..Fields::default()
        }
    }

    // A line that names a movement.
    fn naming(letter: char, number: u32) -> Fields {
        Fields {
            number,
            ..Fields::new(letter)
        }
    }

    // A line with claim days.
    fn dating(letter: char, claim: u32, claim_days: ClaimDays) -> Fields {
        Fields {
            claim,
            inception: claim_days.inception.number(),
            occurrence: claim_days.occurrence.number(),
            report: claim_days.report.number(),
            ..Fields::new(letter)
        }
    }

    // The line of an action.
    fn of(action: Action) -> Fields {
        match action {
            Action::Open(claim_days) => Fields::dating('O', 0, claim_days),
            Action::Move(movement) => Fields {
                claim: movement.claim,
                effective: movement.terms.effective.number(),
                cents: movement.terms.amount.cents(),
                ..Fields::new(match movement.kind {
                    MovementKind::Paid => 'P',
                    MovementKind::Reserved => 'R',
                })
            },
            Action::Correct(correction) => Fields {
                effective: correction.effective.number(),
                cents: correction.amount.cents(),
                ..Fields::naming('K', correction.names)
            },
            Action::Abandon(number) => Fields::naming('X', number),
            Action::Void(number) => Fields::naming('V', number),
            Action::VoidDrafted(number) => Fields::naming('W', number),
            Action::Redate(days) => Fields::dating('D', days.claim, days.claim_days),
        }
    }
}

// A request and its answer. The line ends with the number of the entry that it booked, 0 where it booked none, or the refusal
// number with a minus.
#[derive(Clone, Copy)]
pub struct Line {
    pub request: Request,
    pub answer: Result<Option<u32>, CallFault>,
}

impl fmt::Display for Line {
    fn fmt<W: fmt::Write>(&self, f: &mut fmt::Formatter<W>) -> fmt::Result {
        let Fields {
            letter,
            claim,
            number,
            effective,
            cents,
            inception,
            occurrence,
            report,
        } = Fields::of(self.request.action);
        let booked = self.request.booked.number();
        write!(
            f,
            "{letter},{booked},{claim},{number},{effective},{cents},{inception},{occurrence},{report},"
        )?;
        match self.answer {
            Ok(entry) => {
                // the format has a 0 there
                let entry = entry.unwrap_or(0);
                write!(f, "{entry}")
            }
            Err(fault) => {
                let fault = fault.number();
                write!(f, "-{fault}")
            }
        }
    }
}
