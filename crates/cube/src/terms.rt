// The terms of a movement, and which way they fall into the sheet.
ghost use Rattle.std.specs.Prelude.{◌≡◌, ◌≤ℤ◌, neg_ℤ, pos};
ghost use Rattle.cube.specs.Brings.{directed, in_time, terms_of};

use register::entry::{Content, Terms};
use values::amount::Amount;
use values::day::Day;

// Whether something is added to the sheet or taken off it.
#[derive(Clone, Copy)]
pub enum Direction {
    Added,
    TakenOff,
}

// An amount that is added to a cell, negative where it is taken off.
#[derive(Clone, Copy)]
pub struct Change {
    pub cents: i64,
}

impl Direction {
    // The change that a number of cents or of claims makes.
    fn change(self, number: i64) -> Change
        requires { neg_ℤ i64.MAX ≤ℤ number }
        ensures { result.cents ≡ directed self number }
    {
        match self {
            Direction::Added => Change { cents: number },
            Direction::TakenOff => Change { cents: -number },
        }
    }

    // The change that an amount makes.
    pub fn of(self, amount: Amount) -> Change
        ensures { result.cents ≡ directed self amount.cents }
    {
        self.change(amount.cents())
    }

    // The change that one claim makes.
    pub fn of_one(self) -> Change
        ensures { result.cents ≡ directed self (pos 1) }
    {
        self.change(1)
    }
}

// The terms of a movement, by what its entry says.
pub fn terms_of(content: Content) -> Option<Terms>
    ensures { result ≡ terms_of content }
{
    match content {
        Content::Payment(terms) | Content::ReserveChange(terms) => Some(terms),
        Content::Correction(correction) => Some(correction.terms()),
        _ => None,
    }
}

// Whether a day is on or before the value day; without one every day is.
pub fn in_time(valued: Option<Day>, day: Day) -> bool
    ensures { result ≡ in_time valued day }
{
    valued.is_none_or(|last| day <= last)
}
