// A payment on a claim: five numbers, and the values that they become.
ghost use Rattle.std.specs.Prelude.{◌≡◌};
ghost use Rattle.walkthrough.specs.Payments.{payment_of};

use std::str::{FromStr, SplitWhitespace};
use values::amount::Amount;
use values::claim_days::ClaimDays;
use values::day::Day;
use values::fault::ValueFault;

// The numbers of a line, as they were read.
#[derive(Clone, Copy)]
pub struct Numbers {
    pub inception: u64,
    pub occurrence: u64,
    pub report: u64,
    pub payment: u64,
    pub cents: i64,
}

// A text that is not five whole numbers, of which only the last may have a sign.
#[derive(Clone, Copy, Debug)]
pub struct NotNumbers;

// An amount paid on a day, on a claim with these claim days.
#[derive(Clone, Copy)]
pub struct Payment {
    pub claim_days: ClaimDays,
    pub day: Day,
    pub amount: Amount,
}

// The payment with these numbers, or the fault of the first that is no day or no amount.
impl TryFrom<Numbers> for Payment {
    type Error = ValueFault;

    ghost try_from_gives = { λ numbers made. made ≡ payment_of numbers };

    fn try_from(numbers: Numbers) -> Result<Payment, ValueFault> {
        let claim_days = ClaimDays::new(numbers.inception, numbers.occurrence, numbers.report)?;
        let day = Day::new(numbers.payment)?;
        let amount = Amount::new(numbers.cents)?;
        Ok(Payment {
            claim_days,
            day,
            amount,
        })
    }
}

// The next word as a number.
fn next_number<T: FromStr>(words: &mut SplitWhitespace) -> Result<T, NotNumbers>
where
    T::Err: Drop,
{
    let word = words.next().ok_or(NotNumbers)?;
    word.parse::<T>().map_err(|_| NotNumbers)
}

// Five whole numbers parted by blanks, of which only the last may have a sign.
impl FromStr for Numbers {
    type Err = NotNumbers;

    fn from_str(text: &str) -> Result<Numbers, NotNumbers> {
        let mut words = text.split_whitespace();
        let numbers = Numbers {
            inception: next_number(&mut words)?,
            occurrence: next_number(&mut words)?,
            report: next_number(&mut words)?,
            payment: next_number(&mut words)?,
            cents: next_number(&mut words)?,
        };
        words.next().is_none().then_some(numbers).ok_or(NotNumbers)
    }
}

// What a line of the input holds.
#[derive(Clone, Copy)]
pub enum Line {
    // nothing to read: it is blank, or begins with #
    Skipped,
    // something else than five whole numbers
    Unread,
    Payment(Numbers),
}

// What a line holds, given without the byte that ends it.
pub fn read_line(bytes: &[u8]) -> Line {
    let Ok(text) = std::str::from_utf8(bytes) else {
        return Line::Unread;
    };
    let text = text.trim();
    if text.is_empty() || text.starts_with('#') {
        return Line::Skipped;
    }
    text.parse::<Numbers>().map_or(Line::Unread, Line::Payment)
}
