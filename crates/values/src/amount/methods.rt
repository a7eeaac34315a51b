// Making an amount, and what it tells.
ghost use Rattle.std.specs.Prelude.{◌≡◌};
ghost use Rattle.values.specs.Amounts.{is_amount};
ghost use Rattle.values.specs.Making.{amount_of};

use super::Amount;
use crate::fault::ValueFault;

// The largest amount, either way: a thousand million in the currency of the book.
const LARGEST_CENTS: u64 = 100_000_000_000;

fn is_amount(cents: i64) -> bool
    ensures { result ≡ is_amount cents }
{
    (1..=LARGEST_CENTS).contains(&cents.unsigned_abs())
}

impl Amount {
    // The amount of this many cents, or the fault that it is none.
    // `new` and no TryFrom: under that trait each literal number would have to name its type.
    pub fn new(cents: i64) -> Result<Amount, ValueFault>
        ensures { result ≡ amount_of cents }
    {
        if is_amount(cents) {
            Ok(Amount { cents })
        } else {
            Err(ValueFault::NotAnAmount)
        }
    }

    // The amount in cents, negative for money that comes back.
    pub fn cents(self) -> i64
        ensures { result ≡ self.cents }
    {
        self.cents
    }
}
