// Sums over entries that were read, by which two readings are compared.
ghost use Rattle.std.specs.Prelude.{◌≡◌};
ghost use Rattle.full_size.specs.Readings.{cents_of, sums_after};

use register::entry::{Content, Entry};
use register::numbered::NumberedEntry;

// How many entries were read, and the sums of their numbers, claims, booking days and amounts, modulo 2^64.
#[derive(Clone, Copy, PartialEq, Default)]
pub struct Sums {
    pub entries: u64,
    pub numbers: u64,
    pub claims: u64,
    pub booked: u64,
    pub cents: u64,
}

// The amount of an entry in cents, 0 where it has none: it is a summand, and nothing adds 0.
fn cents(entry: Entry) -> i64
    ensures { result ≡ cents_of entry }
{
    match entry.content {
        Content::Payment(terms) | Content::ReserveChange(terms) => terms.amount.cents(),
        Content::Correction(correction) => correction.amount.cents(),
        Content::Opening(_) | Content::Void(_) | Content::Redating(_) => 0,
    }
}

impl Sums {
    // One entry more.
    pub fn after(self, read: NumberedEntry) -> Sums
        ensures { result ≡ sums_after self read }
    {
        let NumberedEntry { number, entry } = read;
        Sums {
            entries: self.entries.wrapping_add(1),
            numbers: self.numbers.wrapping_add(number as u64),
            claims: self.claims.wrapping_add(entry.claim as u64),
            booked: self.booked.wrapping_add(entry.booked.number() as u64),
            cents: self.cents.wrapping_add_signed(cents(entry)),
        }
    }
}
