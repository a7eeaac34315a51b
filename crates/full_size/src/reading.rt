// Booking a book on a register of whichever kind, and reading it back.
ghost use Rattle.std.specs.Prelude.{◌≡◌};
ghost use Rattle.full_size.specs.Readings.{all_walked, booked, read, walked};

use crate::sums::Sums;
use register::entries::{all_entries, claim_entries};
use register::entry::Entry;
use register::register::Register;

// Books every entry, and tells how many were accepted.
pub fn book_all<R: Register>(register: &mut R, book: &[Entry]) -> u64
    ensures { R.Register.meaning register.new ≡ booked (R.Register.meaning register.old) book.now }
{
    // a counter: adding alters the register, and a closure that alters what it captured tells the proof nothing
    let mut accepted = 0u64;
    for entry in book {
        if register.add(*entry).is_ok() {
            accepted = accepted.saturating_add(1);
        }
    }
    accepted
}

// Adds up the entries of a claim.
fn walk_claim<R: Register>(register: &R, claim: u32, start: Sums) -> Sums
    ensures { result ≡ walked (R.Register.meaning register.now).entries claim start }
{
    claim_entries(register, claim, 0).fold(start, Sums::after)
}

// Adds up the entries of the claims from 1 to the last, claim by claim.
pub fn walk_claims<R: Register>(register: &R, last: u32, start: Sums) -> Sums
    ensures { result ≡ all_walked (R.Register.meaning register.now).entries last start }
{
    (0..last).fold(start, |sums, claim| walk_claim(register, claim + 1, sums))
}

// Adds up all entries, number by number.
pub fn read_all<R: Register>(register: &R, start: Sums) -> Sums
    ensures { result ≡ read (R.Register.meaning register.now).entries start }
{
    all_entries(register).fold(start, Sums::after)
}
