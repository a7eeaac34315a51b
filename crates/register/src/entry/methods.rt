// Making the terms of a movement and a correction, and what an entry tells of itself.
ghost use Rattle.std.specs.Prelude.{◌≡◌};
ghost use Rattle.register.specs.Entries.{is_opening, is_movement, named_by};
ghost use Rattle.register.specs.Terms.{correction_to, new_terms, terms_of_correction};

use super::{Content, Correction, Entry, Terms};
use values::amount::Amount;
use values::day::Day;
use values::fault::ValueFault;

impl Terms {
    // The terms with these numbers, or the fault of the first that is no day or no amount.
    // Its parameters are two bare numbers, since no terms stand before it makes them.
    pub fn new(effective: u64, cents: i64) -> Result<Terms, ValueFault>
        ensures { result ≡ new_terms effective cents }
    {
        let effective = Day::new(effective)?;
        let amount = Amount::new(cents)?;
        Ok(Terms { effective, amount })
    }
}

impl Correction {
    // The correction that gives the movement with a number new terms.
    pub fn new(names: u32, terms: Terms) -> Correction
        ensures { result ≡ correction_to names terms }
    {
        let Terms { effective, amount } = terms;
        Correction {
            names,
            effective,
            amount,
        }
    }

    // The new terms.
    pub fn terms(self) -> Terms
        ensures { result ≡ terms_of_correction self }
    {
        Terms {
            effective: self.effective,
            amount: self.amount,
        }
    }
}

impl Entry {
    // Whether it opens a claim.
    pub fn is_opening(self) -> bool
        ensures { result ≡ is_opening self }
    {
        matches!(self.content, Content::Opening(_))
    }

    // Whether it is a payment, a reserve change or a correction.
    pub fn is_movement(self) -> bool
        ensures { result ≡ is_movement self }
    {
        matches!(
            self.content,
            Content::Payment(_) | Content::ReserveChange(_) | Content::Correction(_)
        )
    }

    // The number of the movement that it corrects or voids.
    pub fn named(self) -> Option<u32>
        ensures { result ≡ named_by self }
    {
        match self.content {
            Content::Correction(correction) => Some(correction.names),
            Content::Void(void) => Some(void.names),
            _ => None,
        }
    }
}
