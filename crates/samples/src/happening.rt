// What happens to a claim that is open.
ghost use Rattle.std.specs.Prelude.{◌≡◌};
ghost use Rattle.samples.specs.Samples.{drawn, next};
ghost use Rattle.samples.specs.Shares.{all_shares, happening_at};

use crate::random::Random;

// One of the entries that may follow a claim's opening.
#[derive(Clone, Copy, PartialEq, Eq, Debug)]
pub enum Happening {
    Payment,
    ReserveChange,
    Correction,
    Void,
    Redating,
}

// Of so many happenings, how many are of each kind.
#[derive(Clone, Copy)]
pub struct Shares {
    pub payments: u8,
    pub reserve_changes: u8,
    pub corrections: u8,
    pub voids: u8,
    pub redatings: u8,
}

impl Shares {
    // The next happening, each as often as its share says.
    pub fn next_happening(self, random: &mut Random) -> Happening
        ensures state { random.new.state ≡ next random.old.state }
        ensures value { result ≡ happening_at self (drawn random.new.state (all_shares self)) }
    {
        let reserve_changes = self.payments as u64 + self.reserve_changes as u64;
        let corrections = reserve_changes + self.corrections as u64;
        let voids = corrections + self.voids as u64;
        let draw = random.below(voids + self.redatings as u64);
        if draw < self.payments as u64 {
            Happening::Payment
        } else if draw < reserve_changes {
            Happening::ReserveChange
        } else if draw < corrections {
            Happening::Correction
        } else if draw < voids {
            Happening::Void
        } else {
            Happening::Redating
        }
    }
}
