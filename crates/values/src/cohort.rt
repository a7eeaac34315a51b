// What a cohort is: the shape of a triangle, and where in it a day of a claim belongs.
ghost use Rattle.std.specs.Prelude.{◌≡◌, ℕ};
ghost use Rattle.values.specs.Cohorts.{Meaning, Sound, label_in};

use crate::claim_days::ClaimDays;
use crate::day::Day;
use crate::place::Place;

// A number of rows, a number of columns and a placing. The meaning is a function, so that the same question always has
// the same answer; a sound one has 1 to 40 rows and columns and places only within them.
pub trait Cohort {
    ghost meaning: { Self → Meaning };

    ghost sound: { (c : Self) → Sound (meaning c) };

    fn rows(&self) -> u32
        ensures { result ≡ (meaning self.now).rows };

    fn columns(&self) -> u32
        ensures { result ≡ (meaning self.now).columns };

    // Where a claim with these claim days puts what happens on a further day.
    fn place(&self, claim_days: ClaimDays, day: Day) -> Place
        ensures { result ≡ (meaning self.now).place claim_days day };
}

// A cohort whose rows have labels.
pub trait LabelledCohort: Cohort {
    ghost labels: { Self → ℕ → ℕ };

    // The label of a row, none for a row that the cohort does not have.
    fn label(&self, row: u32) -> Option<u32>
        ensures { result ≡ label_in (Self.Cohort.meaning self.now) (labels self.now) row };
}
