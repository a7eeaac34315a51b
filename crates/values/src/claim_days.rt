// The three days of a claim.
ghost use Rattle.std.specs.Prelude.{◌≡◌};
ghost use Rattle.values.specs.Making.{claim_days_of, in_order};

use crate::day::Day;
use crate::fault::ValueFault;

// When the policy began, when the loss occurred and when it was reported.
#[derive(Clone, Copy, PartialEq, Eq, Debug)]
pub struct ClaimDays {
    pub inception: Day,
    pub occurrence: Day,
    pub report: Day,
}

impl ClaimDays {
    // The claim days with these numbers, or the fault of the first that is no day.
    pub fn new(inception: u64, occurrence: u64, report: u64) -> Result<ClaimDays, ValueFault>
        ensures { result ≡ claim_days_of inception occurrence report }
    {
        let inception = Day::new(inception)?;
        let occurrence = Day::new(occurrence)?;
        let report = Day::new(report)?;
        Ok(ClaimDays {
            inception,
            occurrence,
            report,
        })
    }

    // Whether inception ≤ occurrence ≤ report.
    pub fn in_order(self) -> bool
        ensures { result ≡ in_order self }
    {
        self.inception <= self.occurrence && self.occurrence <= self.report
    }
}
