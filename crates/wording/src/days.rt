// Claim days in words.
ghost use Rattle.std.specs.Prelude.{Some};
ghost use Rattle.wording.specs.Days.{days_text};

use std::fmt;
use values::claim_days::ClaimDays;

// The three claim days: insured from 2021-01-01, loss on 2021-05-14, reported on 2021-05-20.
#[derive(Clone, Copy)]
pub struct DaysInWords(pub ClaimDays);

impl fmt::Display for DaysInWords {
    ghost output = { λ days. Some (days_text days.0) };

    fn fmt<W: fmt::Write>(&self, f: &mut fmt::Formatter<W>) -> fmt::Result {
        let ClaimDays {
            inception,
            occurrence,
            report,
        } = self.0;
        write!(
            f,
            "insured from {inception}, loss on {occurrence}, reported on {report}"
        )
    }
}
