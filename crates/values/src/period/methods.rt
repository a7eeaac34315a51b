// Making a period cohort, its placing and its labels.
ghost use Rattle.std.specs.Prelude.{◌≡◌, ◌<◌, true, false, IfSome, MatchResult, unwrap_or};
ghost use Rattle.values.specs.Calendar.{between};
ghost use Rattle.values.specs.PeriodCohorts.{anchor_day, period_cohort_of, period_meaning, period_label, period_place};
ghost use Rattle.values.specs.declared.place.Place.TheVariants.{Beyond};
ghost use Rattle.values.specs.PeriodSound.{period_sound};
ghost use Rattle.values.specs.Periods.{is_period, period_index, first_month};

use super::{Anchor, PeriodCohort};
use crate::claim_days::ClaimDays;
use crate::cohort::{Cohort, LabelledCohort};
use crate::day::Day;
use crate::fault::CohortFault;
use crate::place::Place;

// A triangle has at most forty rows and forty columns: ten years of quarters.
const MOST_PERIODS: u32 = 40;
// The month number of December 2199, the last month of the calendar.
const LAST_MONTH: u32 = 26_399;

impl Anchor {
    // The claim day that decides the row.
    pub fn day(self, claim_days: ClaimDays) -> Day
        ensures { result ≡ anchor_day self claim_days }
    {
        match self {
            Anchor::Occurrence => claim_days.occurrence,
            Anchor::Inception => claim_days.inception,
            Anchor::Report => claim_days.report,
        }
    }
}

// A month, a quarter, a half-year or a year.
fn is_period(months: u32) -> bool
    ensures { result ≡ is_period months }
{
    matches!(months, 1 | 3 | 6 | 12)
}

// The fault, where a setting is out of its range.
fn check_range(low: u32, high: u32, setting: u32, fault: CohortFault) -> Result<(), CohortFault>
    ensures { MatchResult result (λ _. between low high setting ≡ true) (λ e. (e ≡ fault) × (between low high setting ≡ false)) }
{
    // a test and a fault become a Result here, once for all settings
    if (low..=high).contains(&setting) {
        Ok(())
    } else {
        Err(fault)
    }
}

// The period in which a month lies, counted from the one that begins with `first`, if it is among the first `bound`.
fn period_index(bound: u32, months: u32, first: u32, month: u32) -> Option<u32>
    requires { 0 < months }
    ensures value { result ≡ period_index bound months first month }
    ensures within { IfSome result (λ n. n < bound) }
{
    let distance = i64::from(month) - i64::from(first);
    let index = u32::try_from(distance.div_euclid(i64::from(months))).ok()?;
    (index < bound).then_some(index)
}

impl PeriodCohort {
    // The cohort with these settings, or the first of them that is out of range. Its first row begins with the month
    // `month` of the year `year`, and each row and column spans `months` months.
    pub fn new(
        anchor: Anchor,
        months: u32,
        year: u32,
        month: u32,
        rows: u32,
        columns: u32,
    ) -> Result<PeriodCohort, CohortFault>
        ensures { result ≡ period_cohort_of anchor months year month rows columns }
    {
        if !is_period(months) {
            return Err(CohortFault::PeriodLength);
        }
        check_range(1900, 2199, year, CohortFault::BaseYear)?;
        check_range(1, 12, month, CohortFault::BaseMonth)?;
        check_range(1, MOST_PERIODS, rows, CohortFault::Rows)?;
        check_range(1, MOST_PERIODS, columns, CohortFault::Columns)?;
        let base = 12 * year + month - 1;
        if LAST_MONTH < base + months * (rows + columns) {
            return Err(CohortFault::Span);
        }
        Ok(PeriodCohort {
            anchor,
            base,
            months,
            rows,
            columns,
        })
    }

    // The cell of a day, none where it is beyond.
    fn cell(&self, claim_days: ClaimDays, day: Day) -> Option<Place>
        ensures { unwrap_or result Beyond ≡ period_place self.now claim_days day }
    {
        let anchor = self.anchor.day(claim_days).month_number();
        let row = period_index(self.rows, self.months, self.base, anchor)?;
        let first = self.first_month(row);
        let column = period_index(self.columns, self.months, first, day.month_number())?;
        Some(Place::Cell { row, column })
    }

    // The number of the month in which a row begins.
    fn first_month(&self, row: u32) -> u32
        requires { row < self.now.rows }
        ensures { result ≡ first_month self.now.base self.now.months row }
    {
        self.base + self.months * row
    }
}

impl Cohort for PeriodCohort {
    ghost meaning = { period_meaning };

    ghost sound = { period_sound };

    fn rows(&self) -> u32 {
        self.rows
    }

    fn columns(&self) -> u32 {
        self.columns
    }

    fn place(&self, claim_days: ClaimDays, day: Day) -> Place {
        self.cell(claim_days, day).unwrap_or(Place::Beyond)
    }
}

impl LabelledCohort for PeriodCohort {
    ghost labels = { period_label };

    // Year × 100 + month of the row's first month.
    fn label(&self, row: u32) -> Option<u32> {
        (row < self.rows).then(|| {
            let first = self.first_month(row);
            first / 12 * 100 + first % 12 + 1
        })
    }
}
