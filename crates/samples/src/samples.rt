// A source of days, claim days and amounts.
ghost use Rattle.std.specs.Prelude.{◌≡◌, ◌+◌, ◌-◌, ◌<◌, ◌^◌};
ghost use Rattle.values.specs.Making.{day_of, amount_of, claim_days_of};
ghost use Rattle.samples.specs.Samples.{amount_drawn, day_number, drawn, index_drawn, next};
ghost use Rattle.samples.specs.Draws.{drawn_twice};

use crate::busiest::Busiest;
use crate::random::Random;
use values::amount::Amount;
use values::claim_days::ClaimDays;
use values::day::Day;
use values::fault::ValueFault;

// Days are counted over months of 28 days each, so that a count is a day without a table of the months.
pub const DAYS_OF_MONTH: u64 = 28;
// Twelve such months.
pub const DAYS_OF_YEAR: u64 = 12 * DAYS_OF_MONTH;
// Counts come round after twelve years, more than a book has.
const COUNTED_DAYS: u64 = 12 * DAYS_OF_YEAR;

// A source of numbers, the year with whose first day the count of days begins, and the number of days within which a loss is
// reported.
#[derive(Clone, Copy)]
pub struct Samples {
    pub random: Random,
    pub first_year: u32,
    pub report_delay: u64,
}

impl Samples {
    // The number of the day with a count: year × 10,000 + month × 100 + day of the month.
    fn day_number(&self, count: u64) -> u64
        ensures { result ≡ day_number self.now.first_year count }
    {
        let count = count % COUNTED_DAYS;
        let year = self.first_year as u64 + count / DAYS_OF_YEAR;
        let month = 1 + count / DAYS_OF_MONTH % 12;
        year * 10_000 + month * 100 + 1 + count % DAYS_OF_MONTH
    }

    // The day with a count.
    pub fn day(&self, count: u64) -> Result<Day, ValueFault>
        ensures { result ≡ day_of (day_number self.now.first_year count) }
    {
        Day::new(self.day_number(count))
    }

    // Three claim days in order, the last of them with a count.
    pub fn claim_days(&mut self, report: u64) -> Result<ClaimDays, ValueFault>
        ensures after { self.new ≡ drawn_twice self.old }
        ensures value { let year = self.old.first_year in let first = next self.old.random.state in let occurrence = report - drawn first self.old.report_delay in let inception = occurrence - drawn (next first) 336 in result ≡ claim_days_of (day_number year inception) (day_number year occurrence) (day_number year report) }
    {
        let occurrence = report.saturating_sub(self.random.below(self.report_delay));
        let inception = occurrence.saturating_sub(self.random.below(DAYS_OF_YEAR));
        ClaimDays::new(
            self.day_number(inception),
            self.day_number(occurrence),
            self.day_number(report),
        )
    }

    // From 1 to 1,000,000 cents, one time in four taken back.
    fn cents(&mut self) -> i64
        ensures after { self.new ≡ drawn_twice self.old }
        ensures value { result ≡ amount_drawn self.old.random.state }
    {
        let cents = 1 + self.random.below(1_000_000) as i64;
        if self.random.below(4) == 0 {
            -cents
        } else {
            cents
        }
    }

    // An amount of up to 10,000.00, paid or, one time in four, taken back.
    pub fn amount(&mut self) -> Result<Amount, ValueFault>
        ensures after { self.new ≡ drawn_twice self.old }
        ensures value { result ≡ amount_of (amount_drawn self.old.random.state) }
    {
        Amount::new(self.cents())
    }

    // One of so many claims, counted from 0: every second time one of the busiest tenth.
    pub fn claim_index(&mut self, claims: u32, busiest: Busiest) -> u32
        ensures after { self.new ≡ drawn_twice self.old }
        ensures value { result ≡ index_drawn busiest claims self.old.random.state }
        ensures small { result + 1 < 2 ^ 32 }
    {
        if self.random.below(2) == 0 {
            return self.random.below(claims as u64) as u32;
        }
        let within = self.random.below(claims as u64 / 10) as u32;
        match busiest {
            Busiest::First => within,
            Busiest::Last => claims.saturating_sub(1).saturating_sub(within),
        }
    }
}
