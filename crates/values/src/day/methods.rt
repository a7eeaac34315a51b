// Making a day, and what it tells.
ghost use Rattle.std.specs.Prelude.{◌≡◌, ◌/◌, ◌%◌, Some};
ghost use Rattle.values.specs.Calendar.{leap_year, month_length, is_day, month_number};
ghost use Rattle.values.specs.Making.{day_of};
ghost use Rattle.values.specs.Texts.{day_text};

use super::Day;
use crate::fault::ValueFault;
use std::fmt;

const FIRST_YEAR: u64 = 1900;

const LAST_YEAR: u64 = 2199;

fn is_leap_year(year: u64) -> bool
    ensures { result ≡ leap_year year }
{
    year % 4 == 0 && (year % 100 != 0 || year % 400 == 0)
}

fn month_length(year: u64, month: u64) -> u64
    ensures { result ≡ month_length year month }
{
    // the arms are the rule
    match month {
        2 => { if is_leap_year(year) { 29 } else { 28 } }
        4 | 6 | 9 | 11 => 30,
        _ => 31,
    }
}

fn is_day(number: u64) -> bool
    ensures { result ≡ is_day number }
{
    let year = number / 10_000;
    let month = number / 100 % 100;
    let day = number % 100;
    (FIRST_YEAR..=LAST_YEAR).contains(&year)
        && (1..=12).contains(&month)
        && (1..=month_length(year, month)).contains(&day)
}

impl Day {
    // The day with this number, or the fault that it is none.
    // `new` and no TryFrom: under that trait each literal number would have to name its type.
    pub fn new(number: u64) -> Result<Day, ValueFault>
        ensures { result ≡ day_of number }
    {
        if is_day(number) {
            Ok(Day {
                number: number as u32,
            })
        } else {
            Err(ValueFault::NotADay)
        }
    }

    // Year × 10,000 + month × 100 + day of the month.
    pub fn number(self) -> u32
        ensures { result ≡ self.number }
    {
        self.number
    }

    // 12 × year + month − 1: months counted without a break from year 0.
    pub fn month_number(self) -> u32
        ensures { result ≡ month_number self.number }
    {
        self.number / 10_000 * 12 + self.number / 100 % 100 - 1
    }
}

// Year, month and day of the month: 2021-04-15.
impl fmt::Display for Day {
    ghost output = { λ day. Some (day_text day) };

    fn fmt<W: fmt::Write>(&self, f: &mut fmt::Formatter<W>) -> fmt::Result {
        let year = self.number / 10_000;
        let month = self.number / 100 % 100;
        let day = self.number % 100;
        write!(f, "{year}-{month:02}-{day:02}")
    }
}
