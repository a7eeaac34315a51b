// Why a value cannot be made, each reason with its refusal number.
ghost use Rattle.std.specs.Prelude.{◌≡◌, Some};
ghost use Rattle.values.specs.Faults.{value_fault_number, cohort_fault_number};
ghost use Rattle.values.specs.Texts.{value_fault_text, cohort_fault_text};

use std::error::Error;
use std::fmt;

// Why a number is no value of the kind that was asked for, by its refusal number.
#[derive(Clone, Copy, PartialEq, Eq, Debug)]
pub enum ValueFault {
    NotADay = 1,
    NotAnAmount = 2,
}

// Which setting of a cohort is out of range.
#[derive(Clone, Copy, PartialEq, Eq, Debug)]
pub enum CohortFault {
    PeriodLength,
    BaseYear,
    BaseMonth,
    Rows,
    Columns,
    // base + months × (rows + columns) passes the last month of the calendar
    Span,
}

impl ValueFault {
    // The refusal number.
    pub fn number(self) -> u32
        ensures { result ≡ value_fault_number self }
    {
        self as u32
    }
}

impl CohortFault {
    // The refusal number, the same for every setting.
    pub fn number(self) -> u32
        ensures { result ≡ cohort_fault_number self }
    {
        3
    }
}

impl fmt::Display for ValueFault {
    ghost output = { λ fault. Some (value_fault_text fault) };

    fn fmt<W: fmt::Write>(&self, f: &mut fmt::Formatter<W>) -> fmt::Result {
        f.write_str(match self {
            ValueFault::NotADay => "no day of the calendar from 1900 to 2199",
            ValueFault::NotAnAmount =>
                "no amount: it is not 0, and at most 1,000,000,000.00 either way",
        })
    }
}

impl Error for ValueFault {}

impl fmt::Display for CohortFault {
    ghost output = { λ fault. Some (cohort_fault_text fault) };

    fn fmt<W: fmt::Write>(&self, f: &mut fmt::Formatter<W>) -> fmt::Result {
        f.write_str(match self {
            CohortFault::PeriodLength => "a period has 1, 3, 6 or 12 months",
            CohortFault::BaseYear => "the base year is from 1900 to 2199",
            CohortFault::BaseMonth => "the base month is from 1 to 12",
            CohortFault::Rows => "there are 1 to 40 rows",
            CohortFault::Columns => "there are 1 to 40 columns",
            CohortFault::Span => "the rows and columns pass December 2199",
        })
    }
}

impl Error for CohortFault {}
