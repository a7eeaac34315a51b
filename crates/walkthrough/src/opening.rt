// What the program says before the first payment.
use register::figures::proved_figures;
use std::io;
use values::cohort::{Cohort, LabelledCohort};
use values::period::{Anchor, PeriodCohort};

// The shape of the triangle that is drawn.
const ROWS: u32 = 4;

const COLUMNS: u32 = 4;

// What a paid triangle is, for a reader who never saw one.
const PURPOSE: &str = "\
A PAID TRIANGLE, STEP BY STEP

An insurer pays for a loss over months or years. A paid triangle shows how fast: it has a
row for each year in which losses occurred, and a column for each year in which they were
paid, counted from the row's own year, so that column 0 is that year itself. This program
reads payments, finds the row and the column of each, and adds its amount to the cell there.
What fits no row or no column is added up apart, as \"beyond\".

Which numbers are days and amounts, and where a payment belongs, is proved for every input.
A refusal has a number: 1 is no day, 2 is no amount, and 3 is a cohort that cannot be made.
";

// What a cohort is.
const COHORT: &str = "
STEP 1: THE COHORT, which gives the triangle its rows and columns

Rows and columns are equal periods of 1, 3, 6 or 12 months. Two cohorts are asked for, with
";

// How a payment is written.
const FORMAT: &str = "
STEP 2: THE PAYMENTS, one a line of the input

A payment is five numbers: the day when the policy began, the day when the loss occurred, the
day when it was reported, the day of the payment, and the amount in cents. 15 April 2021 is
written 20210415.
";

// Says what the program does, and how many worked figures of its rules are proved.
pub fn show_purpose(rt: &HostRuntime) -> io::Result<()> {
    rt.print(PURPOSE)?;
    let figures = proved_figures();
    println!(rt; "Worked figures of the rules, proved too: {figures}.")
}

// Makes a cohort with periods of this many months, and says what came of it.
fn make_cohort(rt: &HostRuntime, months: u32) -> io::Result<Option<PeriodCohort>> {
    let made = PeriodCohort::new(Anchor::Occurrence, months, 2020, 1, ROWS, COLUMNS);
    match made {
        Ok(_) => println!(rt; "  periods of {months} months: made")?,
        Err(fault) => {
            let number = fault.number();
            println!(rt; "  periods of {months} months: refused with {number} ({fault:?})")?;
        }
    }
    Ok(made.ok())
}

// Asks for a cohort that is refused, and then for the one that the triangle is drawn with.
pub fn make_cohorts(rt: &HostRuntime) -> io::Result<Option<PeriodCohort>> {
    rt.print(COHORT)?;
    println!(rt;
        "{COLUMNS} columns and {ROWS} rows from January 2020, the row by the day of occurrence:"
    )?;
    make_cohort(rt, 13)?;
    make_cohort(rt, 12)
}

// Says the label of each row, and how a payment is written.
pub fn show_format<C: LabelledCohort>(rt: &HostRuntime, cohort: &C) -> io::Result<()> {
    rt.println("A row is labelled by its first month:")?;
    for row in 0..cohort.rows() {
        if let Some(label) = cohort.label(row) {
            println!(rt; "  row {row} is {label}")?;
        }
    }
    rt.print(FORMAT)
}
