// What the program says before the first request.
use anyhow::Context;
use register::figures::proved_figures;
use values::amount::Amount;
use values::claim_days::ClaimDays;
use values::cohort::{Cohort, LabelledCohort};
use values::day::Day;
use values::period::{Anchor, PeriodCohort};
use values::place::Place;

// What the program does, for a reader who knows insurance.
const PURPOSE: &str = "\
A QUARTER OF CLAIMS BUSINESS

A book of claims is kept as a list of entries that is only ever added to: openings, payments,
changes of the case reserve, corrections, voids and new claim days. Beside it lies a sheet with
three triangles, paid, incurred and the count of claims. A row is a year in which losses
occurred. Column 0 is that same year, column 1 the year after it, and so on. What fits no row or
no column is summed apart, as \"beyond\".

Each entry has a booking day, on which the book learned of it. A payment and a reserve change
also have an effective day, on which it happened. So the triangles can be drawn again as they
were known on any past day.

You will see the book until the end of 2023, then what was asked of it from January to March
2024, and last the triangles of the end of March beside those of the end of 2023. What cannot be
done is refused, with a number that says why, and a refusal changes nothing.

That each answer and each cell of the triangles is what the rules say is proved, for every book
and not only for this one.
";

// What the values are.
const VALUES: &str = "
1. DAYS, AMOUNTS AND PLACES

Only values that can be right get into the book:
";

// Says what the program does.
pub fn show_purpose(rt: &HostRuntime) -> anyhow::Result<()> {
    rt.print(PURPOSE)?;
    let figures = proved_figures();
    println!(rt; "Worked figures of the rules, proved too: {figures}.")?;
    Ok(())
}

// Says what a number is as a day.
fn show_day(rt: &HostRuntime, number: u64) -> anyhow::Result<()> {
    match Day::new(number) {
        Ok(day) => println!(rt; "  {number} as a day: {day}")?,
        Err(fault) => {
            let refusal = fault.number();
            println!(rt;
                "  {number} as a day: refused, number {refusal}: the calendar has no such day"
            )?;
        }
    }
    Ok(())
}

// Says whether a number of cents is an amount.
fn show_amount(rt: &HostRuntime, cents: i64) -> anyhow::Result<()> {
    match Amount::new(cents) {
        Ok(_) => println!(rt; "  {cents} cents as an amount: taken")?,
        Err(fault) => {
            let refusal = fault.number();
            println!(rt;
                "  {cents} cents as an amount: refused, number {refusal}: it is not 0, and at most 1,000,000,000.00"
            )?;
        }
    }
    Ok(())
}

// Makes the cohort of four years by four with periods of this many months, and says what came of it.
fn make_cohort(rt: &HostRuntime, months: u32) -> anyhow::Result<Option<PeriodCohort>> {
    let made = PeriodCohort::new(Anchor::Occurrence, months, 2021, 1, 4, 4);
    match made {
        Ok(_) => println!(rt; "  triangles with periods of {months} months: made")?,
        Err(fault) => {
            let refusal = fault.number();
            println!(rt;
                "  triangles with periods of {months} months: refused, number {refusal}: {fault}"
            )?;
        }
    }
    Ok(made.ok())
}

// Says what days, amounts and periods are taken, and makes the cohort: years from 2021, by the day of occurrence.
pub fn show_values(rt: &HostRuntime) -> anyhow::Result<PeriodCohort> {
    println!(rt; "{VALUES}")?;
    show_day(rt, 20240229)?;
    show_day(rt, 20230229)?;
    show_amount(rt, 125_000)?;
    show_amount(rt, 0)?;
    make_cohort(rt, 13)?;
    make_cohort(rt, 12)?.context("the cohort is refused")
}

// Says where a claim puts its report day.
pub fn show_place<C: LabelledCohort>(rt: &HostRuntime, cohort: &C) -> anyhow::Result<()> {
    let claim_days = ClaimDays::new(20210701, 20211230, 20220111)?;
    let occurrence = claim_days.occurrence;
    let report = claim_days.report;
    print!(rt; "\nA loss of {occurrence} that is reported on {report} counts in ")?;
    match cohort.place(claim_days, claim_days.report) {
        Place::Cell { row, column } => {
            // The cohort has just placed the row, so it has a label, and the 0 is never printed.
            let label = cohort.label(row).unwrap_or(0);
            println!(rt; "row {label}, column {column}.")?;
        }
        Place::Beyond => println!(rt; "no cell: it is beyond.")?,
    }
    Ok(())
}
