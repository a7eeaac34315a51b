// Telling what a run found.
use crate::figures::{Figures, SheetFigures};
use crate::questions::{Answered, ComparedDays};
use crate::session::Report;
use crate::tally::Tally;

// Prints the counts.
fn show_tally(rt: &HostRuntime, tally: Tally) -> anyhow::Result<()> {
    let Tally {
        openings,
        payments,
        reserve_changes,
        corrections,
        voids,
        redatings,
        dropped,
        refused,
    } = tally;
    let entries = tally.entries();
    println!(rt; "  {entries} entries booked")?;
    println!(rt;
        "    {openings} openings, {payments} payments, {reserve_changes} reserve changes"
    )?;
    println!(rt; "    {corrections} corrections, {voids} voids, {redatings} redatings")?;
    println!(rt; "  {dropped} drafts dropped")?;
    println!(rt; "  refused, by number")?;
    for (number, count) in refused.iter().enumerate() {
        if *count > 0 {
            println!(rt; "    {number:>2}: {count}")?;
        }
    }
    Ok(())
}

// Prints the figures of a measure.
fn show_measure(rt: &HostRuntime, name: &str, figures: Figures) -> anyhow::Result<()> {
    let Figures {
        total,
        beyond,
        checksum,
    } = figures;
    println!(rt;
        "    {name:<8}  total {total:>13}  beyond {beyond:>11}  checksum {checksum:016x}"
    )?;
    Ok(())
}

// Prints the figures of a sheet.
fn show_sheet(rt: &HostRuntime, sheet: SheetFigures) -> anyhow::Result<()> {
    show_measure(rt, "paid", sheet.paid)?;
    show_measure(rt, "incurred", sheet.incurred)?;
    show_measure(rt, "count", sheet.count)
}

// Prints the questions with the figures of their answers.
fn show_answers(rt: &HostRuntime, answers: &[Answered]) -> anyhow::Result<()> {
    for Answered { question, figures } in answers {
        println!(rt;
            "  known on {}, valued at {}",
            question.known, question.valued
        )?;
        show_sheet(rt, *figures)?;
    }
    Ok(())
}

// Whether an answer was a sheet, in words.
fn is_or_not(same: bool) -> &'static str {
    if same { "is" } else { "IS NOT" }
}

// Prints whether two answers were the live sheet.
fn show_comparison(rt: &HostRuntime, report: &Report) -> anyhow::Result<()> {
    let ComparedDays { kept, last } = report.days;
    let stood = is_or_not(report.stood);
    let current = is_or_not(report.current);
    println!(rt;
        "  known on and valued at {kept}: {stood} the live sheet as it stood when that day ended, cell by cell"
    )?;
    println!(rt;
        "  known on and valued at {last}: {current} the live sheet at the end, cell by cell"
    )?;
    Ok(())
}

// Prints what came of a book on one register.
pub fn show_report(rt: &HostRuntime, name: &str, report: &Report) -> anyhow::Result<()> {
    println!(rt; "{name}")?;
    show_tally(rt, report.tally)?;
    println!(rt; "  the live sheet at the end")?;
    show_sheet(rt, report.live)?;
    show_answers(rt, &report.answers)?;
    show_comparison(rt, report)
}
