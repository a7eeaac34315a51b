// Draws a paid triangle from dated payments read from standard input, and says each step.
#![tactic(auto)]

mod booking;
mod drawing;
mod opening;
mod payment;
mod shape;
mod steps;
mod table;
mod triangle;

use drawing::Drawing;
use payment::{Line, read_line};
use shape::Shape;
use std::io;
use std::io::{BufRead, BufReader};
use steps::Outcome;
use triangle::Triangle;
use values::cohort::LabelledCohort;

// How many payments were added and refused, and how many lines were not read.
#[derive(Clone, Copy, Default)]
struct Tally {
    added: u64,
    refused: u64,
    unread: u64,
}

impl Tally {
    // One line more.
    fn count(&mut self, outcome: Outcome) {
        match outcome {
            Outcome::Added => self.added = self.added.saturating_add(1),
            Outcome::Refused => self.refused = self.refused.saturating_add(1),
            Outcome::Unread => self.unread = self.unread.saturating_add(1),
        }
    }
}

// Reads the input to its end, adds each payment at its place, and counts what became of the lines.
fn read_payments<C: LabelledCohort>(drawing: &mut Drawing<C>) -> io::Result<Tally> {
    let rt = drawing.rt;
    let mut tally = Tally::default();
    let lines = BufReader::new(rt.alloc(), rt.stdin())?.split(rt.alloc(), b'\n');
    for (number, line) in (1u64..).zip(lines) {
        let outcome = match read_line(line?.as_slice()) {
            Line::Skipped => continue,
            Line::Unread => steps::pass_over(rt, number)?,
            Line::Payment(numbers) => drawing.take(number, numbers)?,
        };
        tally.count(outcome);
    }
    Ok(tally)
}

// The steps in their order.
fn run(rt: &HostRuntime) -> io::Result<()> {
    opening::show_purpose(rt)?;
    let Some(cohort) = opening::make_cohorts(rt)? else {
        return Ok(());
    };
    opening::show_format(rt, &cohort)?;
    let mut drawing = Drawing {
        rt,
        cohort: &cohort,
        triangle: Triangle::new(rt.alloc(), Shape::of(&cohort))?,
    };
    let Tally {
        added,
        refused,
        unread,
    } = read_payments(&mut drawing)?;
    rt.println("\nSTEP 3: THE TRIANGLE of the payments that were added\n")?;
    println!(rt;
        "Payments added: {added}. Payments refused: {refused}. Lines not read: {unread}."
    )?;
    drawing.show_triangle()
}

// An error of reading or writing, or want of memory, is printed and ends the program with status 1.
fn main(rt: HostRuntime) -> io::Result<()> {
    run(&rt)
}
