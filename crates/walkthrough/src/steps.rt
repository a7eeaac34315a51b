// What the program says of each line of the input.
use crate::booking::{Booked, book};
use crate::drawing::Drawing;
use crate::payment::{Numbers, Payment};
use std::io;
use values::amount::Amount;
use values::cohort::LabelledCohort;
use values::day::Day;
use values::place::Place;
use wording::money::Money;

// What became of a line.
#[derive(Clone, Copy)]
pub enum Outcome {
    Added,
    Refused,
    Unread,
}

// Says what a number becomes as a day.
fn show_day(rt: &HostRuntime, name: &str, number: u64) -> io::Result<()> {
    print!(rt; "  {name:<10}  {number:>13}  ")?;
    match Day::new(number) {
        Ok(day) => println!(rt; "the day {day}"),
        Err(fault) => {
            let number = fault.number();
            println!(rt; "refused with {number}: {fault}")
        }
    }
}

// Says what a number becomes as an amount.
fn show_amount(rt: &HostRuntime, cents: i64) -> io::Result<()> {
    print!(rt; "  amount      {cents:>13}  ")?;
    match Amount::new(cents) {
        Ok(amount) => {
            let sum = Money(amount.cents());
            println!(rt; "the amount {sum}")
        }
        Err(fault) => {
            let number = fault.number();
            println!(rt;
                "refused with {number}: an amount is not 0, and at most 1,000,000,000.00 either way"
            )
        }
    }
}

// Says what each number of a payment becomes.
fn show_numbers(rt: &HostRuntime, line: u64, numbers: Numbers) -> io::Result<()> {
    println!(rt; "\nLine {line}")?;
    show_day(rt, "inception", numbers.inception)?;
    show_day(rt, "occurrence", numbers.occurrence)?;
    show_day(rt, "report", numbers.report)?;
    show_day(rt, "payment", numbers.payment)?;
    show_amount(rt, numbers.cents)
}

impl<C: LabelledCohort> Drawing<'_, C> {
    // Says where a payment went.
    fn show_booked(&self, booked: Booked) -> io::Result<()> {
        let rt = self.rt;
        let sum = Money(booked.sum);
        match booked.place {
            Place::Cell { row, column } => {
                print!(rt; "  -> row {row}")?;
                if let Some(label) = self.cohort.label(row) {
                    print!(rt; " ({label})")?;
                }
                println!(rt; ", column {column}, which then holds {sum}")
            }
            Place::Beyond => println!(rt; "  -> beyond the triangle, where there is then {sum}"),
        }
    }

    // Says what the numbers of a line become, adds the payment with them unless one is refused, and says what came of it.
    pub fn take(&mut self, line: u64, numbers: Numbers) -> io::Result<Outcome> {
        let rt = self.rt;
        show_numbers(rt, line, numbers)?;
        match Payment::try_from(numbers) {
            Ok(payment) => {
                let booked = book(&mut self.triangle, self.cohort, payment);
                self.show_booked(booked)?;
                Ok(Outcome::Added)
            }
            Err(fault) => {
                let number = fault.number();
                println!(rt; "  -> the payment is refused with {number}, and nothing is added")?;
                Ok(Outcome::Refused)
            }
        }
    }
}

// Says that a line is not read.
pub fn pass_over(rt: &HostRuntime, line: u64) -> io::Result<Outcome> {
    println!(rt;
        "\nLine {line} is not read: it is not five whole numbers, of which only the last may be negative"
    )?;
    Ok(Outcome::Unread)
}
