// Requests and answers in words.
use crate::step::Step;
use cube::request::{Answer, Request};
use cube::ticket::Opened;
use register::entry::Terms;
use register::kind::MovementKind;
use std::fmt;
use values::day::Day;
use wording::days::DaysInWords;
use wording::money::Money;

// What is asked, in words.
#[derive(Clone, Copy)]
struct Asked(Request);

impl fmt::Display for Asked {
    fn fmt<W: fmt::Write>(&self, f: &mut fmt::Formatter<W>) -> fmt::Result {
        match self.0 {
            Request::Open { booked, claim_days } => {
                let days = DaysInWords(claim_days);
                write!(f, "open a claim: {days}; booked on {booked}")
            }
            Request::Movement {
                kind,
                booked,
                claim,
                terms,
            } => write_movement(f, kind, booked, claim, terms),
            Request::Void { booked, number } => write!(
                f,
                "void entry {number}; booked on {booked}"
            ),
            Request::Redate {
                booked,
                claim,
                claim_days,
            } => {
                let days = DaysInWords(claim_days);
                write!(f, "redate claim {claim}: {days}; booked on {booked}")
            }
            Request::Draft { number } => write!(f, "draft a correction of entry {number}"),
            Request::Post {
                place,
                booked,
                terms,
            } => write_post(f, place, booked, terms),
            Request::Drop { place } => write!(f, "drop the draft of the ticket at place {place}"),
            Request::Query { known, valued } => write!(
                f,
                "draw the triangles known on {known}, valued at {valued}"
            ),
        }
    }
}

// Writes a payment or a reserve change in words.
fn write_movement<W: fmt::Write>(
    f: &mut fmt::Formatter<W>,
    kind: MovementKind,
    booked: Day,
    claim: u32,
    terms: Terms,
) -> fmt::Result {
    let Terms { effective, amount } = terms;
    let amount = Money(amount.cents());
    match kind {
        MovementKind::Paid => write!(
            f,
            "book a payment of {amount} on claim {claim}, made on {effective}; booked on {booked}"
        ),
        MovementKind::Reserved => write!(
            f,
            "change the case reserve of claim {claim} by {amount} as of {effective}; booked on {booked}"
        ),
    }
}

// Writes a post in words.
fn write_post<W: fmt::Write>(
    f: &mut fmt::Formatter<W>,
    place: usize,
    booked: Day,
    terms: Terms,
) -> fmt::Result {
    let Terms { effective, amount } = terms;
    let amount = Money(amount.cents());
    write!(
        f,
        "post the draft of the ticket at place {place}: {amount} on {effective}; booked on {booked}"
    )
}

// What was answered, in words.
#[derive(Clone, Copy)]
struct Answered<'a>(&'a Answer);

impl fmt::Display for Answered<'_> {
    fn fmt<W: fmt::Write>(&self, f: &mut fmt::Formatter<W>) -> fmt::Result {
        match self.0 {
            Answer::Opened(opened) => {
                let Opened { entry, claim } = *opened;
                write!(f, "entry {entry}, which opens claim {claim}")
            }
            Answer::Booked(number) => write!(f, "entry {number}"),
            Answer::Drafted => write!(f, "drafted; the ticket is put into the drawer"),
            Answer::Dropped => write!(f, "dropped; the ticket is spent"),
            Answer::Drawn(cells) => {
                let count = cells.len();
                write!(f, "drawn, in {count} cells")
            }
            Answer::Refused(fault) => {
                let number = fault.number();
                write!(f, "REFUSED, number {number}: {fault}")
            }
            Answer::NoTicket => write!(
                f,
                "REFUSED, no number: the drawer has no ticket at this place, and no call is made"
            ),
        }
    }
}

// Tells what was asked and answered, request by request, each after its words.
pub fn tell(rt: &HostRuntime, steps: &[Step], answers: &[Answer]) -> anyhow::Result<()> {
    for (step, answer) in steps.iter().zip(answers.iter()) {
        if let Some(words) = step.words {
            println!(rt; "\n  {words}")?;
        }
        let asked = Asked(step.request);
        let answered = Answered(answer);
        println!(rt; "    asked:    {asked}\n    answered: {answered}")?;
    }
    Ok(())
}
