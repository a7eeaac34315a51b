// How amounts, entries, requests and answers are written.
use crate::request::{Answer, Request};
use register::entry::{Content, Entry, Terms};
use register::numbered::NumberedEntry;
use std::fmt;
use values::amount::Amount;
use wording::days::DaysInWords;

// An amount without commas between its digits, unlike wording's: -1200.00.
#[derive(Clone, Copy)]
struct Money(Amount);

impl fmt::Display for Money {
    fn fmt<W: fmt::Write>(&self, f: &mut fmt::Formatter<W>) -> fmt::Result {
        let cents = self.0.cents();
        let sign = if cents < 0 { "-" } else { "" };
        let units = cents.unsigned_abs() / 100;
        let rest = cents.unsigned_abs() % 100;
        write!(f, "{sign}{units}.{rest:02}")
    }
}

// The terms of a movement in words.
#[derive(Clone, Copy)]
struct TermsInWords(Terms);

impl fmt::Display for TermsInWords {
    fn fmt<W: fmt::Write>(&self, f: &mut fmt::Formatter<W>) -> fmt::Result {
        let amount = Money(self.0.amount);
        let effective = self.0.effective;
        write!(f, "{amount} on {effective}")
    }
}

// An entry in words.
#[derive(Clone, Copy)]
struct InWords(Entry);

impl fmt::Display for InWords {
    fn fmt<W: fmt::Write>(&self, f: &mut fmt::Formatter<W>) -> fmt::Result {
        let booked = self.0.booked;
        let claim = self.0.claim;
        write!(f, "{booked}, claim {claim}: ")?;
        match self.0.content {
            Content::Opening(claim_days) => {
                let days = DaysInWords(claim_days);
                write!(f, "opened, {days}")
            }
            Content::Payment(terms) => {
                let terms = TermsInWords(terms);
                write!(f, "paid {terms}")
            }
            Content::ReserveChange(terms) => {
                let terms = TermsInWords(terms);
                write!(f, "case reserve changed by {terms}")
            }
            Content::Correction(correction) => {
                let names = correction.names;
                let terms = TermsInWords(correction.terms());
                write!(f, "entry {names} corrected to {terms}")
            }
            Content::Void(void) => {
                let names = void.names;
                write!(f, "entry {names} taken back")
            }
            Content::Redating(claim_days) => {
                let days = DaysInWords(claim_days);
                write!(f, "new claim days, {days}")
            }
        }
    }
}

// An entry with its number, in words.
#[derive(Clone, Copy)]
struct NumberedInWords(NumberedEntry);

impl fmt::Display for NumberedInWords {
    fn fmt<W: fmt::Write>(&self, f: &mut fmt::Formatter<W>) -> fmt::Result {
        let number = self.0.number;
        let entry = InWords(self.0.entry);
        write!(f, "entry {number}: {entry}")
    }
}

// What was looked for, where it was found.
#[derive(Clone, Copy)]
struct Found<T>(Option<T>);

impl<T: fmt::Display> fmt::Display for Found<T> {
    fn fmt<W: fmt::Write>(&self, f: &mut fmt::Formatter<W>) -> fmt::Result {
        match &self.0 {
            Some(found) => found.fmt(f),
            None => write!(f, "none"),
        }
    }
}

impl fmt::Display for Request {
    fn fmt<W: fmt::Write>(&self, f: &mut fmt::Formatter<W>) -> fmt::Result {
        match *self {
            Request::Add(entry) => {
                let entry = InWords(entry);
                write!(f, "Book {entry}")
            }
            Request::Length => write!(f, "How many entries are there?"),
            Request::Capacity => write!(f, "How many entries may there be?"),
            Request::ClaimBound => write!(f, "Which is the highest claim number?"),
            Request::Openings => write!(f, "How many claims were opened?"),
            Request::Entry(number) => write!(f, "Which entry has number {number}?"),
            Request::NextOfClaim { claim, after } => write!(
                f,
                "Which entry of claim {claim} is the first after {after}?"
            ),
            Request::EntriesOfClaim(claim) => write!(f, "How many entries has claim {claim}?"),
        }
    }
}

impl fmt::Display for Answer {
    fn fmt<W: fmt::Write>(&self, f: &mut fmt::Formatter<W>) -> fmt::Result {
        match *self {
            Answer::Added(Ok(number)) => write!(f, "booked as entry {number}"),
            Answer::Added(Err(fault)) => write!(f, "refused: {fault}"),
            Answer::Count(count) => write!(f, "{count}"),
            Answer::Entry(found) => Found(found.map(InWords)).fmt(f),
            Answer::Numbered(found) => Found(found.map(NumberedInWords)).fmt(f),
        }
    }
}
