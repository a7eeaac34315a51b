// What a run found, and how it is told.
use crate::plan::Plan;
use crate::reading::{book_all, read_all, walk_claims};
use crate::sums::Sums;
use register::entry::Entry;
use register::register::Register;
use std::fmt;

// What one register answered.
#[derive(Clone, Copy, PartialEq)]
pub struct Report {
    pub capacity: u32,
    pub claim_bound: u32,
    pub accepted: u64,
    pub len: u32,
    pub openings: u32,
    pub walked: Sums,
    pub read: Sums,
}

// Books the book on a register and reads it back as often as planned.
pub fn run_on<R: Register>(register: &mut R, book: &[Entry], plan: Plan) -> Report {
    let accepted = book_all(register, book);
    let mut walked = Sums::default();
    for _ in 0..plan.walks {
        walked = walk_claims(register, plan.size.claims, walked);
    }
    let mut read = Sums::default();
    for _ in 0..plan.reads {
        read = read_all(register, read);
    }
    Report {
        capacity: register.capacity(),
        claim_bound: register.claim_bound(),
        accepted,
        len: register.len(),
        openings: register.openings(),
        walked,
        read,
    }
}

impl fmt::Display for Sums {
    fn fmt<W: fmt::Write>(&self, f: &mut fmt::Formatter<W>) -> fmt::Result {
        let Sums {
            entries,
            numbers,
            claims,
            booked,
            cents,
        } = *self;
        let cents = cents.cast_signed();
        write!(
            f,
            "{entries} entries; sums of numbers {numbers}, claims {claims}, booking days {booked}, cents {cents}"
        )
    }
}

// Prints what one register answered.
pub fn show_report(rt: &HostRuntime, name: &str, report: Report) -> anyhow::Result<()> {
    let Report {
        capacity,
        claim_bound,
        accepted,
        len,
        openings,
        walked,
        read,
    } = report;
    println!(rt; "{name}: capacity {capacity}, claim bound {claim_bound}")?;
    println!(rt;
        "  booked     {accepted} entries accepted; length {len}, {openings} claims opened"
    )?;
    println!(rt; "  by claim   {walked}")?;
    println!(rt; "  by number  {read}")?;
    Ok(())
}
