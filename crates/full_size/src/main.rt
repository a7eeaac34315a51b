// A run at full size on both registers: a large book is booked, and read back by claim and by number.
#![tactic(auto)]

mod book;
mod plan;
mod reading;
mod report;
mod sums;

use book::large_book;
use memory::flat::FlatMemory;
use memory::paged::PagedMemory;
use plan::{Kind, Plan};
use reading::book_all;
use register::entry::Entry;
use register::limits::{MOST_CLAIMS, MOST_ENTRIES};
use report::{Report, run_on, show_report};
use samples::leftover::leftover;
use std::alloc::Global;

// Runs the flat log.
// A twin of `run_paged`: one function for both would need a visitor, since a register borrows its memory, and be longer.
fn run_flat(heap: Global, book: &[Entry], plan: Plan) -> anyhow::Result<Report> {
    let mut memory = FlatMemory::filled(heap, leftover()?, MOST_ENTRIES, MOST_CLAIMS)?;
    for _ in 1..plan.bookings {
        let _ = book_all(&mut memory.register(), book);
    }
    Ok(run_on(&mut memory.register(), book, plan))
}

// Runs the paged register.
fn run_paged(heap: Global, book: &[Entry], plan: Plan) -> anyhow::Result<Report> {
    let mut memory = PagedMemory::filled(heap, leftover()?, MOST_ENTRIES, MOST_CLAIMS)?;
    for _ in 1..plan.bookings {
        let _ = book_all(&mut memory.register(), book);
    }
    Ok(run_on(&mut memory.register(), book, plan))
}

// Runs both registers, and tells whether they answer the same.
fn run_both(rt: &HostRuntime, book: &[Entry], plan: Plan) -> anyhow::Result<()> {
    let flat = run_flat(rt.alloc(), book, plan)?;
    let paged = run_paged(rt.alloc(), book, plan)?;
    show_report(rt, "flat log", flat)?;
    show_report(rt, "paged register", paged)?;
    if flat == paged {
        println!(rt; "The registers agree.")?;
    } else {
        println!(rt; "The registers do not agree.")?;
    }
    Ok(())
}

fn run(rt: &HostRuntime) -> anyhow::Result<()> {
    let plan = Plan::from_arguments(rt)?;
    let entries = large_book(rt.alloc(), plan.size)?;
    let book = entries.as_slice();
    println!(rt;
        "A book of {} entries over {} claims.",
        book.len(),
        plan.size.claims
    )?;
    match plan.kind {
        Kind::Flat => show_report(rt, "flat log", run_flat(rt.alloc(), book, plan)?),
        Kind::Paged => show_report(rt, "paged register", run_paged(rt.alloc(), book, plan)?),
        Kind::Both => run_both(rt, book, plan),
    }
}

fn main(rt: HostRuntime) -> anyhow::Result<()> {
    run(&rt)
}
