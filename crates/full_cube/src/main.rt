// The cube at full size on both registers: a large book is booked, and its triangles are queried as known on several days.
#![tactic(auto)]

mod book;
mod booking;
mod figures;
mod plan;
mod questions;
mod refusal;
mod report;
mod request;
mod session;
mod tally;
mod text;
mod turn;

use book::large_book;
use cube::sheet::sheet_length;
use memory::flat::FlatMemory;
use memory::paged::PagedMemory;
use plan::{Plan, Task};
use register::limits::{MOST_CLAIMS, MOST_ENTRIES};
use report::show_report;
use request::Request;
use samples::leftover::leftover;
use session::{Report, book_and_query, book_only, quarters, write_book};
use std::alloc::Global;

// Runs the flat log.
// A twin of `run_paged`: one function for both would need a visitor, since a register borrows its memory, and be longer.
fn run_flat(
    heap: Global,
    requests: &[Request],
    sheet: &mut [i64],
    plan: Plan,
) -> anyhow::Result<Report> {
    let mut memory = FlatMemory::filled(heap, leftover()?, MOST_ENTRIES, MOST_CLAIMS)?;
    for _ in 1..plan.bookings {
        book_only(memory.register(), sheet, requests)?;
    }
    book_and_query(heap, memory.register(), sheet, requests, plan.queries)
}

// Runs the paged register.
fn run_paged(
    heap: Global,
    requests: &[Request],
    sheet: &mut [i64],
    plan: Plan,
) -> anyhow::Result<Report> {
    let mut memory = PagedMemory::filled(heap, leftover()?, MOST_ENTRIES, MOST_CLAIMS)?;
    for _ in 1..plan.bookings {
        book_only(memory.register(), sheet, requests)?;
    }
    book_and_query(heap, memory.register(), sheet, requests, plan.queries)
}

// Runs both registers, and tells whether every figure and every cell of the live sheets are the same.
fn run_both(rt: &HostRuntime, requests: &[Request], plan: Plan) -> anyhow::Result<()> {
    let cells = sheet_length(&quarters()?);
    let mut flat_sheet = vec![in rt.alloc(); 0i64; cells]?;
    let mut paged_sheet = vec![in rt.alloc(); 0i64; cells]?;
    let flat = run_flat(rt.alloc(), requests, flat_sheet.as_mut_slice(), plan)?;
    let paged = run_paged(rt.alloc(), requests, paged_sheet.as_mut_slice(), plan)?;
    show_report(rt, "flat log", &flat)?;
    if flat == paged && flat_sheet.as_slice() == paged_sheet.as_slice() {
        println!(rt; "paged register")?;
        println!(rt; "  the same in every figure, and in every cell of the live sheet")?;
        return Ok(());
    }
    show_report(rt, "paged register", &paged)?;
    println!(rt; "The registers do not agree.")?;
    Ok(())
}

// Writes the book out, with the answers of a cube over a flat log.
fn write_out(rt: &HostRuntime, requests: &[Request], sheet: &mut [i64]) -> anyhow::Result<()> {
    let mut memory = FlatMemory::filled(rt.alloc(), leftover()?, MOST_ENTRIES, MOST_CLAIMS)?;
    write_book(rt, memory.register(), sheet, requests)
}

fn run(rt: &HostRuntime) -> anyhow::Result<()> {
    let heap = rt.alloc();
    let plan = Plan::from_arguments(rt)?;
    let book = large_book(heap, plan.size)?;
    let requests = book.as_slice();
    let mut cells = vec![in heap; 0i64; sheet_length(&quarters()?)]?;
    let sheet = cells.as_mut_slice();
    match plan.task {
        Task::Flat => show_report(rt, "flat log", &run_flat(heap, requests, sheet, plan)?),
        Task::Paged => show_report(
            rt,
            "paged register",
            &run_paged(heap, requests, sheet, plan)?,
        ),
        Task::Both => run_both(rt, requests, plan),
        Task::Book => write_out(rt, requests, sheet),
    }
}

fn main(rt: HostRuntime) -> anyhow::Result<()> {
    run(&rt)
}
