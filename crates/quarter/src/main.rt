// Runs a quarter of claims business on both registers, and tells it step by step.
#![tactic(auto)]

mod asking;
mod book;
mod compare;
mod keeping;
mod opening;
mod quarter;
mod registers;
mod reserves;
mod rows;
mod step;
mod story;
mod table;
mod words;

use registers::{keep_flat, keep_paged};
use rows::make_rows;
use story::Story;

// The parts of the story in their order.
fn run(rt: &HostRuntime) -> anyhow::Result<()> {
    opening::show_purpose(rt)?;
    let cohort = opening::show_values(rt)?;
    opening::show_place(rt, &cohort)?;
    let rows = make_rows(rt.alloc())?;
    let flat = keep_flat(rt.alloc(), cohort, &rows)?;
    let paged = keep_paged(rt.alloc(), cohort, &rows)?;
    let story = Story {
        rt,
        cohort: &cohort,
        rows: &rows,
        kept: &flat,
    };
    story.tell_book()?;
    story.tell_quarter()?;
    story.tell_queries()?;
    story.tell_registers(&paged)
}

// An error of writing, or want of memory, is printed and ends the program with status 1.
fn main(rt: HostRuntime) -> anyhow::Result<()> {
    run(&rt)
}
