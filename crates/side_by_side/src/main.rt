// Keeps the same small book of claims on both registers, and holds their answers against each other.
#![tactic(auto)]

mod book;
mod compare;
mod keep;
mod request;
mod serve;
mod text;

use book::small_book;
use keep::{Desk, Tally};
use memory::flat::FlatMemory;
use memory::paged::PagedMemory;
use samples::leftover::leftover;

// How many entries both registers take.
const ENTRIES: u32 = 10;

// How many claims both registers take.
const CLAIMS: u32 = 3;

// What the program does, for a reader who knows neither registers nor code.
const OPENING: &str = "\
A SMALL BOOK OF CLAIMS, KEPT TWICE

A register keeps the entries of a book of claims, numbered from 1 in the order of booking. An
entry opens a claim, pays money, changes the case reserve, corrects or takes back an earlier
payment or reserve change, or gives the claim new days.

There are two registers. The flat log puts the entries one behind the other, and looks through
them for those of a claim. The paged register gives each claim pages of its own, so that it
goes straight from one entry of a claim to the next. Both promise the same answers. This
program keeps the same book on both, puts every question to both, and compares what they
answer.
";

// Says whether the registers agreed.
fn show_verdict(rt: &HostRuntime, tally: Tally) -> anyhow::Result<()> {
    let Tally { asked, differing } = tally;
    println!(rt; "\nVERDICT\n")?;
    if differing == 0 {
        println!(rt; "The registers agree: {asked} requests, and the same answer to each.")?;
    } else {
        println!(rt;
            "The registers do not agree: {asked} requests, {differing} answered differently."
        )?;
    }
    Ok(())
}

fn run(rt: &HostRuntime) -> anyhow::Result<()> {
    println!(rt; "{OPENING}")?;
    println!(rt;
        "Both get memory for {ENTRIES} entries and {CLAIMS} claims, full of what other work left there."
    )?;
    let mut flat = FlatMemory::filled(rt.alloc(), leftover()?, ENTRIES, CLAIMS)?;
    let mut paged = PagedMemory::filled(rt.alloc(), leftover()?, ENTRIES, CLAIMS)?;
    let tally = Desk::new(rt, flat.register(), paged.register()).keep(&small_book()?)?;
    show_verdict(rt, tally)
}

fn main(rt: HostRuntime) -> anyhow::Result<()> {
    run(&rt)
}
