// The two registers, over memory that is made for them.
// Twins, since a trait over both memories would need an associated type with a lifetime parameter, which the language does not have.
use crate::keeping::{Kept, keep};
use crate::rows::Rows;
use memory::flat::FlatMemory;
use memory::paged::PagedMemory;
use samples::leftover::leftover;
use std::alloc::Global;
use values::period::PeriodCohort;

// How many entries and how many claims both take.
const ENTRIES: u32 = 40;

const CLAIMS: u32 = 8;

// Keeps the book on a flat log.
pub fn keep_flat(heap: Global, cohort: PeriodCohort, rows: &Rows) -> anyhow::Result<Kept> {
    let mut memory = FlatMemory::filled(heap, leftover()?, ENTRIES, CLAIMS)?;
    keep(heap, memory.register(), cohort, rows)
}

// Keeps the book on a paged register.
pub fn keep_paged(heap: Global, cohort: PeriodCohort, rows: &Rows) -> anyhow::Result<Kept> {
    let mut memory = PagedMemory::filled(heap, leftover()?, ENTRIES, CLAIMS)?;
    keep(heap, memory.register(), cohort, rows)
}
