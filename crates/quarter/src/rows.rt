// The rows of requests that the program runs.
use crate::book::{year_2021, year_2022, year_2023};
use crate::quarter::{february, january, march, queries};
use crate::step::Step;
use std::alloc::Global;

// What is asked until the end of last year, in the quarter, and at its end.
#[derive(Drop)]
pub struct Rows {
    pub book: Vec<Step>,
    pub quarter: Vec<Step>,
    pub queries: Vec<Step>,
}

// Makes the requests of the numbers that are written in the program.
pub fn make_rows(heap: Global) -> anyhow::Result<Rows> {
    Ok(Rows {
        book: [year_2021(heap)?, year_2022(heap)?, year_2023(heap)?].concat(heap)?,
        quarter: [january(heap)?, february(heap)?, march(heap)?].concat(heap)?,
        queries: queries(heap)?,
    })
}
