// Keeping the book on a register.
use crate::rows::Rows;
use crate::step::Step;
use anyhow::{Context, anyhow};
use cube::cube::Cube;
use cube::request::{Answer, Request};
use cube::sheet::sheet_length;
use cube::ticket::Ticket;
use register::register::Register;
use std::alloc::Global;
use std::mem;
use values::period::PeriodCohort;

// The mark of the cube's tickets; one cube at a time is kept, so that any number serves.
const MARK: u32 = 1;

// What was answered, the sheet that stood at the end of last year, and the one at the end of the quarter.
#[derive(PartialEq, Drop)]
pub struct Kept {
    pub book: Vec<Answer>,
    pub year_end: Vec<i64>,
    pub quarter: Vec<Answer>,
    pub queries: Vec<Answer>,
    pub sheet: Vec<i64>,
    pub open_drafts: usize,
}

// A cube with the sheet that its calls keep, and a drawer for its tickets.
struct Desk<R> {
    heap: Global,
    cube: Cube<R, PeriodCohort>,
    sheet: Vec<i64>,
    drawer: Vec<Ticket>,
}

impl<R: Register + Drop> Desk<R> {
    // A cube that is started on an empty register.
    fn new(heap: Global, register: R, cohort: PeriodCohort) -> anyhow::Result<Desk<R>> {
        let mut sheet = vec![in heap; 0i64; sheet_length(&cohort)]?;
        let mut cube = Cube::new(register, cohort);
        cube.start(sheet.as_mut_slice(), MARK)
            .context("the cube does not start")?;
        Ok(Desk {
            heap,
            cube,
            sheet,
            drawer: Vec::new(heap),
        })
    }

    // Runs one row of requests.
    fn serve(&mut self, row: &[Step]) -> anyhow::Result<Vec<Answer>> {
        let requests: Vec<Request> = row.iter().map(|step| step.request).collect(self.heap)?;
        self.cube
            .run(
                self.heap,
                self.sheet.as_mut_slice(),
                &mut self.drawer,
                requests.as_slice(),
            )
            .map_err(|_| anyhow!("memory ran out in a row of requests"))
    }

    // Runs the three rows of requests, and hands over the sheet.
    fn serve_all(&mut self, rows: &Rows) -> anyhow::Result<Kept> {
        let book = self.serve(rows.book.as_slice())?;
        let year_end = self.sheet.clone()?;
        let quarter = self.serve(rows.quarter.as_slice())?;
        let queries = self.serve(rows.queries.as_slice())?;
        Ok(Kept {
            book,
            year_end,
            quarter,
            queries,
            sheet: mem::replace(&mut self.sheet, Vec::new(self.heap)),
            open_drafts: self.drawer.len(),
        })
    }

    // Ends the tickets that are left, as a ticket cannot be let go.
    fn close(self) {
        let Desk {
            heap: _,
            mut cube,
            sheet: _,
            drawer,
        } = self;
        cube.drop_all(drawer);
    }
}

// Keeps the book on an empty register.
pub fn keep<R: Register + Drop>(
    heap: Global,
    register: R,
    cohort: PeriodCohort,
    rows: &Rows,
) -> anyhow::Result<Kept> {
    let mut desk = Desk::new(heap, register, cohort)?;
    let kept = desk.serve_all(rows);
    desk.close();
    kept
}
