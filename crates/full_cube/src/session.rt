// A cube over a register of whichever kind, booked and queried.
use crate::booking::count_until;
use crate::figures::{SheetFigures, sheet_figures};
use crate::questions::{Answered, ComparedDays, QUESTIONS, Question};
use crate::request::Request;
use crate::tally::Tally;
use crate::text::Line;
use anyhow::Context;
use cube::cube::Cube;
use register::register::Register;
use std::alloc::{AllocError, Global};
use values::day::Day;
use values::period::{Anchor, PeriodCohort};

// The mark of the cube's tickets; with one cube any number does.
const MARK: u32 = 1;

// A started cube, its live sheet, and the counts of what was asked of it.
#[derive(Drop)]
pub struct Session<'a, R, C> {
    pub cube: Cube<R, C>,
    pub sheet: &'a mut [i64],
    pub tally: Tally,
}

// What came of a book: the counts, the figures of the live sheet and of the answers to the questions, and whether two of these
// were, cell by cell, the live sheet: the one as known on the kept day, when that day ended, and the one as known on the last
// day, at the end.
#[derive(Clone, Copy, PartialEq)]
pub struct Report {
    pub tally: Tally,
    pub live: SheetFigures,
    pub answers: [Answered; QUESTIONS],
    pub days: ComparedDays,
    pub stood: bool,
    pub current: bool,
}

// Quarters by occurrence: ten years from January 2015, each followed over forty quarters.
pub fn quarters() -> anyhow::Result<PeriodCohort> {
    PeriodCohort::new(Anchor::Occurrence, 3, 2015, 1, 40, 40).context("there is no such cohort")
}

impl<'a, R: Register + Drop> Session<'a, R, PeriodCohort> {
    // A cube over an empty register is started.
    fn start(register: R, sheet: &'a mut [i64]) -> anyhow::Result<Session<'a, R, PeriodCohort>> {
        let mut cube = Cube::new(register, quarters()?);
        cube.start(sheet, MARK).context("the cube does not start")?;
        Ok(Session {
            cube,
            sheet,
            tally: Tally::default(),
        })
    }

    // Whether the answer as known on a day and valued at it is a sheet, cell by cell.
    fn answers_with(
        &self,
        heap: Global,
        day: Day,
        answer: &mut [i64],
        sheet: &[i64],
    ) -> anyhow::Result<bool> {
        let question = Question {
            known: day,
            valued: day,
        };
        self.ask(heap, question, answer)?;
        Ok(*answer == *sheet)
    }

    // Puts the questions, and compares two answers: with the sheet that was kept, and so many times with the live one.
    fn report(
        &self,
        heap: Global,
        days: ComparedDays,
        kept: &[i64],
        queries: u32,
    ) -> anyhow::Result<Report> {
        let mut cells = vec![in heap; 0i64; self.sheet.len()]?;
        let answer = cells.as_mut_slice();
        let answers = self.ask_all(heap, answer)?;
        let stood = self.answers_with(heap, days.kept, answer, kept)?;
        // each query is put, also once one was not the live sheet, so that as many are timed
        let current = (0..queries).try_fold(true, |current, _| {
            self.answers_with(heap, days.last, answer, self.sheet)
                .map(|same| same && current)
        })?;
        Ok(Report {
            tally: self.tally,
            live: sheet_figures(self.sheet),
            answers,
            days,
            stood,
            current,
        })
    }

    // A copy of the live sheet.
    fn copy_sheet(&self, heap: Global) -> Result<Vec<i64>, AllocError> {
        self.sheet.to_vec(heap)
    }
}

// Books the requests, and nothing more.
pub fn book_only<R: Register + Drop>(
    register: R,
    sheet: &mut [i64],
    requests: &[Request],
) -> anyhow::Result<()> {
    let mut session = Session::start(register, sheet)?;
    session.serve_all(requests);
    Ok(())
}

// Books the requests, keeps a copy of the sheet when the kept day ends, and queries.
pub fn book_and_query<R: Register + Drop>(
    heap: Global,
    register: R,
    sheet: &mut [i64],
    requests: &[Request],
    queries: u32,
) -> anyhow::Result<Report> {
    let days = ComparedDays::new()?;
    let mut session = Session::start(register, sheet)?;
    let (before, after) = requests.split_at(count_until(requests, days.kept));
    session.serve_all(before);
    let kept = session.copy_sheet(heap)?;
    session.serve_all(after);
    session.report(heap, days, kept.as_slice(), queries)
}

// Books the requests, and writes each with its answer on a line.
pub fn write_book<R: Register + Drop>(
    rt: &HostRuntime,
    register: R,
    sheet: &mut [i64],
    requests: &[Request],
) -> anyhow::Result<()> {
    let mut session = Session::start(register, sheet)?;
    for request in requests {
        let line = Line {
            request: *request,
            answer: session.serve(*request),
        };
        println!(rt; "{line}")?;
    }
    Ok(())
}
