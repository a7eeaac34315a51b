// What the book is asked once it is booked.
use crate::figures::{SheetFigures, sheet_figures};
use crate::session::Session;
use anyhow::Context;
use register::register::Register;
use std::alloc::Global;
use values::cohort::Cohort;
use values::day::Day;
use values::fault::ValueFault;

// A question for the triangles of the entries known on a day, valued at a day.
#[derive(Clone, Copy, PartialEq)]
pub struct Question {
    pub known: Day,
    pub valued: Day,
}

// A question with the figures of its answer.
#[derive(Clone, Copy, PartialEq)]
pub struct Answered {
    pub question: Question,
    pub figures: SheetFigures,
}

// The day at whose end the live sheet is kept, for an answer to be compared with it.
const KEPT_DAY: u64 = 20_191_231;
// The last day of the book, by which every entry is booked.
const LAST_DAY: u64 = 20_241_231;
// How many questions there are.
pub const QUESTIONS: usize = 6;
// The questions, each by the numbers of its days, known and valued: as known and valued at the ends of three past years and at
// the end of the book; and valued at one day as that was known later. Numbers, since the making of a day may fail.
const ASKED: [(u64, u64); QUESTIONS] = [
    (20_161_231, 20_161_231),
    (KEPT_DAY, KEPT_DAY),
    (20_221_231, 20_221_231),
    (LAST_DAY, LAST_DAY),
    (20_221_231, KEPT_DAY),
    (LAST_DAY, KEPT_DAY),
];

// The two days of which an answer is compared with the live sheet.
#[derive(Clone, Copy, PartialEq)]
pub struct ComparedDays {
    pub kept: Day,
    pub last: Day,
}

impl ComparedDays {
    pub fn new() -> Result<ComparedDays, ValueFault> {
        Ok(ComparedDays {
            kept: Day::new(KEPT_DAY)?,
            last: Day::new(LAST_DAY)?,
        })
    }
}

impl<R: Register, C: Cohort> Session<'_, R, C> {
    // Puts a question to the cube, whose answer goes to a sheet of its own.
    pub fn ask(&self, heap: Global, question: Question, answer: &mut [i64]) -> anyhow::Result<()> {
        self.cube
            .query(heap, question.known, question.valued, answer)
            .ok()
            .context("a query is refused")
    }

    // Puts the question with these day numbers, known and valued, to the cube.
    fn answered(
        &self,
        heap: Global,
        (known, valued): (u64, u64),
        answer: &mut [i64],
    ) -> anyhow::Result<Answered> {
        let question = Question {
            known: Day::new(known)?,
            valued: Day::new(valued)?,
        };
        self.ask(heap, question, answer)?;
        Ok(Answered {
            question,
            figures: sheet_figures(answer),
        })
    }

    // Puts every question to the cube.
    pub fn ask_all(
        &self,
        heap: Global,
        answer: &mut [i64],
    ) -> anyhow::Result<[Answered; QUESTIONS]> {
        let mut answers = [self.answered(heap, ASKED[0], answer)?; QUESTIONS];
        // by index: for an iterator that lends the answers, which hold days, the check finds no proof that its loans end
        for index in 1..QUESTIONS {
            answers[index] = self.answered(heap, ASKED[index], answer)?;
        }
        Ok(answers)
    }
}
