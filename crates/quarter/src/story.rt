// The parts of the story, each told from what was answered.
use crate::compare::same_cells;
use crate::keeping::Kept;
use crate::rows::Rows;
use crate::table::Shown;
use crate::words::tell;
use anyhow::bail;
use cube::measure::Measure;
use cube::request::Answer;
use values::cohort::LabelledCohort;
use values::day::Day;

const BOOK: &str = "
2. THE BOOK UNTIL THE END OF 2023";

const YEAR_END: &str = "
So the sheet stood at the end of 2023. The program keeps a copy of it for later. In the tables, a
row is labelled by its first month.";

const QUARTER: &str = "
3. JANUARY TO MARCH 2024

A correction is made in two steps. The draft names the entry and hands out a ticket, which lies in
a drawer. A post or a drop takes the ticket by its place there, counted from 0.";

const QUERIES: &str = "
4. THE END OF MARCH 2024";

const RECALLED: &str = "\
Nothing that was booked since has changed them: not the correction, not the payment that was found
late, not claim 6. That a triangle known on and valued at a past day is the sheet that stood then
is proved, for every book and every day.";

const HINDSIGHT: &str = "
LAST YEAR WITH WHAT IS KNOWN TODAY

Known on 31 March, but valued at 31 December: the correction and the payment that was found late
are in it, since they took effect in December. What happened in 2024 is not.";

const REGISTERS: &str = "
5. THE SAME ON BOTH REGISTERS

The book was kept twice: on a flat log, which has the entries one behind the other, and on a paged
register, which keeps the entries of each claim together. The answers above are the flat log's.";

// The value days of the queries.
const LAST_YEAR: u64 = 20231231;

const TODAY: u64 = 20240331;

// What is told: the rows that were asked, and what was answered on one register.
#[derive_where(Clone, Copy)]
pub struct Story<'a, C> {
    pub rt: &'a HostRuntime,
    pub cohort: &'a C,
    pub rows: &'a Rows,
    pub kept: &'a Kept,
}

impl<'a, C: LabelledCohort> Story<'a, C> {
    // A sheet, to be shown as valued at a day.
    fn sheet(&self, cells: &'a [i64], valued: u64) -> anyhow::Result<Shown<'a, C>> {
        let valued = Day::new(valued)?;
        Ok(Shown {
            rt: self.rt,
            cohort: self.cohort,
            cells,
            valued,
        })
    }

    // Says whether the triangles that were drawn are those of a sheet.
    fn tell_same(&self, what: &str, drawn: &[i64], sheet: &[i64]) -> anyhow::Result<()> {
        let rt = self.rt;
        let verdict = if same_cells(drawn, sheet) {
            "equal, cell by cell"
        } else {
            "NOT EQUAL"
        };
        println!(rt; "\nHeld against {what}: {verdict}.")?;
        Ok(())
    }

    // Tells the book until the end of last year, and shows its sheet.
    pub fn tell_book(&self) -> anyhow::Result<()> {
        let rt = self.rt;
        rt.println(BOOK)?;
        tell(rt, &self.rows.book, &self.kept.book)?;
        rt.println(YEAR_END)?;
        self.sheet(&self.kept.year_end, LAST_YEAR)?.show()
    }

    // Tells the quarter.
    pub fn tell_quarter(&self) -> anyhow::Result<()> {
        let rt = self.rt;
        rt.println(QUARTER)?;
        tell(rt, &self.rows.quarter, &self.kept.quarter)?;
        let open = self.kept.open_drafts;
        println!(rt;
            "\n  Tickets left in the drawer: {open}. A program that forgets one does not compile, so its draft\n  is dropped at the end."
        )?;
        Ok(())
    }

    // Tells the queries, and shows the triangles of today beside those of the end of last year.
    pub fn tell_queries(&self) -> anyhow::Result<()> {
        let rt = self.rt;
        rt.println(QUERIES)?;
        tell(rt, &self.rows.queries, &self.kept.queries)?;
        let [
            Answer::Drawn(today),
            Answer::Drawn(then),
            Answer::Drawn(hindsight),
        ] = self.kept.queries.as_slice()
        else {
            bail!("a query drew nothing");
        };
        let today = self.sheet(today.as_slice(), TODAY)?;
        let then = self.sheet(then.as_slice(), LAST_YEAR)?;
        rt.println("\nTODAY, the end of March 2024")?;
        today.show()?;
        self.tell_same(
            "the sheet that the calls kept",
            today.cells,
            &self.kept.sheet,
        )?;
        rt.println("\nTHEN, the end of 2023, drawn again")?;
        then.show()?;
        self.tell_same(
            "the sheet that stood at the end of 2023",
            then.cells,
            &self.kept.year_end,
        )?;
        rt.println(RECALLED)?;
        rt.println("\nTHE TWO SIDE BY SIDE, the sum of each row")?;
        then.show_beside(&today)?;
        rt.println(HINDSIGHT)?;
        self.sheet(hindsight.as_slice(), LAST_YEAR)?
            .show_triangle(Measure::Paid)
    }

    // Says whether another register gave the same.
    pub fn tell_registers(&self, other: &Kept) -> anyhow::Result<()> {
        let rt = self.rt;
        rt.println(REGISTERS)?;
        let book = self.kept.book.len();
        let quarter = self.kept.quarter.len();
        let queries = self.kept.queries.len();
        println!(rt;
            "Answers compared: {book} until the end of 2023, {quarter} in the quarter, {queries} at its end."
        )?;
        let verdict = if self.kept == other {
            "All answers and both sheets agree."
        } else {
            "THEY DO NOT AGREE."
        };
        rt.println(verdict)?;
        Ok(())
    }
}
