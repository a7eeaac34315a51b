// Triangles as tables.
use crate::reserves::case_reserve;
use cube::figures::{beyond_cell, row_cells, running_sum, running_sums};
use cube::measure::Measure;
use std::fmt;
use values::claim_days::ClaimDays;
use values::cohort::LabelledCohort;
use values::day::Day;
use values::place::Place;
use wording::money::Money;

// The heading of two sheets side by side.
const BESIDE: &str = "
                 PAID                  INCURRED                    CLAIMS
                 then        today         then        today         then        today";

// The order in which they are shown; an array of its own, since each is all that the loops need and nothing lies beside it.
const MEASURES: [Measure; 3] = [Measure::Paid, Measure::Incurred, Measure::Count];

// The heading of a measure's triangle.
fn title(measure: Measure) -> &'static str {
    match measure {
        Measure::Paid => "PAID",
        Measure::Incurred => "INCURRED",
        Measure::Count => "CLAIMS",
    }
}

// A figure of a measure: claims are counted, and the rest is money.
#[derive(Clone, Copy)]
struct Figure {
    measure: Measure,
    cell: i64,
}

impl fmt::Display for Figure {
    fn fmt<W: fmt::Write>(&self, f: &mut fmt::Formatter<W>) -> fmt::Result {
        match self.measure {
            Measure::Count => self.cell.fmt(f),
            Measure::Paid | Measure::Incurred => Money(self.cell).fmt(f),
        }
    }
}

// A sheet to be shown: where it is printed, the cohort that gives its shape, its cells, and its value day.
#[derive_where(Clone, Copy)]
pub struct Shown<'a, C> {
    pub rt: &'a HostRuntime,
    pub cohort: &'a C,
    pub cells: &'a [i64],
    pub valued: Day,
}

impl<C: LabelledCohort> Shown<'_, C> {
    // The cells of a measure's row.
    fn row(&self, measure: Measure, row: u32) -> Option<&[i64]> {
        row_cells(self.cohort, self.cells, measure, row)
    }

    // The day on which a row begins.
    fn first_day(&self, row: u32) -> Option<Day> {
        let label = self.cohort.label(row)?;
        Day::new(u64::from(label) * 100 + 1).ok()
    }

    // How many columns of a row have begun by the value day. The others are still to come, and are not shown.
    fn begun(&self, row: u32) -> usize {
        let Some(first) = self.first_day(row).filter(|first| *first <= self.valued) else {
            return 0;
        };
        let claim_days = ClaimDays {
            inception: first,
            occurrence: first,
            report: first,
        };
        match self.cohort.place(claim_days, self.valued) {
            Place::Cell { row: _, column } => column as usize + 1,
            Place::Beyond => self.cohort.columns() as usize,
        }
    }

    // Prints a measure's title and the number of each column.
    fn show_heading(&self, measure: Measure) -> anyhow::Result<()> {
        let rt = self.rt;
        let title = title(measure);
        print!(rt; "\n  {title:<20}")?;
        for column in 0..self.cohort.columns() {
            let name = format!(in rt.alloc(); "column {column}")?;
            print!(rt; "  {name:>11}")?;
        }
        println!(rt)?;
        Ok(())
    }

    // Prints figures of a row, after what they are.
    fn show_figures(&self, what: &str, measure: Measure, figures: &[i64]) -> anyhow::Result<()> {
        let rt = self.rt;
        print!(rt; "  {what:<20}")?;
        for &cell in figures {
            let figure = Figure { measure, cell };
            print!(rt; "  {figure:>11}")?;
        }
        println!(rt)?;
        Ok(())
    }

    // Prints the cells of a row and their running sums, as far as its columns have begun.
    fn show_row(&self, measure: Measure, row: u32) -> anyhow::Result<()> {
        let (Some(label), Some(cells)) = (self.cohort.label(row), self.row(measure, row)) else {
            return Ok(());
        };
        let begun = &cells[..self.begun(row).min(cells.len())];
        if begun.is_empty() {
            return Ok(());
        }
        let heap = self.rt.alloc();
        let name = format!(in heap; "{label}  in the year")?;
        self.show_figures(name.as_str(), measure, begun)?;
        let sums = running_sums(heap, begun)?;
        self.show_figures("        to its end", measure, sums.as_slice())
    }

    // Prints the triangle of a measure row by row, and last what lies beyond.
    pub fn show_triangle(&self, measure: Measure) -> anyhow::Result<()> {
        let rt = self.rt;
        self.show_heading(measure)?;
        for row in 0..self.cohort.rows() {
            self.show_row(measure, row)?;
        }
        if let Some(cell) = beyond_cell(self.cohort, self.cells, measure) {
            let beyond = Figure { measure, cell };
            println!(rt; "  beyond                {beyond:>11}")?;
        }
        Ok(())
    }

    // Prints the case reserves that are left, row by row.
    fn show_reserves(&self) -> anyhow::Result<()> {
        let rt = self.rt;
        println!(rt; "\n  CASE RESERVES, incurred less paid")?;
        for row in 0..self.cohort.rows() {
            if let (Some(label), Some(paid), Some(incurred)) = (
                self.cohort.label(row),
                self.row(Measure::Paid, row),
                self.row(Measure::Incurred, row),
            ) {
                let left = Money(case_reserve(paid, incurred));
                println!(rt; "  {label}                {left:>11}")?;
            }
        }
        Ok(())
    }

    // Prints the three triangles, and the case reserves.
    pub fn show(&self) -> anyhow::Result<()> {
        for measure in MEASURES {
            self.show_triangle(measure)?;
        }
        self.show_reserves()
    }

    // What a row has of a measure in all its columns.
    fn total(&self, measure: Measure, row: u32) -> Option<Figure> {
        let cells = self.row(measure, row)?;
        let cell = running_sum(cells, cells.len());
        Some(Figure { measure, cell })
    }

    // Prints this sheet and a later one side by side: for each row, what it has of each measure in all its columns.
    pub fn show_beside(&self, later: &Shown<C>) -> anyhow::Result<()> {
        let rt = self.rt;
        rt.println(BESIDE)?;
        for row in 0..self.cohort.rows() {
            let Some(label) = self.cohort.label(row) else {
                continue;
            };
            print!(rt; "  {label}")?;
            for measure in MEASURES {
                if let (Some(then), Some(today)) = (
                    self.total(measure, row),
                    later.total(measure, row),
                ) {
                    print!(rt; "  {then:>11}  {today:>11}")?;
                }
            }
            println!(rt)?;
        }
        Ok(())
    }
}
