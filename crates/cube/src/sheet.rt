// The cells of a sheet.
ghost use Rattle.std.specs.Prelude.{◌≡◌, ◌<◌, ◌≤◌, length};
ghost use Rattle.values.specs.Cohorts.{Inside};
ghost use Rattle.cube.specs.Sheets.{added, added_all, block, cell_in_block, cell_of, claim_shares, measure_index, movement_shares, sheet_length};

use crate::measure::Measure;
use crate::terms::Change;
use register::kind::MovementKind;
use values::claim_days::ClaimDays;
use values::cohort::Cohort;
use values::day::Day;
use values::place::Place;

// The length of a sheet: three measures of rows × columns cells, and one cell more for what lies beyond.
pub fn sheet_length<C: Cohort>(cohort: &C) -> usize
    ensures { result ≡ sheet_length (C.meaning cohort.now) }
{
    3 * (cohort.rows() as usize * cohort.columns() as usize + 1)
}

// The block of a measure, counted from 0.
fn measure_index(measure: Measure) -> usize
    ensures value { result ≡ measure_index measure }
    ensures few { result ≤ 2 }
{
    measure as usize
}

// The cell of a place within a measure's block.
fn cell_in_block<C: Cohort>(cohort: &C, place: Place) -> usize
    requires { Inside (C.meaning cohort.now) place }
    ensures value { result ≡ cell_in_block (C.meaning cohort.now) place }
    ensures within { result < block (C.meaning cohort.now) }
{
    let columns = cohort.columns() as usize;
    match place {
        Place::Cell { row, column } => row as usize * columns + column as usize,
        Place::Beyond => cohort.rows() as usize * columns,
    }
}

// The cell of a measure and a place.
pub(crate) fn cell_of<C: Cohort>(cohort: &C, measure: Measure, place: Place) -> usize
    requires { Inside (C.meaning cohort.now) place }
    ensures value { result ≡ cell_of (C.meaning cohort.now) measure place }
    ensures within { result < sheet_length (C.meaning cohort.now) }
{
    let block = cohort.rows() as usize * cohort.columns() as usize + 1;
    measure_index(measure) * block + cell_in_block(cohort, place)
}

// The cell of a measure at the place of a day under the claim days.
fn cell_at<C: Cohort>(cohort: &C, measure: Measure, claim_days: ClaimDays, day: Day) -> usize
    ensures value { result ≡ cell_of (C.meaning cohort.now) measure ((C.meaning cohort.now).place claim_days day) }
    ensures within { result < sheet_length (C.meaning cohort.now) }
{
    let place = cohort.place(claim_days, day);
    cell_of(cohort, measure, place)
}

// Adds a change to a cell; cell sums wrap modulo 2^64.
fn add_at(sheet: &mut [i64], cell: usize, change: Change)
    requires { cell < length sheet.old }
    ensures { sheet.new ≡ added sheet.old (record { cell = cell; amount = change.cents }) }
{
    sheet[cell] = sheet[cell].wrapping_add(change.cents);
}

// A sheet that is lent, with the cohort that gives it its length.
#[derive(Drop)]
pub(crate) struct Cells<'a, C: Cohort> {
    pub(crate) cohort: &'a C,
    pub(crate) cells: &'a mut [i64],
    ghost whole: { length cells.now ≡ sheet_length (C.meaning cohort.now) },
}

impl<'a, C: Cohort> Cells<'a, C> {
    ghost use Rattle.cube.specs.Cells.{Adds};

    // The cells of a sheet that has the length that the cohort asks.
    pub(crate) fn new(cohort: &'a C, cells: &'a mut [i64]) -> Cells<'a, C>
        requires { length cells.old ≡ sheet_length (C.meaning cohort.now) }
        ensures lent { result.cells.ghost_name ≡ cells.entry.ghost_name }
        ensures cohort { result.cohort.now ≡ cohort.now }
        ensures cells { result.cells.now ≡ cells.old }
    {
        Cells { cohort, cells }
    }

    // Adds a movement's change at the place of its effective day: to paid and incurred, or to incurred only.
    pub(crate) fn add_movement(
        &mut self,
        kind: MovementKind,
        claim_days: ClaimDays,
        effective: Day,
        change: Change,
    )
        ensures { Adds self.old self.new (movement_shares (C.meaning self.old.cohort.now) kind claim_days effective change.cents) }
    {
        let incurred = cell_at(self.cohort, Measure::Incurred, claim_days, effective);
        match kind {
            MovementKind::Paid => {
                let paid = cell_at(self.cohort, Measure::Paid, claim_days, effective);
                add_at(self.cells, paid, change);
                add_at(self.cells, incurred, change);
            }
            MovementKind::Reserved => {
                add_at(self.cells, incurred, change);
            }
        }
    }

    // Adds to the count at the place of the claim's report day.
    pub(crate) fn add_claim(&mut self, claim_days: ClaimDays, change: Change)
        ensures { Adds self.old self.new (claim_shares (C.meaning self.old.cohort.now) claim_days change.cents) }
    {
        let count = cell_at(self.cohort, Measure::Count, claim_days, claim_days.report);
        add_at(self.cells, count, change);
    }
}
