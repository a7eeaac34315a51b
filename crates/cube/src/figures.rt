// Reading figures from a sheet.
ghost use Rattle.std.specs.Prelude.{◌≡◌, IfOk};
ghost use Rattle.std.specs.Option.{option_map};
ghost use Rattle.cube.specs.Figures.{beyond_in, row_in, running_sum, running_sums};

use crate::measure::Measure;
use crate::sheet::{cell_of, sheet_length};
use std::alloc::{AllocError, Global};
use values::cohort::Cohort;
use values::place::Place;

// The cells of a row: the part of the sheet that starts with the row's first cell. None for a row that the cohort does not
// have, and for a sheet of another length than it asks.
pub fn row_cells<'a, C: Cohort>(
    cohort: &C,
    sheet: &'a [i64],
    measure: Measure,
    row: u32,
) -> Option<&'a [i64]>
    ensures { option_map (λ x. x.now) result ≡ row_in (C.meaning cohort.now) sheet.now measure row }
{
    if sheet.len() != sheet_length(cohort) {
        return None;
    }
    if cohort.rows() <= row {
        return None;
    }
    let start = cell_of(cohort, measure, Place::Cell { row, column: 0 });
    Some(&sheet[start..start + cohort.columns() as usize])
}

// What a measure has beyond the triangle, none for a sheet of another length than the cohort asks.
pub fn beyond_cell<C: Cohort>(cohort: &C, sheet: &[i64], measure: Measure) -> Option<i64>
    ensures { result ≡ beyond_in (C.meaning cohort.now) sheet.now measure }
{
    if sheet.len() != sheet_length(cohort) {
        return None;
    }
    Some(sheet[cell_of(cohort, measure, Place::Beyond)])
}

// The sum of the first `n` cells of a row. Sums wrap modulo 2^64.
pub fn running_sum(row: &[i64], n: usize) -> i64
    ensures { result ≡ running_sum row.now n }
{
    row.iter()
        .take(n)
        .fold(0i64, |sum, cell| sum.wrapping_add(*cell))
}

// The running sums along a row, each of the cells up to its own.
pub fn running_sums(heap: Global, row: &[i64]) -> Result<Vec<i64>, AllocError>
    ensures { IfOk result (λ v. v.items ≡ running_sums row.now) }
{
    row.iter()
        .scan(0i64, |total, cell| {
            *total = total.wrapping_add(*cell);
            Some(*total)
        })
        .collect(heap)
}
