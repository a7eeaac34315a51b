// The shape of a triangle of one measure: a cell for each row and column, row by row, and a last one for what is beyond.
ghost use Rattle.std.specs.Prelude.{◌≡◌, ◌<◌};
ghost use Rattle.walkthrough.specs.Shapes.{cell_count, cell_index, row_start, shape_of};

use values::cohort::Cohort;
use values::place::Place;

// A number of rows and a number of columns.
#[derive(Clone, Copy)]
pub struct Shape {
    pub rows: u32,
    pub columns: u32,
}

impl Shape {
    // The shape that a cohort gives a triangle.
    pub fn of<C: Cohort>(cohort: &C) -> Shape
        ensures { result ≡ shape_of (C.Cohort.meaning cohort.now) }
    {
        Shape {
            rows: cohort.rows(),
            columns: cohort.columns(),
        }
    }

    // The cells of a row begin after those of the rows before it.
    pub fn row_start(self, row: u32) -> usize
        ensures { result ≡ row_start self row }
    {
        row as usize * self.columns as usize
    }

    // The number of cells, with the one for what is beyond.
    pub fn cell_count(self) -> usize
        ensures { result ≡ cell_count self }
    {
        self.row_start(self.rows) + 1
    }

    // Where a place lies among the cells. A row or a column that the triangle does not have is beyond it.
    pub fn cell_index(self, place: Place) -> usize
        ensures value { result ≡ cell_index self place }
        ensures within { result < cell_count self }
    {
        match place {
            Place::Cell { row, column } if row < self.rows && column < self.columns =>
                self.row_start(row) + column as usize,
            _ => self.row_start(self.rows),
        }
    }
}
