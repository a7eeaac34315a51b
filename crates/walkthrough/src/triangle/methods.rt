// Making a triangle, adding to it and reading it.
ghost use Rattle.std.specs.Prelude.{◌≡◌, replicate, pos, IfOk, slice_index_or};
ghost use Rattle.std.specs.Option.{option_map};
ghost use Rattle.walkthrough.specs.Shapes.{cell_count, cell_index};
ghost use Rattle.walkthrough.specs.Triangles.{added_at, row_in};

use super::Triangle;
use crate::shape::Shape;
use std::alloc::{AllocError, Global};
use values::amount::Amount;
use values::place::Place;

impl Triangle {
    // The triangle of a shape with 0 in every cell.
    pub fn new(heap: Global, shape: Shape) -> Result<Triangle, AllocError>
        ensures { IfOk result (λ t. (t.shape ≡ shape) × (t.cells.items ≡ replicate (cell_count shape) (pos 0))) }
    {
        let cells = vec![in heap; 0; shape.cell_count()]?;
        Ok(Triangle { shape, cells })
    }

    // Adds an amount at a place, and tells what the cell there then holds. Sums wrap modulo 2^64.
    pub fn add(&mut self, place: Place, amount: Amount) -> i64
        ensures shape { self.new.shape ≡ self.old.shape }
        ensures cells { self.new.cells.items ≡ added_at self.old.cells.items (cell_index self.old.shape place) amount.cents }
        ensures sum { result ≡ slice_index_or self.new.cells.items (cell_index self.old.shape place) (pos 0) }
    {
        let index = self.shape.cell_index(place);
        let sum = self.cells[index].wrapping_add(amount.cents());
        self.cells[index] = sum;
        sum
    }

    // The cells of a row, none for a row that the triangle does not have.
    pub fn row(&self, row: u32) -> Option<&[i64]>
        ensures { option_map (λ x. x.now) result ≡ row_in self.now.shape self.now.cells.items row }
    {
        if self.shape.rows <= row {
            return None;
        }
        let start = self.shape.row_start(row);
        Some(&self.cells[start..start + self.shape.columns as usize])
    }

    // The sum of what lies beyond.
    pub fn beyond(&self) -> i64
        ensures { result ≡ slice_index_or self.now.cells.items (cell_index self.now.shape Place.Beyond) (pos 0) }
    {
        self.cells[self.shape.cell_index(Place::Beyond)]
    }
}
