// The triangle of one measure.
ghost use Rattle.std.specs.Prelude.{◌≡◌, vec_len};
ghost use Rattle.walkthrough.specs.Shapes.{cell_count};

use crate::shape::Shape;

mod methods;

// Sums in cents, by place.
// Not the cube's sheet: that has three measures in lent memory, and takes only the places of its cohort.
#[derive(Drop)]
pub struct Triangle {
    shape: Shape,
    cells: Vec<i64>,
    ghost whole: { vec_len cells ≡ cell_count shape },
}
