// A place in a triangle.

// A cell by row and column, both from 0, or beyond the triangle.
// An enum and no Option: what is beyond lacks nothing, and has a cell of its own in each measure's block.
#[derive(Clone, Copy, PartialEq, Eq, Debug)]
pub enum Place {
    Cell { row: u32, column: u32 },
    Beyond,
}
