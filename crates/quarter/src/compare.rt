// Holding sheets against each other.
ghost use Rattle.std.specs.Prelude.{◌≡◌, ◌↔◌, IsTrue};

// Whether two sheets have the same cells.
// A function of one line, since its contract proves that what the reader is told of the sheets is true.
pub fn same_cells(first: &[i64], second: &[i64]) -> bool
    ensures { IsTrue result ↔ (first.now ≡ second.now) }
{
    first == second
}
