// Asking a cube for a triangle.
ghost use Rattle.cube.specs.Cubes.{state_of};
ghost use Rattle.cube.specs.Queries.{Answered};

use super::Cube;
use crate::fault::QueryFault;
use crate::known_entries::KnownEntries;
use crate::query::booked_by;
use crate::sheet::Cells;
use register::register::Register;
use std::alloc::Global;
use values::cohort::Cohort;
use values::day::Day;

impl<R: Register, C: Cohort> Cube<R, C> {
    // Fills the answer sheet with the triangle of the entries booked by the known day, as far as they fall on or before the value
    // day. A query that gives no triangle leaves the answer sheet as it is.
    pub fn query(
        &self,
        heap: Global,
        known: Day,
        valued: Day,
        answer: &mut [i64],
    ) -> Result<(), QueryFault>
        ensures { Answered (state_of R.meaning C.meaning self.now) known valued result answer.old answer.new }
    {
        self.check_sheet(answer.len())?;
        let count = booked_by(&self.register, known);
        let entries = KnownEntries::of(heap, &self.register, count)?;
        answer.fill(0);
        let mut cells = Cells::new(&self.cohort, answer);
        entries.add_triangle(&mut cells, Some(valued));
        Ok(())
    }
}
