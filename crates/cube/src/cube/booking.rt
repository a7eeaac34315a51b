// Booking an entry that passed its checks.
ghost use Rattle.std.specs.Prelude.{◌≡◌, ◌+◌, true, [], ◌∷◌, ◌++◌, length, None, Ok};
ghost use Rattle.cube.specs.Booking.{Bookable};
ghost use Rattle.cube.specs.Cubes.{state_of};
ghost use Rattle.cube.specs.Model.{sheet_after, state_after};

use super::Cube;
use crate::sheet::Cells;
use register::entry::Entry;
use register::register::Register;
use values::cohort::Cohort;

impl<R: Register, C: Cohort> Cube<R, C> {
    // Adds the entry to the register and what it brings to the sheet, and tells its number.
    pub(super) fn book(&mut self, sheet: &mut [i64], entry: Entry) -> u32
        requires { Bookable (state_of R.meaning C.meaning self.old) (length sheet.old) entry }
        ensures number { result ≡ length (R.meaning self.old.register).entries + 1 }
        ensures state { state_of R.meaning C.meaning self.new ≡ state_after (state_of R.meaning C.meaning self.old) (Ok entry) }
        ensures sheet { sheet.new ≡ sheet_after (state_of R.meaning C.meaning self.old) (Ok entry) sheet.old }
    {
        let mut cells = Cells::new(&self.cohort, sheet);
        cells.add_brought(&self.register, None, entry);
        self.register.add(entry).unwrap()
    }
}
