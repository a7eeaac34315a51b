// The entries known on a day.
ghost use Rattle.std.specs.Prelude.{◌≡◌};
ghost use Rattle.cube.specs.Queries.{booked_by, is_booked_by};

use register::entries::all_entries;
use register::entry::Entry;
use register::register::Register;
use values::day::Day;

// Whether an entry was booked on or before a day.
fn is_booked_by(entry: Entry, day: Day) -> bool
    ensures { result ≡ is_booked_by day entry }
{
    entry.booked <= day
}

// How many entries were booked on or before a day.
pub(crate) fn booked_by<R: Register>(register: &R, day: Day) -> u32
    ensures { result ≡ booked_by day (R.meaning register.now).entries }
{
    all_entries(register)
        .filter(|known| is_booked_by(known.entry, day))
        .count() as u32
}
