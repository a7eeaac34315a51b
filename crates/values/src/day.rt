// A day of the Gregorian calendar.
ghost use Rattle.std.specs.Prelude.{◌≡◌, true};
ghost use Rattle.values.specs.Calendar.{is_day};

mod methods;

// A day in the years 1900 to 2199, as year × 10,000 + month × 100 + day of the month.
#[derive(Clone, Copy, PartialEq, Eq, PartialOrd, Ord, Debug)]
pub struct Day {
    number: u32,
    ghost lawful: { is_day number ≡ true },
}
