// Cohorts of equal periods: months, quarters, half-years or years.
ghost use Rattle.std.specs.Prelude.{◌≡◌, ◌+◌, ◌*◌, true, nat_le};
ghost use Rattle.values.specs.Calendar.{between};
ghost use Rattle.values.specs.Periods.{is_period};

mod methods;

// Which of the claim days decides the row.
#[derive(Clone, Copy, PartialEq, Eq, Debug)]
pub enum Anchor {
    Occurrence,
    Inception,
    Report,
}

// Rows and columns of equal periods, the first row beginning with the month numbered `base`.
#[derive(Clone, Copy)]
pub struct PeriodCohort {
    anchor: Anchor,
    base: u32,
    months: u32,
    rows: u32,
    columns: u32,
    ghost period: { is_period months ≡ true },
    ghost height: { between 1 40 rows ≡ true },
    ghost width: { between 1 40 columns ≡ true },
    ghost span: { nat_le (base + months * (rows + columns)) 26399 ≡ true },
}
