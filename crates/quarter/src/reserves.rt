// Case reserves.
ghost use Rattle.std.specs.Prelude.{◌≡◌};
ghost use Rattle.quarter.specs.Reserves.{case_reserve};

use cube::figures::running_sum;

// The case reserve that is left of a row: what was incurred, less what was paid. Sums wrap modulo 2^64.
pub fn case_reserve(paid: &[i64], incurred: &[i64]) -> i64
    ensures { result ≡ case_reserve paid.now incurred.now }
{
    running_sum(incurred, incurred.len()).wrapping_sub(running_sum(paid, paid.len()))
}
