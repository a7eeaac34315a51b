// Sums of money in words.
ghost use Rattle.std.specs.Prelude.{◌≡◌, Some};
ghost use Rattle.std.specs.Fmt.{DisplaysOnOk, sign_text};
ghost use Rattle.std.specs.Int.{is_negative};
ghost use Rattle.wording.specs.Money.{grouped_text, money_text};

use std::fmt;
use std::fmt::{Display, InlineText};

// The longest sum has a sign, nineteen digits, five commas and a point.
const LONGEST: usize = 26;

// Cents as a sum of money, with a comma before every third digit of the units: -1,250.00.
#[derive(Clone, Copy)]
pub struct Money(pub i64);

impl Display for Money {
    ghost output = { λ sum. Some (money_text sum.0) };

    fn fmt<W: fmt::Write>(&self, f: &mut fmt::Formatter<W>) -> fmt::Result {
        let sign = sign_of(self.0);
        let size = self.0.unsigned_abs();
        let units = Grouped(size / 100);
        let rest = size % 100;
        pad(f, format_args!("{sign}{units}.{rest:02}"))
    }
}

// What stands before a sum of this many cents.
fn sign_of(cents: i64) -> &'static str
    ensures { result.now ≡ sign_text (is_negative cents) }
{
    if cents < 0 { "-" } else { "" }
}

// Writes the text, as a whole within a width where one is asked for.
fn pad<W: fmt::Write, D: Display + Drop>(f: &mut fmt::Formatter<W>, text: D) -> fmt::Result
    ensures { DisplaysOnOk W.Write.write_str_gives f.old result (D.Display.output text) f.new }
{
    if f.width().is_none() && f.precision().is_none() {
        f.write(text)
    } else {
        f.pad(InlineText::<LONGEST>::of(text).as_str())
    }
}

// A number with a comma before every third digit: 1,250.
#[derive(Clone, Copy)]
struct Grouped(u64);

impl Display for Grouped {
    ghost output = { λ number. Some (grouped_text number.0) };

    fn fmt<W: fmt::Write>(&self, f: &mut fmt::Formatter<W>) -> fmt::Result {
        let last = self.0 % 1000;
        if self.0 < 1000 {
            return write!(f, "{last}");
        }
        Grouped(self.0 / 1000).fmt(f)?;
        write!(f, ",{last:03}")
    }
}
