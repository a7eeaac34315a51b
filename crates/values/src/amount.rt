// An amount of money.
ghost use Rattle.std.specs.Prelude.{◌≡◌, true};
ghost use Rattle.values.specs.Amounts.{is_amount};

mod methods;

// A whole number of cents from −100,000,000,000 to 100,000,000,000, without 0.
#[derive(Clone, Copy, PartialEq, Eq, Debug)]
pub struct Amount {
    cents: i64,
    ghost lawful: { is_amount cents ≡ true },
}
