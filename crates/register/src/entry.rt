// An entry of the register.
use values::amount::Amount;
use values::claim_days::ClaimDays;
use values::day::Day;

mod methods;

// The terms of a movement: its effective day and its amount.
#[derive(Clone, Copy, PartialEq, Debug)]
pub struct Terms {
    pub effective: Day,
    pub amount: Amount,
}

// An earlier movement gets a new effective day and a new amount.
// No `Terms` in one field: an amount is aligned to eight bytes, so that behind the number they would take eight bytes more, and
// with them every entry.
#[derive(Clone, Copy, PartialEq, Debug)]
pub struct Correction {
    pub names: u32,
    pub effective: Day,
    pub amount: Amount,
}

// An earlier movement is taken back.
#[derive(Clone, Copy, PartialEq, Debug)]
pub struct Void {
    pub names: u32,
}

// What an entry says.
#[derive(Clone, Copy, PartialEq, Debug)]
pub enum Content {
    // O: a claim is opened with its three claim days
    Opening(ClaimDays),
    // P: money is paid
    Payment(Terms),
    // R: the case reserve changes
    ReserveChange(Terms),
    // K: an earlier movement is put right
    Correction(Correction),
    // V: an earlier movement is taken back
    Void(Void),
    // D: a claim gets three new claim days
    Redating(ClaimDays),
}

// One entry: the day on which it was booked, its claim and what it says.
#[derive(Clone, Copy, PartialEq, Debug)]
pub struct Entry {
    pub booked: Day,
    pub claim: u32,
    pub content: Content,
}
