// The small book of claims.
// The makers take numbers apart and in this order, since the rows of the book are read across like a table.
use register::entry::{Content, Correction, Entry, Terms, Void};
use values::claim_days::ClaimDays;
use values::day::Day;
use values::fault::ValueFault;

// An entry with these numbers, or the fault of the first that is none.
fn entry(booked: u64, claim: u32, content: Content) -> Result<Entry, ValueFault> {
    let booked = Day::new(booked)?;
    Ok(Entry {
        booked,
        claim,
        content,
    })
}

fn opening(booked: u64, claim: u32, claim_days: ClaimDays) -> Result<Entry, ValueFault> {
    entry(booked, claim, Content::Opening(claim_days))
}

fn payment(booked: u64, claim: u32, effective: u64, cents: i64) -> Result<Entry, ValueFault> {
    let terms = Terms::new(effective, cents)?;
    entry(booked, claim, Content::Payment(terms))
}

fn reserve_change(
    booked: u64,
    claim: u32,
    effective: u64,
    cents: i64,
) -> Result<Entry, ValueFault> {
    let terms = Terms::new(effective, cents)?;
    entry(booked, claim, Content::ReserveChange(terms))
}

fn correction(
    booked: u64,
    claim: u32,
    names: u32,
    effective: u64,
    cents: i64,
) -> Result<Entry, ValueFault> {
    let terms = Terms::new(effective, cents)?;
    entry(
        booked,
        claim,
        Content::Correction(Correction::new(names, terms)),
    )
}

fn void(booked: u64, claim: u32, names: u32) -> Result<Entry, ValueFault> {
    entry(booked, claim, Content::Void(Void { names }))
}

fn redating(booked: u64, claim: u32, claim_days: ClaimDays) -> Result<Entry, ValueFault> {
    entry(booked, claim, Content::Redating(claim_days))
}

// Twelve entries, booked on the days from March to July 2024. Claim 4 is one more than the registers take, and the last
// entry one more than they hold.
pub fn small_book() -> Result<[Entry; 12], ValueFault> {
    let first = ClaimDays::new(20240101, 20240210, 20240220)?;
    let second = ClaimDays::new(20230701, 20240315, 20240318)?;
    let third = ClaimDays::new(20231001, 20240103, 20240430)?;
    let earlier = ClaimDays::new(20231001, 20231229, 20240430)?;
    Ok([
        opening(20240301, 1, first)?,
        reserve_change(20240301, 1, 20240301, 500_000)?,
        opening(20240318, 2, second)?,
        payment(20240402, 1, 20240401, 120_000)?,
        reserve_change(20240402, 1, 20240401, -120_000)?,
        opening(20240415, 4, second)?,
        opening(20240506, 3, third)?,
        payment(20240520, 2, 20240517, 85_000)?,
        correction(20240603, 1, 4, 20240401, 125_050)?,
        redating(20240610, 3, earlier)?,
        void(20240624, 2, 7)?,
        payment(20240701, 2, 20240701, 80_000)?,
    ])
}
