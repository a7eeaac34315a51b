// Making requests of numbers: each gives the request, or the fault of the first number that is no day or no amount.
// The numbers come apart and in this order, since the rows of the book and of the quarter are read across like a table.
ghost use Rattle.std.specs.Prelude.{◌≡◌};
ghost use Rattle.register.specs.declared.kind.MovementKind.TheVariants.{Paid, Reserved};
ghost use Rattle.quarter.specs.Asking.{movement_of, opening_of, post_of, query_of, redating_of, void_of};

use cube::request::Request;
use register::entry::Terms;
use register::kind::MovementKind;
use values::claim_days::ClaimDays;
use values::day::Day;
use values::fault::ValueFault;

// Opens a claim.
pub fn opening(
    booked: u64,
    inception: u64,
    occurrence: u64,
    report: u64,
) -> Result<Request, ValueFault>
    ensures { result ≡ opening_of booked inception occurrence report }
{
    let booked = Day::new(booked)?;
    let claim_days = ClaimDays::new(inception, occurrence, report)?;
    Ok(Request::Open { booked, claim_days })
}

fn movement(
    kind: MovementKind,
    booked: u64,
    claim: u32,
    effective: u64,
    cents: i64,
) -> Result<Request, ValueFault>
    ensures { result ≡ movement_of kind booked claim effective cents }
{
    let booked = Day::new(booked)?;
    let terms = Terms::new(effective, cents)?;
    Ok(Request::Movement {
        kind,
        booked,
        claim,
        terms,
    })
}

// Books a payment.
pub fn payment(booked: u64, claim: u32, effective: u64, cents: i64) -> Result<Request, ValueFault>
    ensures { result ≡ movement_of Paid booked claim effective cents }
{
    movement(MovementKind::Paid, booked, claim, effective, cents)
}

// Books a change of the case reserve.
pub fn reserve(booked: u64, claim: u32, effective: u64, cents: i64) -> Result<Request, ValueFault>
    ensures { result ≡ movement_of Reserved booked claim effective cents }
{
    movement(MovementKind::Reserved, booked, claim, effective, cents)
}

// Voids a movement.
pub fn void(booked: u64, number: u32) -> Result<Request, ValueFault>
    ensures { result ≡ void_of booked number }
{
    let booked = Day::new(booked)?;
    Ok(Request::Void { booked, number })
}

// Gives a claim new days.
pub fn redating(
    booked: u64,
    claim: u32,
    inception: u64,
    occurrence: u64,
    report: u64,
) -> Result<Request, ValueFault>
    ensures { result ≡ redating_of booked claim inception occurrence report }
{
    let booked = Day::new(booked)?;
    let claim_days = ClaimDays::new(inception, occurrence, report)?;
    Ok(Request::Redate {
        booked,
        claim,
        claim_days,
    })
}

// Posts the draft whose ticket lies at a place of the drawer.
pub fn post(place: usize, booked: u64, effective: u64, cents: i64) -> Result<Request, ValueFault>
    ensures { result ≡ post_of place booked effective cents }
{
    let booked = Day::new(booked)?;
    let terms = Terms::new(effective, cents)?;
    Ok(Request::Post {
        place,
        booked,
        terms,
    })
}

// Draws the triangles as they were known on a day, valued at a day.
pub fn query(known: u64, valued: u64) -> Result<Request, ValueFault>
    ensures { result ≡ query_of known valued }
{
    let known = Day::new(known)?;
    let valued = Day::new(valued)?;
    Ok(Request::Query { known, valued })
}
