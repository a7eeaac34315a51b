// A large book of claims, the same in every run.
use anyhow::Context;
use register::entry::{Content, Correction, Entry, Terms, Void};
use samples::busiest::Busiest;
use samples::happening::{Happening, Shares};
use samples::random::Random;
use samples::samples::Samples;
use samples::size::{BOOK_DAYS, BookSize};
use std::alloc::Global;
use values::day::Day;
use values::fault::ValueFault;

// Where all books begin: ten years from January 2015.
const START: Samples = Samples {
    random: Random { state: 20_150_101 },
    first_year: 2015,
    report_delay: 100,
};

// Of ten happenings four are payments.
const SHARES: Shares = Shares {
    payments: 4,
    reserve_changes: 3,
    corrections: 1,
    voids: 1,
    redatings: 1,
};

// An entry that is to be made: its number and the day on which it is booked, which is also the count of a day.
#[derive(Clone, Copy)]
struct Booking {
    number: u32,
    count: u64,
    booked: Day,
}

// What happens to an open claim, of which the movement with a number may stand. Where none stands, there is a reserve change
// in place of a correction or a void.
fn change(
    samples: &mut Samples,
    standing: &mut Option<u32>,
    booking: Booking,
) -> Result<Content, ValueFault> {
    let terms = Terms {
        effective: booking.booked,
        amount: samples.amount()?,
    };
    let here = Some(booking.number);
    let (content, stands) = match (SHARES.next_happening(&mut samples.random), *standing) {
        (Happening::Redating, before) => {
            let claim_days = samples.claim_days(booking.count)?;
            (Content::Redating(claim_days), before)
        }
        (Happening::Void, Some(names)) => (Content::Void(Void { names }), None),
        (Happening::Correction, Some(names)) => {
            (Content::Correction(Correction::new(names, terms)), here)
        }
        (Happening::Payment, _) => (Content::Payment(terms), here),
        _ => (Content::ReserveChange(terms), here),
    };
    *standing = stands;
    Ok(content)
}

// A book of a size, in the order of booking. The claims are opened one by one, evenly over the book.
pub fn large_book(heap: Global, size: BookSize) -> anyhow::Result<Vec<Entry>> {
    let mut samples = START;
    // of each claim that was opened the last movement that stands, by index, since a claim is drawn by its number
    let mut claims: Vec<Option<u32>> = Vec::new(heap);
    let mut book = Vec::new(heap);
    for index in 0..size.entries {
        let count = size.come_by(index, BOOK_DAYS);
        let booked = samples.day(count)?;
        let opened = u32::try_from(claims.len())?;
        let (claim, content) = if size.opens_claim(index, opened) {
            claims.push(None)?;
            (opened + 1, Content::Opening(samples.claim_days(count)?))
        } else {
            let place = samples.claim_index(opened, Busiest::First);
            let standing = claims.get_mut(place as usize).context("a book has claims")?;
            let booking = Booking {
                number: index + 1,
                count,
                booked,
            };
            (place + 1, change(&mut samples, standing, booking)?)
        };
        book.push(Entry {
            booked,
            claim,
            content,
        })?;
    }
    Ok(book)
}
