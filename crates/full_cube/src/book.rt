// A large book of claims as requests, the same in every run.
use crate::request::{Action, Request};
use crate::turn::{BOOKING_DELAY, Claim, Progress, Turn};
use anyhow::Context;
use samples::busiest::Busiest;
use samples::random::Random;
use samples::samples::{DAYS_OF_YEAR, Samples};
use samples::size::{BOOK_DAYS, BookSize};
use std::alloc::Global;
use values::fault::ValueFault;

// Where all books begin. The count of days begins a year before the first row, so that some losses lie beyond the triangle.
const START: Samples = Samples {
    random: Random { state: 20_150_101 },
    first_year: 2014,
    report_delay: 60,
};
// Entries are booked from the second year on.
const FIRST_BOOKED: u64 = DAYS_OF_YEAR;

// A claim that is opened today, and the request for it.
fn opening(samples: &mut Samples, progress: Progress) -> Result<(Claim, Request), ValueFault> {
    let delay = samples.random.below(BOOKING_DELAY);
    let report = progress.count.saturating_sub(delay);
    let claim = Claim {
        number: progress.claims.saturating_add(1),
        report,
        standing: None,
        replaced: None,
    };
    let request = Request {
        booked: progress.today,
        action: Action::Open(samples.claim_days(report)?),
    };
    Ok((claim, request))
}

// The requests for a book of a size. The claims are opened one by one, evenly over the book.
pub fn large_book(heap: Global, size: BookSize) -> anyhow::Result<Vec<Request>> {
    let mut samples = START;
    let mut claims: Vec<Claim> = Vec::new(heap);
    let mut book = Vec::new(heap);
    for index in 0..size.entries {
        let count = FIRST_BOOKED + size.come_by(index, BOOK_DAYS);
        let opened = u32::try_from(claims.len())?;
        let progress = Progress {
            entries: index,
            claims: opened,
            count,
            today: samples.day(count)?,
        };
        if size.opens_claim(index, opened) {
            let (claim, request) = opening(&mut samples, progress)?;
            claims.push(claim)?;
            book.push(request)?;
        } else {
            // by index, since a claim is drawn by its number
            let place = samples.claim_index(opened, Busiest::Last) as usize;
            let mut turn = Turn {
                claim: claims.get_mut(place).context("a book has claims")?,
                samples: &mut samples,
                progress,
            };
            for request in turn.requests()?.into_iter().flatten() {
                book.push(request)?;
            }
        }
    }
    Ok(book)
}
