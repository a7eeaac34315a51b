// Asking a register, of whichever kind.
ghost use Rattle.std.specs.Prelude.{◌≡◌};
ghost use Rattle.side_by_side.specs.Requests.{answer_to, count_of, meaning_after};

use crate::request::{Answer, Request};
use register::entries::claim_entries;
use register::register::Register;

// How many entries a claim has.
fn entries_of_claim<R: Register>(register: &R, claim: u32) -> u32
    ensures { result ≡ count_of (R.Register.meaning register.now).entries claim }
{
    claim_entries(register, claim, 0).count() as u32
}

// Puts one request to a register. What comes back depends on nothing but the register's meaning and the request.
pub fn serve<R: Register>(register: &mut R, request: Request) -> Answer
    ensures answer { result ≡ answer_to (R.Register.meaning register.old) request }
    ensures after { R.Register.meaning register.new ≡ meaning_after (R.Register.meaning register.old) request }
{
    match request {
        Request::Add(entry) => Answer::Added(register.add(entry)),
        Request::Length => Answer::Count(register.len()),
        Request::Capacity => Answer::Count(register.capacity()),
        Request::ClaimBound => Answer::Count(register.claim_bound()),
        Request::Openings => Answer::Count(register.openings()),
        Request::Entry(number) => Answer::Entry(register.entry(number)),
        Request::NextOfClaim { claim, after } => Answer::Numbered(register.next_of_claim(
            claim, after,
        )),
        Request::EntriesOfClaim(claim) => Answer::Count(entries_of_claim(register, claim)),
    }
}
