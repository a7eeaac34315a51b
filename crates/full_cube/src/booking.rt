// Putting requests to a cube.
ghost use Rattle.std.specs.Prelude.{◌≡◌, ◌≤◌, length};
ghost use Rattle.full_cube.specs.Requests.{count_until, first_after};

use crate::request::{Action, Request};
use crate::session::Session;
use cube::fault::CallFault;
use register::entry::Correction;
use register::register::Register;
use values::cohort::Cohort;
use values::day::Day;

impl<R: Register, C: Cohort> Session<'_, R, C> {
    // Drafts a correction and posts it; where the post is refused, the draft is dropped.
    fn correct(&mut self, booked: Day, correction: Correction) -> Result<u32, CallFault> {
        let ticket = self.cube.draft(correction.names)?;
        self.cube
            .post(self.sheet, ticket, booked, correction.terms())
            .or_else(|(ticket, fault)| {
                self.cube.drop_draft(ticket)?;
                Err(fault)
            })
    }

    // Drafts a correction and drops it.
    fn abandon(&mut self, number: u32) -> Result<(), CallFault> {
        let ticket = self.cube.draft(number)?;
        self.cube.drop_draft(ticket)
    }

    // Voids a movement while it is under draft, and drops the draft.
    fn void_drafted(&mut self, booked: Day, number: u32) -> Result<u32, CallFault> {
        let ticket = self.cube.draft(number)?;
        let answer = self.cube.void(self.sheet, booked, number);
        self.cube.drop_draft(ticket)?;
        answer
    }

    // Puts a request to the cube, and tells the number of the entry that it booked, if it booked one.
    pub fn serve(&mut self, request: Request) -> Result<Option<u32>, CallFault> {
        let booked = request.booked;
        let number = match request.action {
            Action::Open(claim_days) => self.cube.open(self.sheet, booked, claim_days)?.entry,
            Action::Move(m) => {
                self.cube
                    .movement(self.sheet, m.kind, booked, m.claim, m.terms)?
            }
            Action::Correct(correction) => self.correct(booked, correction)?,
            Action::Abandon(number) => return self.abandon(number).map(|()| None),
            Action::Void(number) => self.cube.void(self.sheet, booked, number)?,
            Action::VoidDrafted(number) => self.void_drafted(booked, number)?,
            Action::Redate(days) => {
                self.cube
                    .redate(self.sheet, booked, days.claim, days.claim_days)?
            }
        };
        Ok(Some(number))
    }

    // Puts requests to the cube, one after the other, and counts what came of them.
    pub fn serve_all(&mut self, requests: &[Request]) {
        for request in requests {
            let answer = self.serve(*request);
            self.tally.note(request.action, answer);
        }
    }
}

// The index of the first request that is to be booked after a day.
fn first_after(requests: &[Request], day: Day) -> Option<usize>
    ensures { result ≡ first_after day requests.now }
{
    requests.iter().position(|request| day < request.booked)
}

// How many requests stand before the first that is to be booked after a day.
pub fn count_until(requests: &[Request], day: Day) -> usize
    ensures value { result ≡ count_until day requests.now }
    ensures bound { result ≤ length requests.now }
{
    first_after(requests, day).unwrap_or(requests.len())
}
