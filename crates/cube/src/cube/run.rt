// Rows of requests.
ghost use Rattle.std.specs.Prelude.{◌≡◌, ◌<◌, ◌≤◌, List, length, get_or, MatchOption, vec_capacity, ℤ, IfOk, Ok, vec_len, MatchResult};
ghost use Rattle.std.specs.List.{remove};
ghost use Rattle.cube.specs.Calls.{Call};
ghost use Rattle.cube.specs.Cubes.{desk_of, state_of};
ghost use Rattle.cube.specs.Runs.{Ran, Served, Told, answer_of, dropped_all, told, told_of};
ghost use Rattle.cube.specs.Sheets.{sheet_length};

use super::Cube;
use crate::fault::{CallFault, QueryFault};
use crate::request::{Answer, Request, Stopped};
use crate::sheet::sheet_length;
use crate::ticket::{Opened, Ticket};
use register::entry::Terms;
use register::register::Register;
use std::alloc::{AllocError, Global};
use values::cohort::Cohort;
use values::day::Day;

// The ticket at a place of a drawer, taken out of it, if the drawer has the place.
fn take_ticket(drawer: &mut Vec<Ticket>, place: usize) -> Option<Ticket>
    ensures { MatchOption result ((length drawer.old.items ≤ place) × (drawer.new.items ≡ drawer.old.items)) (λ ticket. (place < length drawer.old.items) × (ticket ≡ get_or drawer.old.items place ticket) × (drawer.new.items ≡ remove drawer.old.items place) × (vec_len drawer.new < vec_capacity drawer.new)) }
{
    if place >= drawer.len() {
        return None;
    }
    Some(drawer.remove(place))
}

impl<R: Register, C: Cohort> Cube<R, C> {
    // Drafts, and puts the ticket into the drawer, which has room for it before the call is made.
    fn serve_draft(&mut self, drawer: &mut Vec<Ticket>, number: u32) -> Result<Answer, AllocError>
        ensures { (sheet : List ℤ) → Served (desk_of R.meaning C.meaning self.old sheet drawer.old.items) (Request.Draft number) result (desk_of R.meaning C.meaning self.new sheet drawer.new.items) }
    {
        drawer.reserve(1)?;
        match self.draft(number) {
            Ok(ticket) => {
                drawer.push_reserved(ticket);
                Ok(Answer::Drafted)
            }
            Err(fault) => Ok(Answer::Refused(fault)),
        }
    }

    // Drops the draft of the ticket at a place of the drawer.
    fn serve_drop(&mut self, drawer: &mut Vec<Ticket>, place: usize) -> Answer
        ensures { (sheet : List ℤ) → Served (desk_of R.meaning C.meaning self.old sheet drawer.old.items) (Request.Drop place) (Ok result) (desk_of R.meaning C.meaning self.new sheet drawer.new.items) }
    {
        let Some(ticket) = take_ticket(drawer, place) else {
            return Answer::NoTicket;
        };
        self.drop_draft(ticket)
            .map_or_else(Answer::Refused, |()| Answer::Dropped)
    }

    // Posts with the ticket at a place of the drawer; a refusal puts the ticket back.
    fn serve_post(
        &mut self,
        sheet: &mut [i64],
        drawer: &mut Vec<Ticket>,
        place: usize,
        booked: Day,
        terms: Terms,
    ) -> Answer
        ensures { Served (desk_of R.meaning C.meaning self.old sheet.old drawer.old.items) (Request.Post booked place terms) (Ok result) (desk_of R.meaning C.meaning self.new sheet.new drawer.new.items) }
    {
        let Some(ticket) = take_ticket(drawer, place) else {
            return Answer::NoTicket;
        };
        match self.post(sheet, ticket, booked, terms) {
            Ok(number) => Answer::Booked(number),
            Err((ticket, fault)) => {
                drawer.insert(place, ticket).unwrap();
                Answer::Refused(fault)
            }
        }
    }

    // Draws a triangle on a sheet of its own.
    fn serve_query(&self, heap: Global, known: Day, valued: Day) -> Result<Answer, AllocError>
        ensures { IfOk result (λ a. told a ≡ answer_of (state_of R.meaning C.meaning self.now) (Call.Query (sheet_length (C.meaning self.now.cohort)) known valued)) }
    {
        let mut cells = vec![in heap; 0i64; sheet_length(&self.cohort)]?;
        match self.query(heap, known, valued, cells.as_mut_slice()) {
            Ok(()) => Ok(Answer::Drawn(cells)),
            Err(QueryFault::Refused(fault)) => Ok(Answer::Refused(fault)),
            Err(QueryFault::OutOfMemory(error)) => Err(error),
        }
    }

    // Makes the call that a request asks for.
    fn serve(
        &mut self,
        heap: Global,
        sheet: &mut [i64],
        drawer: &mut Vec<Ticket>,
        request: Request,
    ) -> Result<Answer, AllocError>
        ensures { Served (desk_of R.meaning C.meaning self.old sheet.old drawer.old.items) request result (desk_of R.meaning C.meaning self.new sheet.new drawer.new.items) }
    {
        let answer = match request {
            Request::Open { booked, claim_days } => self
                .open(sheet, booked, claim_days)
                .map_or_else(Answer::Refused, Answer::Opened),
            Request::Movement {
                kind,
                booked,
                claim,
                terms,
            } => self
                .movement(sheet, kind, booked, claim, terms)
                .map_or_else(Answer::Refused, Answer::Booked),
            Request::Void { booked, number } => self
                .void(sheet, booked, number)
                .map_or_else(Answer::Refused, Answer::Booked),
            Request::Redate {
                booked,
                claim,
                claim_days,
            } => self
                .redate(sheet, booked, claim, claim_days)
                .map_or_else(Answer::Refused, Answer::Booked),
            Request::Draft { number } => self.serve_draft(drawer, number)?,
            Request::Post {
                place,
                booked,
                terms,
            } => self.serve_post(sheet, drawer, place, booked, terms),
            Request::Drop { place } => self.serve_drop(drawer, place),
            Request::Query { known, valued } => self.serve_query(heap, known, valued)?,
        };
        Ok(answer)
    }

    // Makes the calls of a row one after the other, and tells what each was answered. A draft puts its ticket at the end of the
    // drawer, and a post or a drop takes the ticket at its place. Where memory runs out, the row stops before that request.
    pub fn run(
        &mut self,
        heap: Global,
        sheet: &mut [i64],
        drawer: &mut Vec<Ticket>,
        row: &[Request],
    ) -> Result<Vec<Answer>, Stopped>
        ensures whole { MatchResult result (λ answers. vec_len answers ≡ length row.now) (λ stopped. vec_len stopped.answers ≤ length row.now) }
        ensures ran { MatchResult result (λ answers. Ran (desk_of R.meaning C.meaning self.old sheet.old drawer.old.items) row.now answers.items (desk_of R.meaning C.meaning self.new sheet.new drawer.new.items)) (λ stopped. Ran (desk_of R.meaning C.meaning self.old sheet.old drawer.old.items) row.now stopped.answers.items (desk_of R.meaning C.meaning self.new sheet.new drawer.new.items)) }
    {
        let mut answers = Vec::with_capacity(heap, row.len()).map_err(|_| Stopped {
            answers: Vec::new(heap),
        })?;
        for request in row {
            match self.serve(heap, sheet, drawer, *request) {
                Ok(answer) => answers.push_reserved(answer),
                // An arm and no `map_err`: its closure would take the answers at each request, and not only at the last.
                Err(_) => return Err(Stopped { answers }),
            }
        }
        Ok(answers)
    }

    // Drops every ticket of a drawer, the last first, and so closes the draft that is open if one of them is its ticket.
    pub fn drop_all(&mut self, drawer: Vec<Ticket>)
        ensures { state_of R.meaning C.meaning self.new ≡ dropped_all (state_of R.meaning C.meaning self.old) drawer.items }
    {
        let mut left = drawer;
        // No `for`: an iterator would let go what it has left, tickets cannot be let go, and the last is dropped first.
        while let Some(ticket) = left.pop() {
            let _ = self.drop_draft(ticket);
        }
        left.destroy_empty();
    }
}
