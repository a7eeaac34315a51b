// Starting a cube, and corrections made in two steps.
ghost use Rattle.std.specs.Prelude.{◌≡◌, length, IfOk, None, OnOk};
ghost use Rattle.cube.specs.Booking.{Bookable};
ghost use Rattle.cube.specs.Calls.{Call, next, state_next};
ghost use Rattle.cube.specs.Cubes.{ledger_of, state_of};
ghost use Rattle.cube.specs.Promises.{Lawful, New};
ghost use Rattle.cube.specs.Model.{after_start, draft_ticket, drop_answer, is_open_draft, post_entry, post_told, sheet_started, start_answer};

use super::Cube;
use super::checks::{check_effective, refused_if, standing_movement};
use crate::fault::CallFault;
use crate::reading::claim_days_in_force;
use crate::ticket::Ticket;
use register::entry::{Content, Correction, Entry, Terms};
use register::register::Register;
use values::cohort::Cohort;
use values::day::Day;

impl<R: Register, C: Cohort> Cube<R, C> {
    // A cube over a register and a cohort, before its start: its mark is 0, and no draft is open.
    pub fn new(register: R, cohort: C) -> Cube<R, C>
        ensures { state_of R.meaning C.meaning result ≡ record { book = R.meaning register; cohort = C.meaning cohort; mark = 0; draft = None } }
    {
        Cube {
            register,
            cohort,
            mark: 0,
            draft: None,
        }
    }

    // Starts the cube over an empty register, with the mark that its tickets will carry: clears the sheet and the draft note.
    pub fn start(&mut self, sheet: &mut [i64], mark: u32) -> Result<(), CallFault>
        ensures answer { result ≡ start_answer (state_of R.meaning C.meaning self.old) (length sheet.old) }
        ensures state { state_of R.meaning C.meaning self.new ≡ after_start (state_of R.meaning C.meaning self.old) mark result }
        ensures sheet { sheet.new ≡ sheet_started result sheet.old }
        ensures new { OnOk result (New (ledger_of R.meaning C.meaning self.new sheet.new)) }
        ensures law { OnOk result (Lawful (ledger_of R.meaning C.meaning self.new sheet.new)) }
    {
        self.check_sheet(sheet.len())?;
        refused_if(self.register.len() != 0, CallFault::RegisterNotEmpty)?;
        let none = self.register.capacity() == 0 || self.register.claim_bound() == 0;
        refused_if(none, CallFault::NoRoom)?;
        sheet.fill(0);
        self.mark = mark;
        self.draft = None;
        Ok(())
    }

    // Drafts the correction of a standing movement, and hands out its ticket.
    pub fn draft(&mut self, number: u32) -> Result<Ticket, CallFault>
        ensures answer { result ≡ draft_ticket (state_of R.meaning C.meaning self.old) number }
        ensures state { state_of R.meaning C.meaning self.new ≡ state_next (state_of R.meaning C.meaning self.old) (Call.Draft number) }
    {
        standing_movement(&self.register, number)?;
        refused_if(self.draft.is_some(), CallFault::UnderDraft)?;
        self.draft = Some(number);
        Ok(Ticket {
            mark: self.mark,
            entry: number,
        })
    }

    // Whether the ticket is that of the open draft.
    fn is_open_draft(&self, ticket: &Ticket) -> bool
        ensures { result ≡ is_open_draft (state_of R.meaning C.meaning self.now) ticket.now }
    {
        ticket.mark == self.mark && self.is_drafted(ticket.entry)
    }

    // Closes the draft without a correction; the ticket is spent in either case.
    pub fn drop_draft(&mut self, ticket: Ticket) -> Result<(), CallFault>
        ensures answer { result ≡ drop_answer (state_of R.meaning C.meaning self.old) ticket }
        ensures state { state_of R.meaning C.meaning self.new ≡ state_next (state_of R.meaning C.meaning self.old) (Call.Drop ticket) }
    {
        let open = self.is_open_draft(&ticket);
        let Ticket { mark: _, entry: _ } = ticket;
        refused_if(!open, CallFault::NotTheDraft)?;
        self.draft = None;
        Ok(())
    }

    // The entry of a correction, or the fault.
    fn check_post(
        &self,
        sheet: usize,
        ticket: &Ticket,
        booked: Day,
        terms: Terms,
    ) -> Result<Entry, CallFault>
        ensures verdict { result ≡ post_entry (state_of R.meaning C.meaning self.now) sheet ticket.now booked terms }
        ensures accepted { IfOk result (λ e. Bookable (state_of R.meaning C.meaning self.now) sheet e) }
    {
        self.check_booking(sheet, booked)?;
        refused_if(!self.is_open_draft(ticket), CallFault::NotTheDraft)?;
        let named = self
            .register
            .entry(ticket.entry)
            .ok_or(CallFault::NotTheDraft)?;
        let claim_days = claim_days_in_force(&self.register, named.claim).ok_or(
            CallFault::NoSuchClaim,
        )?;
        check_effective(claim_days, terms.effective, booked)?;
        let content = Content::Correction(Correction::new(ticket.entry, terms));
        Ok(Entry {
            booked,
            claim: named.claim,
            content,
        })
    }

    // Books the correction that the ticket stands for, and closes the draft; a refusal gives the ticket back.
    pub fn post(
        &mut self,
        sheet: &mut [i64],
        ticket: Ticket,
        booked: Day,
        terms: Terms,
    ) -> Result<u32, (Ticket, CallFault)>
        ensures answer { let s = state_of R.meaning C.meaning self.old in result ≡ post_told s ticket (post_entry s (length sheet.old) ticket booked terms) }
        ensures ledger { ledger_of R.meaning C.meaning self.new sheet.new ≡ next (ledger_of R.meaning C.meaning self.old sheet.old) (Call.Post (length sheet.old) ticket booked terms) }
    {
        match self.check_post(sheet.len(), &ticket, booked, terms) {
            Ok(entry) => {
                let Ticket { mark: _, entry: _ } = ticket;
                let number = self.book(sheet, entry);
                self.draft = None;
                Ok(number)
            }
            Err(fault) => Err((ticket, fault)),
        }
    }
}
