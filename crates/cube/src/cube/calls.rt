// The calls on a cube that book an entry.
ghost use Rattle.std.specs.Prelude.{◌≡◌, length, IfOk};
ghost use Rattle.cube.specs.Booking.{Bookable};
ghost use Rattle.cube.specs.Calls.{Call, next};
ghost use Rattle.cube.specs.Cubes.{ledger_of, state_of};
ghost use Rattle.cube.specs.Model.{move_entry, movement_content, number_told, open_entry, open_told, redate_entry, void_entry};

use super::Cube;
use super::checks::{check_days, check_effective, moved_before, refused_if, standing_movement};
use crate::fault::CallFault;
use crate::reading::claim_days_in_force;
use crate::ticket::{Opened, Ticket};
use register::entry::{Content, Entry, Terms, Void};
use register::kind::MovementKind;
use register::register::Register;
use values::claim_days::ClaimDays;
use values::cohort::Cohort;
use values::day::Day;

// What a movement says, by its kind.
fn movement_content(kind: MovementKind, terms: Terms) -> Content
    ensures { result ≡ movement_content kind terms }
{
    match kind {
        MovementKind::Paid => Content::Payment(terms),
        MovementKind::Reserved => Content::ReserveChange(terms),
    }
}

impl<R: Register, C: Cohort> Cube<R, C> {
    // The entry that opens a claim, or the fault.
    fn check_open(
        &self,
        sheet: usize,
        booked: Day,
        claim_days: ClaimDays,
    ) -> Result<Entry, CallFault>
        ensures verdict { result ≡ open_entry (state_of R.meaning C.meaning self.now) sheet booked claim_days }
        ensures accepted { IfOk result (λ e. Bookable (state_of R.meaning C.meaning self.now) sheet e) }
    {
        self.check_booking(sheet, booked)?;
        let opened = self.register.openings();
        refused_if(
            self.register.claim_bound() <= opened,
            CallFault::ClaimsUsedUp,
        )?;
        check_days(claim_days, booked)?;
        Ok(Entry {
            booked,
            claim: opened + 1,
            content: Content::Opening(claim_days),
        })
    }

    // Opens the next claim.
    pub fn open(
        &mut self,
        sheet: &mut [i64],
        booked: Day,
        claim_days: ClaimDays,
    ) -> Result<Opened, CallFault>
        ensures answer { let s = state_of R.meaning C.meaning self.old in result ≡ open_told s (open_entry s (length sheet.old) booked claim_days) }
        ensures ledger { ledger_of R.meaning C.meaning self.new sheet.new ≡ next (ledger_of R.meaning C.meaning self.old sheet.old) (Call.Open (length sheet.old) booked claim_days) }
    {
        let entry = self.check_open(sheet.len(), booked, claim_days)?;
        let number = self.book(sheet, entry);
        Ok(Opened {
            entry: number,
            claim: entry.claim,
        })
    }

    // The entry of a movement, or the fault.
    fn check_movement(
        &self,
        sheet: usize,
        kind: MovementKind,
        booked: Day,
        claim: u32,
        terms: Terms,
    ) -> Result<Entry, CallFault>
        ensures verdict { result ≡ move_entry (state_of R.meaning C.meaning self.now) sheet kind booked claim terms }
        ensures accepted { IfOk result (λ e. Bookable (state_of R.meaning C.meaning self.now) sheet e) }
    {
        self.check_booking(sheet, booked)?;
        let claim_days = claim_days_in_force(&self.register, claim).ok_or(CallFault::NoSuchClaim)?;
        check_effective(claim_days, terms.effective, booked)?;
        let content = movement_content(kind, terms);
        Ok(Entry {
            booked,
            claim,
            content,
        })
    }

    // Books a payment or a change of the case reserve.
    pub fn movement(
        &mut self,
        sheet: &mut [i64],
        kind: MovementKind,
        booked: Day,
        claim: u32,
        terms: Terms,
    ) -> Result<u32, CallFault>
        ensures answer { let s = state_of R.meaning C.meaning self.old in result ≡ number_told s (move_entry s (length sheet.old) kind booked claim terms) }
        ensures ledger { ledger_of R.meaning C.meaning self.new sheet.new ≡ next (ledger_of R.meaning C.meaning self.old sheet.old) (Call.Move (length sheet.old) kind booked claim terms) }
    {
        let entry = self.check_movement(sheet.len(), kind, booked, claim, terms)?;
        Ok(self.book(sheet, entry))
    }

    // The entry of a void, or the fault.
    fn check_void(&self, sheet: usize, booked: Day, number: u32) -> Result<Entry, CallFault>
        ensures verdict { result ≡ void_entry (state_of R.meaning C.meaning self.now) sheet booked number }
        ensures accepted { IfOk result (λ e. Bookable (state_of R.meaning C.meaning self.now) sheet e) }
    {
        self.check_booking(sheet, booked)?;
        let named = standing_movement(&self.register, number)?;
        refused_if(self.is_drafted(number), CallFault::UnderDraft)?;
        let content = Content::Void(Void { names: number });
        Ok(Entry {
            booked,
            claim: named.claim,
            content,
        })
    }

    // Voids a standing movement.
    pub fn void(&mut self, sheet: &mut [i64], booked: Day, number: u32) -> Result<u32, CallFault>
        ensures answer { let s = state_of R.meaning C.meaning self.old in result ≡ number_told s (void_entry s (length sheet.old) booked number) }
        ensures ledger { ledger_of R.meaning C.meaning self.new sheet.new ≡ next (ledger_of R.meaning C.meaning self.old sheet.old) (Call.Void (length sheet.old) booked number) }
    {
        let entry = self.check_void(sheet.len(), booked, number)?;
        Ok(self.book(sheet, entry))
    }

    // The entry of a redating, or the fault.
    fn check_redate(
        &self,
        sheet: usize,
        booked: Day,
        claim: u32,
        claim_days: ClaimDays,
    ) -> Result<Entry, CallFault>
        ensures verdict { result ≡ redate_entry (state_of R.meaning C.meaning self.now) sheet booked claim claim_days }
        ensures accepted { IfOk result (λ e. Bookable (state_of R.meaning C.meaning self.now) sheet e) }
    {
        self.check_booking(sheet, booked)?;
        claim_days_in_force(&self.register, claim).ok_or(CallFault::NoSuchClaim)?;
        check_days(claim_days, booked)?;
        let moved = moved_before(&self.register, claim, claim_days.report);
        refused_if(moved, CallFault::MovementBeforeReport)?;
        let content = Content::Redating(claim_days);
        Ok(Entry {
            booked,
            claim,
            content,
        })
    }

    // Gives a claim three new claim days.
    pub fn redate(
        &mut self,
        sheet: &mut [i64],
        booked: Day,
        claim: u32,
        claim_days: ClaimDays,
    ) -> Result<u32, CallFault>
        ensures answer { let s = state_of R.meaning C.meaning self.old in result ≡ number_told s (redate_entry s (length sheet.old) booked claim claim_days) }
        ensures ledger { ledger_of R.meaning C.meaning self.new sheet.new ≡ next (ledger_of R.meaning C.meaning self.old sheet.old) (Call.Redate (length sheet.old) booked claim claim_days) }
    {
        let entry = self.check_redate(sheet.len(), booked, claim, claim_days)?;
        Ok(self.book(sheet, entry))
    }
}
