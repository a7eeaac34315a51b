// The checks that calls make.
ghost use Rattle.std.specs.Prelude.{◌≡◌, true, length, IfOk, OnOk};
ghost use Rattle.register.specs.Entries.{entry_in};
ghost use Rattle.register.specs.Registers.{is_claim};
ghost use Rattle.cube.specs.Cubes.{state_of};
ghost use Rattle.cube.specs.Model.{booked_after, booking_checked, days_checked, earlier_movement, effective_checked, is_after, moved_before_from, on_draft, refused_if, standing_movement};
ghost use Rattle.cube.specs.Queries.{query_checked};
ghost use Rattle.cube.specs.Sheets.{sheet_length};

use super::Cube;
use crate::fault::CallFault;
use crate::reading::stands;
use crate::sheet::sheet_length;
use crate::terms::terms_of;
use register::entries::claim_entries;
use register::entry::Entry;
use register::numbered::NumberedEntry;
use register::register::Register;
use values::claim_days::ClaimDays;
use values::cohort::Cohort;
use values::day::Day;

// The fault, where there is one: the one place where a test and a fault become a Result.
pub(super) fn refused_if(test: bool, fault: CallFault) -> Result<(), CallFault>
    ensures { result ≡ refused_if test fault }
{
    if test { Err(fault) } else { Ok(()) }
}

// Whether a day is after another.
pub(super) fn is_after(day: Day, other: Day) -> bool
    ensures { result ≡ is_after day other }
{
    other < day
}

// Claim days are in order, and reported by the booking day.
pub(super) fn check_days(claim_days: ClaimDays, booked: Day) -> Result<(), CallFault>
    ensures { result ≡ days_checked claim_days booked }
{
    refused_if(!claim_days.in_order(), CallFault::DaysOutOfOrder)?;
    refused_if(is_after(claim_days.report, booked), CallFault::AfterBooking)
}

// A movement takes effect from the claim's report day to the booking day.
pub(super) fn check_effective(
    claim_days: ClaimDays,
    effective: Day,
    booked: Day,
) -> Result<(), CallFault>
    ensures { result ≡ effective_checked claim_days effective booked }
{
    refused_if(
        is_after(claim_days.report, effective),
        CallFault::BeforeReport,
    )?;
    refused_if(is_after(effective, booked), CallFault::AfterBooking)
}

// The movement with a number, if it stands.
pub(super) fn standing_movement<R: Register>(register: &R, number: u32) -> Result<Entry, CallFault>
    ensures verdict { result ≡ standing_movement (R.meaning register.now).entries number }
    ensures known { IfOk result (λ e. is_claim (R.meaning register.now).bound e.claim ≡ true) }
{
    let entry = register.entry(number).ok_or(CallFault::NoSuchEntry)?;
    refused_if(!entry.is_movement(), CallFault::NotAMovement)?;
    refused_if(!stands(register, number), CallFault::NotStanding)?;
    Ok(entry)
}

// Whether the last entry was booked after a day.
fn booked_after<R: Register>(register: &R, day: Day) -> bool
    ensures { result ≡ booked_after (entry_in (R.meaning register.now).entries (length (R.meaning register.now).entries)) day }
{
    register
        .entry(register.len())
        .is_some_and(|last| is_after(last.booked, day))
}

// Whether an entry is a movement that stands, with an effective day before the report day.
fn is_earlier<R: Register>(register: &R, report: Day, found: NumberedEntry) -> bool
    ensures { result ≡ earlier_movement (R.meaning register.now).entries report found.number found.entry }
{
    terms_of(found.entry.content).is_some_and(|terms| is_after(report, terms.effective))
        && stands(register, found.number)
}

// Whether a standing movement of the claim has an effective day before the report day.
pub(super) fn moved_before<R: Register>(register: &R, claim: u32, report: Day) -> bool
    ensures { result ≡ moved_before_from (R.meaning register.now).entries claim report 0 (R.meaning register.now).entries }
{
    claim_entries(register, claim, 0).any(|found| is_earlier(register, report, found))
}

impl<R: Register, C: Cohort> Cube<R, C> {
    // A sheet is as long as the cohort asks.
    pub(super) fn check_sheet(&self, sheet: usize) -> Result<(), CallFault>
        ensures verdict { result ≡ query_checked (state_of R.meaning C.meaning self.now) sheet }
        ensures fits { OnOk result (sheet ≡ sheet_length (C.meaning self.now.cohort)) }
    {
        refused_if(sheet != sheet_length(&self.cohort), CallFault::SheetLength)
    }

    // The checks of every call with a booking day, by the length of the sheet that it is lent.
    pub(super) fn check_booking(&self, sheet: usize, booked: Day) -> Result<(), CallFault>
        ensures verdict { result ≡ booking_checked (state_of R.meaning C.meaning self.now) sheet booked }
        ensures passed { OnOk result ((sheet ≡ sheet_length (C.meaning self.now.cohort)) × (length (R.meaning self.now.register).entries ≡ (R.meaning self.now.register).capacity → ⊥)) }
    {
        self.check_sheet(sheet)?;
        refused_if(
            booked_after(&self.register, booked),
            CallFault::BookedEarlier,
        )?;
        refused_if(
            self.register.len() == self.register.capacity(),
            CallFault::RegisterFull,
        )
    }

    // Whether the entry with a number is under the open draft.
    pub(super) fn is_drafted(&self, number: u32) -> bool
        ensures { result ≡ on_draft self.now.draft number }
    {
        self.draft == Some(number)
    }
}
