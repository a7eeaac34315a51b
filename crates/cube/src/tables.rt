// Tables of the first entries of a register.
ghost use Rattle.std.specs.Prelude.{◌≡◌, ◌+◌, ◌<◌, false, not, ◌&&◌, [], get_or, take, IfOk, None, vec_len, slice_index_or, slice_set, Some};
ghost use Rattle.register.specs.Entries.{days_after, entry_in};
ghost use Rattle.cube.specs.Tables.{Tabled, replaced_next};

use crate::reading::{days_after, entry_among};
use register::entries::all_entries;
use register::entry::Entry;
use register::register::Register;
use std::alloc::{AllocError, Global};
use values::claim_days::ClaimDays;

// For the first `count` entries: the claim days in force, by claim number, and whether a later entry corrects or voids the
// entry, by entry number. The numbers are dense from 1, so each map is a Vec.
#[derive(Drop)]
pub(crate) struct Tables {
    pub(crate) count: u32,
    claim_days: Vec<Option<ClaimDays>>,
    replaced: Vec<bool>,
}

// The number of the entry that an entry corrects or voids: the one that it names, if that is before it and of its claim.
fn replaced_by<R: Register>(register: &R, before: u32, entry: Entry) -> Option<u32>
    ensures { result ≡ replaced_next (take before (R.meaning register.now).entries) entry }
{
    let named = entry.named()?;
    let found = entry_among(register, before, named)?;
    (found.claim == entry.claim).then_some(named)
}

impl Tables {
    // The tables of no entries, for claims up to a bound.
    fn new(heap: Global, count: u32, claim_bound: u32) -> Result<Tables, AllocError>
        ensures tables { IfOk result (λ t. Tabled claim_bound [] t) }
        ensures count { IfOk result (λ t. t.count ≡ count) }
    {
        let claim_days = vec![in heap; None; claim_bound as usize + 1]?;
        let replaced = vec![in heap; false; count as usize + 1]?;
        Ok(Tables {
            count,
            claim_days,
            replaced,
        })
    }

    // Notes the claim days that an entry leaves in force.
    fn note_days(&mut self, entry: Entry)
        requires { entry.claim < vec_len self.old.claim_days }
        ensures days { self.new.claim_days.items ≡ slice_set self.old.claim_days.items entry.claim (days_after (get_or self.old.claim_days.items entry.claim None) entry.content) }
        ensures replaced { self.new.replaced ≡ self.old.replaced }
        ensures count { self.new.count ≡ self.old.count }
    {
        let claim = entry.claim as usize;
        self.claim_days[claim] = days_after(self.claim_days[claim], entry);
    }

    // Notes the entry that comes after the first `before` entries.
    fn note<R: Register>(&mut self, register: &R, before: u32, entry: Entry)
        requires tables { Tabled (R.meaning register.now).bound (take before (R.meaning register.now).entries) self.old }
        requires before { before < self.old.count }
        requires next { Some entry ≡ entry_in (R.meaning register.now).entries (before + 1) }
        ensures tables { Tabled (R.meaning register.now).bound (take (before + 1) (R.meaning register.now).entries) self.new }
        ensures count { self.new.count ≡ self.old.count }
    {
        self.note_days(entry);
        if let Some(replaced) = replaced_by(register, before, entry) {
            self.replaced[replaced as usize] = true;
        }
    }

    // The tables of the first `count` entries.
    pub(crate) fn of<R: Register>(
        heap: Global,
        register: &R,
        count: u32,
    ) -> Result<Tables, AllocError>
        ensures tables { IfOk result (λ t. Tabled (R.meaning register.now).bound (take count (R.meaning register.now).entries) t) }
        ensures count { IfOk result (λ t. t.count ≡ count) }
    {
        let mut tables = Tables::new(heap, count, register.claim_bound())?;
        for next in all_entries(register).take(count as usize) {
            tables.note(register, next.number - 1, next.entry);
        }
        Ok(tables)
    }

    // The claim days in force of a claim.
    pub(crate) fn claim_days_of(&self, claim: u32) -> Option<ClaimDays>
        requires { claim < vec_len self.now.claim_days }
        ensures { result ≡ get_or self.now.claim_days.items claim None }
    {
        self.claim_days[claim as usize]
    }

    // Whether a later entry corrects or voids the entry with a number.
    pub(crate) fn is_replaced(&self, number: u32) -> bool
        requires { number < vec_len self.now.replaced }
        ensures { result ≡ slice_index_or self.now.replaced.items number false }
    {
        self.replaced[number as usize]
    }
}
