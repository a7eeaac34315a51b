// What a register's entries say of a claim or a movement.
ghost use Rattle.std.specs.Prelude.{◌≡◌, true, take, drop, OnSome};
ghost use Rattle.register.specs.Registers.{is_claim};
ghost use Rattle.register.specs.Entries.{claim_days_in, days_after, entry_in, kind_in, stands_in, replaces, is_number, named_by};

use register::entries::claim_entries;
use register::entry::{Content, Entry};
use register::kind::MovementKind;
use register::register::Register;
use values::claim_days::ClaimDays;

// The claim days in force after an entry of the claim, by those before it.
pub(crate) fn days_after(before: Option<ClaimDays>, entry: Entry) -> Option<ClaimDays>
    ensures { result ≡ days_after before entry.content }
{
    match entry.content {
        Content::Opening(claim_days) | Content::Redating(claim_days) => Some(claim_days),
        _ => before,
    }
}

// The claim days in force: those of the claim's last opening or redating.
pub fn claim_days_in_force<R: Register>(register: &R, claim: u32) -> Option<ClaimDays>
    ensures value { result ≡ claim_days_in (R.meaning register.now).entries claim }
    ensures known { OnSome result (is_claim (R.meaning register.now).bound claim ≡ true) }
{
    claim_entries(register, claim, 0).fold(None, |days, found| days_after(days, found.entry))
}

// Whether the entry corrects or voids the entry with a number.
fn names(entry: Entry, number: u32) -> bool
    ensures { result ≡ is_number (named_by entry) number }
{
    entry.named() == Some(number)
}

// Whether an entry of the claim after the one with this number corrects or voids it.
pub fn is_replaced<R: Register>(register: &R, claim: u32, number: u32) -> bool
    ensures { result ≡ replaces (drop number (R.meaning register.now).entries) claim number }
{
    claim_entries(register, claim, number).any(|found| names(found.entry, number))
}

// Whether the entry with a number is a movement that stands.
pub fn stands<R: Register>(register: &R, number: u32) -> bool
    ensures { result ≡ stands_in (R.meaning register.now).entries number }
{
    register.entry(number).is_some_and(|entry| entry.is_movement()
        && !is_replaced(register, entry.claim, number))
}

// The entry with a number, among the first `count` entries.
pub(crate) fn entry_among<R: Register>(register: &R, count: u32, number: u32) -> Option<Entry>
    ensures { result ≡ entry_in (take count (R.meaning register.now).entries) number }
{
    // No `then`: the register's answer is an Option already, and would be an Option within another.
    if number <= count {
        register.entry(number)
    } else {
        None
    }
}

// Whether the entry with a number counts as a payment or as a reserve change, by the first `count` entries; a correction counts
// as what it names.
pub(crate) fn kind_among<R: Register>(register: &R, count: u32, number: u32) -> Option<MovementKind>
    ensures { result ≡ kind_in (take count (R.meaning register.now).entries) number }
{
    let mut at = number;
    // So many steps and no more: a bound ends the walk, also over entries that name one another in a circle.
    'chain: for _ in 0..number {
        let entry = entry_among(register, count, at)?;
        match entry.content {
            Content::Payment(_) => return Some(MovementKind::Paid),
            Content::ReserveChange(_) => return Some(MovementKind::Reserved),
            Content::Correction(correction) => at = correction.names,
            Content::Opening(_) | Content::Void(_) | Content::Redating(_) => return None,
        }
    }
    None
}

// Whether the entry with a number counts as a payment or as a reserve change.
pub fn kind_of<R: Register>(register: &R, number: u32) -> Option<MovementKind>
    ensures { result ≡ kind_in (R.meaning register.now).entries number }
{
    kind_among(register, register.len(), number)
}
