// What both registers ask of an entry that is added.
ghost use Rattle.std.specs.Prelude.{◌≡◌, ◌≢◌, ◌==◌, true, if◌then◌else◌, IfOk};
ghost use Rattle.register.specs.declared.fault.AddFault.TheVariants.{NoSuchClaim, Full};
ghost use Rattle.register.specs.Entries.{is_opening};
ghost use Rattle.register.specs.Registers.{is_claim};

use crate::entry::Entry;
use crate::fault::AddFault;

// Whether a register with this claim bound takes the claim.
pub(crate) fn is_claim(bound: u32, claim: u32) -> bool
    ensures { result ≡ is_claim bound claim }
{
    1 <= claim && claim <= bound
}

// Why a register with this claim bound, length and capacity takes no entry of the claim, if it takes none.
pub(crate) fn check_add(bound: u32, claim: u32, len: u32, capacity: u32) -> Result<(), AddFault>
    ensures answer { result ≡ (if is_claim bound claim then (if len == capacity then Err Full else Ok tt) else Err NoSuchClaim) }
    ensures known { IfOk result (λ _. is_claim bound claim ≡ true) }
    ensures free { IfOk result (λ _. len ≢ capacity) }
{
    if !is_claim(bound, claim) {
        return Err(AddFault::NoSuchClaim);
    }
    if len == capacity {
        return Err(AddFault::Full);
    }
    Ok(())
}

// By how much the entry raises the number of openings.
pub(crate) fn openings_of(entry: Entry) -> u32
    ensures { result ≡ (if is_opening entry then 1 else 0) }
{
    u32::from(entry.is_opening())
}
