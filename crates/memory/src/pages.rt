// How many pages a paged register needs.
ghost use Rattle.std.specs.Prelude.{◌≡◌, ◌≤◌};
ghost use Rattle.memory.specs.Pages.{pages_needed};

use register::limits::PAGE_SLOTS;

// Enough for so many entries however they fall: every claim may leave up to 15 slots of its last page unused.
pub(crate) fn pages_needed(entries: usize, claims: usize) -> usize
    requires entries { entries ≤ 65536 }
    requires claims { claims ≤ 8192 }
    ensures { result ≡ pages_needed entries claims }
{
    (entries + (PAGE_SLOTS - 1) * claims).div_ceil(PAGE_SLOTS)
}
