// How many entries surely fit into a paged register.
ghost use Rattle.std.specs.Prelude.{◌≡◌};
ghost use Rattle.register.specs.Pages.{paged_capacity};

use crate::limits::{MOST_ENTRIES, PAGE_SLOTS};

// A claim's last page may have up to 15 slots that no other claim can use, so so many are set aside for each claim.
pub fn paged_capacity(page_cards: usize, slots: usize, claim_cards: usize, places: usize) -> u32
    ensures { result ≡ paged_capacity page_cards slots claim_cards places }
{
    let most = MOST_ENTRIES as usize;
    let pages = page_cards.min(slots / PAGE_SLOTS).min(most);
    let sure = (PAGE_SLOTS * pages).saturating_sub(claim_cards.saturating_mul(PAGE_SLOTS - 1));
    sure.min(places).min(most) as u32
}
