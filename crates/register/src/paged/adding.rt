// Where the next entry of a claim goes.
ghost use Rattle.std.specs.Prelude.{◌≡◌, ◌+◌, ◌^◌, ◌<◌, length};
ghost use Rattle.register.specs.Pages.{free_slot, pages_after, card_after};

use crate::bounded::BoundedList;
use crate::cards::{ClaimCard, PageCard};
use crate::limits::PAGE_SLOTS;

// The slot for the next entry of a claim, by its card and the slot of its last entry. A page is taken into use, and linked
// to the claim's page before it, where that one is full or there is none.
pub(super) fn free_slot(
    pages: &mut BoundedList<'_, PageCard>,
    card: ClaimCard,
    last_slot: usize,
) -> usize
    requires free { card.spare ≡ 0 → length pages.old.items < pages.old.room }
    requires few { length pages.old.items < 2 ^ 32 }
    requires within { last_slot + 1 < 2 ^ 64 }
    ensures slot { result ≡ free_slot pages.old.items card last_slot }
    ensures pages { pages.new.items ≡ pages_after pages.old.items card last_slot }
    ensures room { pages.new.room ≡ pages.old.room }
{
    if card.spare > 0 {
        return last_slot + 1;
    }
    let page = pages.len();
    pages.push(PageCard::default()).unwrap();
    if card.last > 0 {
        pages.put(last_slot / PAGE_SLOTS, PageCard { next: page as u32 });
    }
    PAGE_SLOTS * page
}

// The claim's card once the entry with this number is its last, `pages` pages having been in use before it.
pub(super) fn moved_on(card: ClaimCard, pages: u32, number: u32) -> ClaimCard
    ensures { result ≡ card_after pages card number }
{
    ClaimCard {
        first: if card.last == 0 { pages } else { card.first },
        last: number,
        spare: if card.spare == 0 {
            PAGE_SLOTS as u32 - 1
        } else {
            card.spare - 1
        },
    }
}
