// The paged register: a register that keeps the entries of a claim together.
ghost use Rattle.std.specs.Prelude.{◌≡◌, ◌≤◌, length};
ghost use Rattle.register.specs.Entries.{openings_in};
ghost use Rattle.register.specs.Pages.{Laid, entries_of, paged_capacity};

use crate::bounded::BoundedList;
use crate::cards::{ClaimCard, PageCard};
use crate::numbered::NumberedEntry;

mod adding;
pub mod capacity;
mod methods;

// Slots in pages of 16, each page of one claim; the cards of the pages in use; a card for each claim; and the slot of each
// entry by its number.
// No `impl Model`: a view would forget the ghost fields, from which the law `sound` of `Register` is proved of every value.
#[derive(Drop)]
pub struct PagedRegister<'a> {
    pages: BoundedList<'a, PageCard>,
    slots: &'a mut [NumberedEntry],
    claims: &'a mut [ClaimCard],
    places: BoundedList<'a, u32>,
    opened: u32,
    ghost laid: { Laid pages.items slots.now claims.now places.items },
    ghost few: { length claims.now ≤ 8192 },
    ghost spacious: { length places.items ≤ paged_capacity pages.room (length slots.now) (length claims.now) places.room },
    ghost openings: { opened ≡ openings_in (entries_of slots.now places.items) },
}
