// Memory for a paged register.
ghost use Rattle.std.specs.Prelude.{◌≡◌, IfOk};
ghost use Rattle.memory.specs.Empty.{empty};
ghost use Rattle.memory.specs.Paged.{paged_room};
ghost use Rattle.register.specs.Paged.{paged_meaning};

use crate::pages::pages_needed;
use register::cards::{ClaimCard, PageCard};
use register::entry::Entry;
use register::limits::{MOST_CLAIMS, MOST_ENTRIES, PAGE_SLOTS};
use register::numbered::NumberedEntry;
use register::paged::PagedRegister;
use std::alloc::{AllocError, Global};

// What stands in the cards, slots and places before a register is made over them; nothing depends on it.
const LEFTOVER: u32 = 77;

// Slots in pages of 16 with a card for each page, a card for each claim, and a place for each entry.
#[derive(Drop)]
pub struct PagedMemory {
    page_cards: Vec<PageCard>,
    slots: Vec<NumberedEntry>,
    claim_cards: Vec<ClaimCard>,
    places: Vec<u32>,
}

impl PagedMemory {
    // Memory for so many entries over so many claims, up to the limits of a register, however the entries fall. An entry
    // lies in each slot before.
    pub fn filled(
        heap: Global,
        entry: Entry,
        entries: u32,
        claims: u32,
    ) -> Result<PagedMemory, AllocError>
        ensures { IfOk result (λ memory. paged_room memory ≡ empty entries claims) }
    {
        let entries = entries.min(MOST_ENTRIES) as usize;
        let claims = claims.min(MOST_CLAIMS) as usize;
        let pages = pages_needed(entries, claims);
        let number = LEFTOVER;
        let card = ClaimCard {
            first: LEFTOVER,
            last: LEFTOVER,
            spare: LEFTOVER,
        };
        Ok(PagedMemory {
            page_cards: vec![in heap; PageCard { next: LEFTOVER }; pages]?,
            slots: vec![in heap; NumberedEntry { number, entry }; PAGE_SLOTS * pages]?,
            claim_cards: vec![in heap; card; claims]?,
            places: vec![in heap; LEFTOVER; entries]?,
        })
    }

    // The empty register over this memory, whatever lies in it.
    pub fn register(&mut self) -> PagedRegister<'_>
        ensures { paged_meaning result ≡ paged_room self.old }
    {
        PagedRegister::new(
            self.page_cards.as_mut_slice(),
            self.slots.as_mut_slice(),
            self.claim_cards.as_mut_slice(),
            self.places.as_mut_slice(),
        )
    }
}
