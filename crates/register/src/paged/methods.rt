// Making a paged register, and its answers.
ghost use Rattle.std.specs.Prelude.{◌≡◌, ◌+◌, ◌*◌, ◌^◌, ◌<◌, true, length, if◌then◌else◌};
ghost use Rattle.register.specs.Entries.{is_entry_of};
ghost use Rattle.register.specs.Pages.{place_of, slot_at, card_of, next_slot};
ghost use Rattle.register.specs.Registers.{is_claim};
ghost use Rattle.register.specs.Paged.{paged_meaning, paged_sound, new_paged};

use super::PagedRegister;
use super::adding::{free_slot, moved_on};
use super::capacity::paged_capacity;
use crate::adding::{check_add, is_claim, openings_of};
use crate::bounded::BoundedList;
use crate::cards::{ClaimCard, PageCard};
use crate::entry::Entry;
use crate::fault::AddFault;
use crate::limits::{MOST_CLAIMS, PAGE_SLOTS};
use crate::numbered::NumberedEntry;
use crate::register::Register;

impl<'a> PagedRegister<'a> {
    // The empty register over lent memory, whatever it holds.
    pub fn new(
        page_cards: &'a mut [PageCard],
        slots: &'a mut [NumberedEntry],
        claim_cards: &'a mut [ClaimCard],
        places: &'a mut [u32],
    ) -> PagedRegister<'a>
        ensures { paged_meaning result ≡ new_paged (length page_cards.old) (length slots.old) (length claim_cards.old) (length places.old) }
    {
        let bound = claim_cards.len().min(MOST_CLAIMS as usize);
        let claims = &mut claim_cards[0..bound];
        claims.fill(ClaimCard::default());
        PagedRegister {
            pages: BoundedList::new(page_cards),
            slots,
            claims,
            places: BoundedList::new(places),
            opened: 0,
        }
    }

    // The slot of the entry with a number, entry 1's for 0, and 0 past the last: no `Option`, since no caller uses it there.
    fn place_of(&self, number: u32) -> usize
        ensures value { result ≡ place_of self.now.places.items number }
        ensures small { result < 2 ^ 32 }
    {
        let place = self.places.get(number.saturating_sub(1) as usize);
        place.unwrap_or(0) as usize
    }

    // What a slot holds.
    fn slot(&self, slot: usize) -> NumberedEntry
        requires { slot < length self.now.slots.now }
        ensures { result ≡ slot_at self.now.slots.now slot }
    {
        self.slots[slot]
    }

    // The card of a claim.
    fn card(&self, claim: u32) -> ClaimCard
        requires { is_claim (length self.now.claims.now) claim ≡ true }
        ensures { result ≡ card_of self.now.claims.now claim }
    {
        self.claims[claim as usize - 1]
    }

    // Whether the entry with a number is one of the claim's.
    fn is_entry_of(&self, claim: u32, number: u32) -> bool
        ensures { result ≡ is_entry_of (paged_meaning self.now).entries claim number }
    {
        self.entry(number).is_some_and(|entry| entry.claim == claim)
    }

    // Where to look for the claim's first entry after a number: right behind the entry with that number if it is one of the
    // claim's, else at the claim's start.
    fn start_slot(&self, card: ClaimCard, claim: u32, after: u32) -> usize
        ensures { result ≡ (if is_entry_of (paged_meaning self.now).entries claim after then next_slot self.now.pages.items (place_of self.now.places.items after) else 16 * card.first) }
    {
        if self.is_entry_of(claim, after) {
            self.next_slot(self.place_of(after))
        } else {
            PAGE_SLOTS * card.first as usize
        }
    }

    // The slot after a slot: the next of its page, or the first of the page that follows.
    fn next_slot(&self, slot: usize) -> usize
        requires { slot + 1 < 2 ^ 64 }
        ensures { result ≡ next_slot self.now.pages.items slot }
    {
        if slot % PAGE_SLOTS < PAGE_SLOTS - 1 {
            return slot + 1;
        }
        let page = self.pages.get(slot / PAGE_SLOTS).unwrap_or_default();
        PAGE_SLOTS * page.next as usize
    }
}

impl Register for PagedRegister<'_> {
    ghost meaning = { paged_meaning };

    ghost sound = { paged_sound };

    fn len(&self) -> u32 {
        self.places.len() as u32
    }

    fn capacity(&self) -> u32 {
        paged_capacity(
            self.pages.room(),
            self.slots.len(),
            self.claims.len(),
            self.places.room(),
        )
    }

    fn claim_bound(&self) -> u32 {
        self.claims.len() as u32
    }

    fn openings(&self) -> u32 {
        self.opened
    }

    fn entry(&self, number: u32) -> Option<Entry> {
        let place = self.places.get(number.checked_sub(1)? as usize)?;
        Some(self.slot(place as usize).entry)
    }

    fn next_of_claim(&self, claim: u32, after: u32) -> Option<NumberedEntry> {
        if !is_claim(self.claim_bound(), claim) {
            return None;
        }
        let card = self.card(claim);
        if card.last <= after {
            return None;
        }
        // a loop, since the links have no end of their own: the walk stops at the entry that it looks for
        let mut slot = self.start_slot(card, claim, after);
        let mut found = self.slot(slot);
        while found.number <= after {
            slot = self.next_slot(slot);
            found = self.slot(slot);
        }
        Some(found)
    }

    fn add(&mut self, entry: Entry) -> Result<u32, AddFault> {
        let len = self.len();
        check_add(self.claim_bound(), entry.claim, len, self.capacity())?;
        let number = len + 1;
        let card = self.card(entry.claim);
        let last_slot = self.place_of(card.last);
        let PagedRegister {
            pages,
            slots,
            claims,
            places,
            opened,
        } = self;
        let used = pages.len() as u32;
        let slot = free_slot(pages, card, last_slot);
        slots[slot] = NumberedEntry { number, entry };
        claims[entry.claim as usize - 1] = moved_on(card, used, number);
        places.push(slot as u32).unwrap();
        *opened += openings_of(entry);
        Ok(number)
    }
}
