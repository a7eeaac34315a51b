// How large a book is, and what comes evenly over it.
ghost use Rattle.std.specs.Prelude.{◌≡◌, SomeIff};
ghost use Rattle.samples.specs.Size.{Fits, come_by, named, opens_claim};

use crate::arguments::number_up_to;
use crate::samples::DAYS_OF_YEAR;
use register::limits::{MOST_CLAIMS, MOST_ENTRIES};

// The days that a book covers: ten years.
pub const BOOK_DAYS: u32 = 10 * DAYS_OF_YEAR as u32;

// How many entries a book has, and over how many claims.
#[derive(Clone, Copy, PartialEq, Eq, Debug)]
pub struct BookSize {
    pub entries: u32,
    pub claims: u32,
}

impl BookSize {
    // The size that two words name, within what a register takes; a large book's where they are left out.
    pub fn named(entries: Option<String>, claims: Option<String>) -> Option<BookSize>
        ensures { SomeIff result (Fits 65536 entries × Fits 8192 claims) (record { entries = named 30000 entries; claims = named 4000 claims }) }
    {
        Some(BookSize {
            entries: number_up_to(MOST_ENTRIES, entries, 30_000)?,
            claims: number_up_to(MOST_CLAIMS, claims, 4_000)?,
        })
    }

    // How much of a total has come by the entry with an index, where it comes evenly over the book.
    pub fn come_by(self, index: u32, total: u32) -> u64
        ensures { result ≡ come_by self.entries index total }
    {
        index as u64 * total as u64 / self.entries.max(1) as u64
    }

    // Whether the entry with an index opens a claim, where so many are open by then. They are opened evenly over the book.
    pub fn opens_claim(self, index: u32, opened: u32) -> bool
        ensures { result ≡ opens_claim self.entries self.claims index opened }
    {
        opened < self.claims && opened as u64 <= self.come_by(index, self.claims)
    }
}
