// What a run is to do.
use anyhow::Context;
use samples::arguments::setting;
use samples::size::BookSize;
use std::env::{self, Args};
use std::iter::Skip;
use std::str::FromStr;

// Which registers are run.
#[derive(Clone, Copy, PartialEq)]
pub enum Kind {
    Flat,
    Paged,
    Both,
}

// The word names no kind.
#[derive(Clone, Copy, Debug)]
pub struct NoKind;

impl FromStr for Kind {
    type Err = NoKind;

    // by arms, since each word stands in this place alone
    fn from_str(word: &str) -> Result<Kind, NoKind> {
        match word {
            "flat" => Ok(Kind::Flat),
            "paged" => Ok(Kind::Paged),
            "both" => Ok(Kind::Both),
            _ => Err(NoKind),
        }
    }
}

// The registers, the size of the book, and how often it is walked through by claim, read by number and booked.
#[derive(Clone, Copy)]
pub struct Plan {
    pub kind: Kind,
    pub size: BookSize,
    pub walks: u32,
    pub reads: u32,
    pub bookings: u32,
}

impl Plan {
    // The plan by words in the order of its settings, of which the last may be left out; none where a word does not fit.
    fn read(mut words: Skip<Args>) -> Option<Plan> {
        let plan = Plan {
            kind: setting(words.next(), Kind::Both)?,
            size: BookSize::named(words.next(), words.next())?,
            walks: setting(words.next(), 1)?,
            reads: setting(words.next(), 1)?,
            bookings: setting(words.next(), 1)?,
        };
        words.next().is_none().then_some(plan)
    }

    // The plan by the program's arguments.
    pub fn from_arguments(rt: &HostRuntime) -> anyhow::Result<Plan> {
        Plan::read(env::args(rt)?.skip(1)).context(
            "usage: full_size [flat|paged|both [ENTRIES [CLAIMS [WALKS [READS [BOOKINGS]]]]]]",
        )
    }
}
