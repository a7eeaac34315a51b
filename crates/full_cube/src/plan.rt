// What a run is to do.
use anyhow::Context;
use samples::arguments::setting;
use samples::size::BookSize;
use std::env::{self, Args};
use std::iter::Skip;
use std::str::FromStr;

// The registers that are run, or that the book is written out.
#[derive(Clone, Copy, PartialEq)]
pub enum Task {
    Flat,
    Paged,
    Both,
    Book,
}

// The word names no task.
#[derive(Clone, Copy, Debug)]
pub struct NoTask;

impl FromStr for Task {
    type Err = NoTask;

    // by arms, since each word stands in this place alone
    fn from_str(word: &str) -> Result<Task, NoTask> {
        match word {
            "flat" => Ok(Task::Flat),
            "paged" => Ok(Task::Paged),
            "both" => Ok(Task::Both),
            "book" => Ok(Task::Book),
            _ => Err(NoTask),
        }
    }
}

// The task, the size of the book, and how often it is booked and how often queried as it is known at its end.
#[derive(Clone, Copy)]
pub struct Plan {
    pub task: Task,
    pub size: BookSize,
    pub bookings: u32,
    pub queries: u32,
}

impl Plan {
    // The plan by words in the order of its settings, of which the last may be left out; none where a word does not fit.
    fn read(mut words: Skip<Args>) -> Option<Plan> {
        let plan = Plan {
            task: setting(words.next(), Task::Both)?,
            size: BookSize::named(words.next(), words.next())?,
            bookings: setting(words.next(), 1)?,
            queries: setting(words.next(), 1)?,
        };
        words.next().is_none().then_some(plan)
    }

    // The plan by the program's arguments.
    pub fn from_arguments(rt: &HostRuntime) -> anyhow::Result<Plan> {
        Plan::read(env::args(rt)?.skip(1)).context(
            "usage: full_cube [flat|paged|both|book [ENTRIES [CLAIMS [BOOKINGS [QUERIES]]]]]",
        )
    }
}
