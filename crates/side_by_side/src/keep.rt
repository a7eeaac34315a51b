// Keeping a book on two registers, and saying what they answer.
use crate::compare::{Answers, ask_both};
use crate::request::{Answer, Request};
use register::entry::Entry;
use register::register::Register;

// How many requests were put to both registers, and to how many they answered differently.
#[derive(Clone, Copy, Default)]
pub struct Tally {
    pub asked: u32,
    pub differing: u32,
}

impl Tally {
    // One request more.
    fn count(&mut self, alike: bool) {
        self.asked = self.asked.saturating_add(1);
        if !alike {
            self.differing = self.differing.saturating_add(1);
        }
    }
}

// Two registers that are asked the same, and what came of it.
#[derive(Drop)]
pub struct Desk<'a, F, P> {
    rt: &'a HostRuntime,
    flat: F,
    paged: P,
    tally: Tally,
}

impl<'a, F: Register, P: Register> Desk<'a, F, P> {
    // Two registers that were asked nothing yet.
    pub fn new(rt: &'a HostRuntime, flat: F, paged: P) -> Desk<'a, F, P> {
        Desk {
            rt,
            flat,
            paged,
            tally: Tally::default(),
        }
    }

    // Puts a request to both registers, prints it with both answers, and counts it. The answer is that of the flat log.
    fn ask(&mut self, request: Request) -> anyhow::Result<Answer> {
        let Answers { first, second } = ask_both(&mut self.flat, &mut self.paged, request);
        self.tally.count(first == second);
        let rt = self.rt;
        println!(rt; "{request}\n    flat log        {first}\n    paged register  {second}")?;
        Ok(first)
    }

    // Books every entry.
    fn book_all(&mut self, book: &[Entry]) -> anyhow::Result<()> {
        let rt = self.rt;
        println!(rt; "\nBOOKING\n")?;
        for entry in book {
            self.ask(Request::Add(*entry))?;
        }
        Ok(())
    }

    // Asks for every number that a register tells of itself, and for every entry by its number.
    fn ask_figures(&mut self) -> anyhow::Result<()> {
        let rt = self.rt;
        println!(rt; "\nWHAT THE REGISTERS HOLD\n")?;
        for request in [
            Request::Length,
            Request::Capacity,
            Request::ClaimBound,
            Request::Openings,
        ] {
            self.ask(request)?;
        }
        for number in 0..self.flat.len().saturating_add(2) {
            self.ask(Request::Entry(number))?;
        }
        Ok(())
    }

    // Goes through the entries of a claim, from each to the next.
    // The steps are not taken by the register's iterator, since each is a request to both registers.
    fn walk_claim(&mut self, claim: u32) -> anyhow::Result<()> {
        self.ask(Request::EntriesOfClaim(claim))?;
        let mut after = 0;
        // one step for each entry at most, and a last one that finds none
        for _ in 0..self.flat.len().saturating_add(1) {
            let request = Request::NextOfClaim { claim, after };
            let Answer::Numbered(Some(found)) = self.ask(request)? else {
                break;
            };
            after = found.number;
        }
        Ok(())
    }

    // Keeps the book on both registers, puts every question to both, and prints all of it.
    pub fn keep(&mut self, book: &[Entry]) -> anyhow::Result<Tally> {
        self.book_all(book)?;
        self.ask_figures()?;
        let rt = self.rt;
        println!(rt; "\nTHE ENTRIES OF EACH CLAIM\n")?;
        for claim in 0..self.flat.claim_bound().saturating_add(2) {
            self.walk_claim(claim)?;
        }
        Ok(self.tally)
    }
}
