// What a register is.
ghost use Rattle.std.specs.Prelude.{◌≡◌, length};
ghost use Rattle.register.specs.Entries.{entry_in, openings_in};
ghost use Rattle.register.specs.Registers.{Meaning, Sound, next_in, add_answer, after_add};

use crate::entry::Entry;
use crate::fault::AddFault;
use crate::numbered::NumberedEntry;

// A list of entries that only grows, with a capacity and a claim bound that never alter.
pub trait Register {
    ghost meaning: { Self → Meaning };

    ghost sound: { (r : Self) → Sound (meaning r) };

    // How many entries there are.
    fn len(&self) -> u32
        ensures { result ≡ length (meaning self.now).entries };

    // How many entries there may be.
    fn capacity(&self) -> u32
        ensures { result ≡ (meaning self.now).capacity };

    // The highest claim number.
    fn claim_bound(&self) -> u32
        ensures { result ≡ (meaning self.now).bound };

    // How many claims were opened.
    fn openings(&self) -> u32
        ensures { result ≡ openings_in (meaning self.now).entries };

    // The entry with a number, none for 0 and past the last.
    fn entry(&self, number: u32) -> Option<Entry>
        ensures { result ≡ entry_in (meaning self.now).entries number };

    // The first entry of a claim after a number.
    fn next_of_claim(&self, claim: u32, after: u32) -> Option<NumberedEntry>
        ensures { result ≡ next_in (meaning self.now).entries claim after };

    // One entry more at the end, and its number; a refusal alters nothing.
    fn add(&mut self, entry: Entry) -> Result<u32, AddFault>
        ensures answer { result ≡ add_answer (meaning self.old) entry }
        ensures after { meaning self.new ≡ after_add (meaning self.old) entry };
}
