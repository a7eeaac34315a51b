// Iterators over the entries of a register, each with its number.
ghost use Rattle.std.specs.Prelude.{◌≤◌};

mod methods;

pub use methods::{all_entries, claim_entries};

// The entries after a number, in booking order.
#[derive(Drop)]
pub struct Entries<'a, R> {
    register: &'a R,
    after: u32,
    ghost few: { after ≤ 65536 },
}

// The entries of a claim after a number, in booking order.
#[derive(Drop)]
pub struct ClaimEntries<'a, R> {
    register: &'a R,
    claim: u32,
    after: u32,
}
