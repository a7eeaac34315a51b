// The flat log: a register that keeps its entries in one stretch of memory.
ghost use Rattle.std.specs.Prelude.{◌≡◌, ◌≤◌, min, true, length};
ghost use Rattle.register.specs.Entries.{openings_in};
ghost use Rattle.register.specs.Registers.{claims_known};

use crate::bounded::BoundedList;
use crate::entry::Entry;

mod methods;

// Entries in booking order, a claim bound, and how many claims they open.
// No `impl Model`: a view would forget the ghost fields, from which the law `sound` of `Register` is proved of every value.
#[derive(Drop)]
pub struct FlatLog<'a> {
    entries: BoundedList<'a, Entry>,
    bound: u32,
    opened: u32,
    ghost few: { bound ≤ 8192 },
    ghost within: { length entries.items ≤ min entries.room 65536 },
    ghost counted: { opened ≡ openings_in entries.items },
    ghost known: { claims_known bound entries.items ≡ true },
}
