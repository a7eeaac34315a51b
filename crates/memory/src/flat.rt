// Memory for a flat log.
ghost use Rattle.std.specs.Prelude.{◌≡◌, IfOk};
ghost use Rattle.memory.specs.Empty.{empty};
ghost use Rattle.memory.specs.Flat.{flat_room};
ghost use Rattle.register.specs.Flat.{flat_meaning};

use register::entry::Entry;
use register::flat::FlatLog;
use register::limits::MOST_ENTRIES;
use std::alloc::{AllocError, Global};

// A slot for each entry, and the claim bound of the logs that are made here.
#[derive(Drop)]
pub struct FlatMemory {
    slots: Vec<Entry>,
    claims: u32,
}

impl FlatMemory {
    // Memory for so many entries over so many claims, up to the limits of a register. An entry lies in each slot before.
    pub fn filled(
        heap: Global,
        entry: Entry,
        entries: u32,
        claims: u32,
    ) -> Result<FlatMemory, AllocError>
        ensures { IfOk result (λ memory. flat_room memory ≡ empty entries claims) }
    {
        let slots = vec![in heap; entry; entries.min(MOST_ENTRIES) as usize]?;
        Ok(FlatMemory { slots, claims })
    }

    // The empty log over this memory, whatever lies in it.
    pub fn register(&mut self) -> FlatLog<'_>
        ensures { flat_meaning result ≡ flat_room self.old }
    {
        FlatLog::new(self.slots.as_mut_slice(), self.claims)
    }
}
