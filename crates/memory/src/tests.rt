// Memory is found for both registers at each size, and what they then have room for.
use crate::flat::FlatMemory;
use crate::paged::PagedMemory;
use crate::pages::pages_needed;
use register::entry::{Content, Entry, Void};
use register::register::Register;
use std::test::Fail;
use values::day::Day;

// What lies in memory before: that of `samples` again, since the parts do not stand on what programs make their books from.
fn old_entry() -> Result<Entry, Fail> {
    Ok(Entry {
        booked: Day::new(19_991_231)?,
        claim: 77,
        content: Content::Void(Void { names: 77 }),
    })
}

#[test]
fn flat_memory_is_found(rt: HostRuntime) -> Result<(), Fail> {
    let mut memory = FlatMemory::filled(rt.alloc(), old_entry()?, 40, 8)?;
    let log = memory.register();
    assert_eq!(rt; log.len(), 0);
    assert_eq!(rt; log.capacity(), 40);
    assert_eq!(rt; log.claim_bound(), 8);
    Ok(())
}

#[test]
fn paged_memory_is_found(rt: HostRuntime) -> Result<(), Fail> {
    let mut memory = PagedMemory::filled(rt.alloc(), old_entry()?, 40, 8)?;
    let register = memory.register();
    assert_eq!(rt; register.len(), 0);
    assert_eq!(rt; register.capacity(), 40);
    assert_eq!(rt; register.claim_bound(), 8);
    Ok(())
}

#[test]
fn the_largest_is_found(rt: HostRuntime) -> Result<(), Fail> {
    let mut flat = FlatMemory::filled(rt.alloc(), old_entry()?, u32::MAX, u32::MAX)?;
    assert_eq!(rt; flat.register().capacity(), 65_536);
    let mut paged = PagedMemory::filled(rt.alloc(), old_entry()?, u32::MAX, u32::MAX)?;
    assert_eq!(rt; paged.register().capacity(), 65_536);
    assert_eq!(rt; paged.register().claim_bound(), 8_192);
    Ok(())
}

#[test]
fn pages_for_known_sizes(rt: HostRuntime) {
    assert_eq!(rt; pages_needed(65_536, 8_192), 11_776);
    assert_eq!(rt; pages_needed(40, 8), 10);
    assert_eq!(rt; pages_needed(10, 3), 4);
}
