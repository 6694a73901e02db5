//! Programs of memory.

use outside::{MemProgram, MemSpawner, SpawnFault, Spawner};
use std::alloc::Global;
use std::test::Fail;

/// Whether a program starts where its events begin with this one.
fn starts_at(alloc: Global, event: u32) -> Result<bool, Fail> {
    let mut spawner = MemSpawner::new(alloc, event);
    spawner.add(MemProgram::new(alloc, 1))?;
    Ok(spawner.start(alloc, b"a").is_ok())
}

#[test]
fn a_start_needs_a_program_and_two_events(rt: HostRuntime) -> Result<(), Fail> {
    let alloc = rt.alloc();
    let mut spawner = MemSpawner::new(alloc, 0);
    assert!(rt; matches!(&spawner.start(alloc, b"a"), Err(SpawnFault::Failed)));
    for (event, starts) in [
        (u32::MAX - 2, true),
        (u32::MAX - 1, false),
        (u32::MAX, false),
    ] {
        assert!(rt; starts_at(alloc, event)? == starts, "{event}");
    }
    Ok(())
}
