//! An outside of whose calls one fails.

use outside::{MemChild, MemSpawner, SpawnFault, Spawner};
use std::alloc::Global;

/// What starts programs of memory of which each fails its first fetch.
#[derive(Drop)]
pub(crate) struct FetchlessSpawner {
    spawner: MemSpawner,
}

impl FetchlessSpawner {
    pub(crate) fn new(spawner: MemSpawner) -> FetchlessSpawner {
        FetchlessSpawner { spawner }
    }
}

impl Spawner for FetchlessSpawner {
    type Program = MemChild;

    ghost faults = { λ s. s.spawner.faults };

    fn start(&mut self, alloc: Global, command: &[u8]) -> Result<MemChild, SpawnFault> {
        let mut child = self.spawner.start(alloc, command)?;
        match child.fail_fetch(0) {
            Ok(()) => Ok(child),
            Err(_) => Err(SpawnFault::NoMemory),
        }
    }
}
