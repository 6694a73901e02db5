//! The processes whose end the driver is told of.
ghost use Rattle.std.specs.Prelude.{◌≡◌, ◌∷◌, [], List, ℕ, OnOk};
ghost use Rattle.port_history.specs.Ties.{watched_by};
ghost use Rattle.port_signal.specs.Links.{has};
ghost use Rattle.history_tables.specs.Tied.{Watches};

use crate::{Effect, NoMemory};
use std::alloc::Global;
use std::collections::BTreeSet;

/// The processes whose end the driver is told of.
#[derive(Drop)]
pub struct WatchedProcesses {
    processes: BTreeSet<u32>,
}

impl WatchedProcesses {
    /// None is watched.
    pub fn new(alloc: Global) -> WatchedProcesses
        ensures { Watches result [] }
    {
        WatchedProcesses {
            processes: BTreeSet::new(alloc),
        }
    }

    pub fn has(&self, process: u32) -> bool
        ensures { (watched : List ℕ) → Watches self.now watched → result ≡ has process watched }
    {
        self.processes.contains(&process)
    }

    fn note_effect(&mut self, effect: &Effect) -> Result<(), NoMemory>
        ensures { OnOk result ((watched : List ℕ) → Watches self.old watched → Watches self.new (watched_by (effect.now ∷ []) watched)) }
    {
        if let Effect::Watch(process) = effect {
            self.processes.insert(*process)?;
        }
        Ok(())
    }

    /// Takes in the processes that these effects watch.
    pub fn note(&mut self, effects: &[Effect]) -> Result<(), NoMemory>
        ensures { OnOk result ((watched : List ℕ) → Watches self.old watched → Watches self.new (watched_by effects.now watched)) }
    {
        for effect in effects {
            self.note_effect(effect)?;
        }
        Ok(())
    }
}
