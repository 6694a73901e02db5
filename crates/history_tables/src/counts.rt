//! How many tasks of each sender have a row.
ghost use Rattle.std.specs.Prelude.{◌≡◌, ◌∷◌, [], List, OnOk};
ghost use Rattle.port_model.specs.declared.signal.Sender.{Sender as SenderView};
ghost use Rattle.port_history.specs.Laws.{count_of};
ghost use Rattle.history_tables.specs.Counts.{Counts};

use crate::key::SenderKey;
use crate::{NoMemory, Sender};
use std::alloc::Global;
use std::collections::BTreeMap;

/// How many tasks of each sender have a row.
#[derive(Drop)]
pub struct SenderCounts {
    counts: BTreeMap<SenderKey, u64>,
}

impl SenderCounts {
    /// No task has a row.
    pub fn new(alloc: Global) -> SenderCounts
        ensures { Counts result [] }
    {
        SenderCounts {
            counts: BTreeMap::new(alloc),
        }
    }

    /// How many tasks of the sender have a row.
    pub fn count(&self, from: Sender) -> u64
        ensures { (senders : List SenderView) → Counts self.now senders → result ≡ count_of from senders }
    {
        self.counts.get(&SenderKey::of(from)).copied().unwrap_or(0)
    }

    /// Counts one more task of the sender. A count that would pass 2^64 - 1 is answered as want of memory.
    pub fn note(&mut self, from: Sender) -> Result<(), NoMemory>
        ensures { OnOk result ((senders : List SenderView) → Counts self.old senders → Counts self.new (from ∷ senders)) }
    {
        let Some(count) = self.count(from).checked_add(1) else {
            return Err(NoMemory);
        };
        self.counts.insert(SenderKey::of(from), count)?;
        Ok(())
    }
}
