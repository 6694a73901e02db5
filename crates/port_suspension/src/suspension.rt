ghost use Rattle.std.specs.Prelude.{◌≡◌, ◌<◌, ◌≤◌, ◌++◌, ◌∷◌, ◌↔◌, [], List, true, false, not, IsTrue, IfOk, IfSome, IfNone, length, slice_get};
ghost use Rattle.port_history.specs.port_model.declared.signal.Sender.TheVariants.{Process};
ghost use Rattle.port_history.specs.Suspension.{Entry as HistoryEntry, entry, has_sender, is_first, without_entry};
ghost use Rattle.suspend_list.specs.Entries.{suspended};
ghost use Rattle.port_suspension.specs.Listed.{AgreesListed};

use crate::{Entry, NoMemory};
use std::alloc::Global;
use std::marker::Model;
use suspend_list::SuspendList;

/// The tasks whose senders a port suspended and hasn't resumed, in the order in which it took them, at most one of each process.
///
/// A process goes by its number, from 0. Only `new` takes memory, and each other call looks at one process alone.
#[derive(Drop)]
pub struct Suspension {
    list: SuspendList,
    // For each process, by its number, whether a task of it is listed.
    is_listed: Vec<bool>,
}

impl Model for Suspension {
    ghost use Rattle.suspend_list.specs.Entries.{Suspended};
    ghost use Rattle.port_suspension.specs.Flags.{IsFlagged};

    ghost Value = { Suspended };

    ghost view = { λ s. s.list };

    ghost invariant = { λ s. IsFlagged s.is_listed.items s.list };
}

impl Suspension {
    /// No task is listed, of so many processes.
    pub fn new(alloc: Global, processes: u32) -> Result<Suspension, NoMemory>
        ensures list { IfOk result (λ s. s ≡ suspended [] processes) }
        ensures agrees { IfOk result (λ s. AgreesListed s []) }
    {
        Ok(Suspension {
            list: SuspendList::new(alloc, processes)?,
            is_listed: vec![in alloc; false; processes as usize]?,
        })
    }

    /// How many processes there are, of each of which at most one task is listed.
    pub fn places(&self) -> usize
        ensures places { result ≡ self.now.places }
        ensures few { length self.now.entries ≤ self.now.places }
    {
        self.is_listed.len()
    }

    /// Lists a task that suspends its sender, behind the others. False exactly where a task of this process is listed already,
    /// and then nothing changes.
    pub fn list(&mut self, process: u32, seq: u64) -> bool
        requires { process < self.old.places }
        ensures value { (listed : List HistoryEntry) → AgreesListed self.old listed → result ≡ not (has_sender (Process process) listed) }
        ensures listed { result ≡ true → (listed : List HistoryEntry) → AgreesListed self.old listed → AgreesListed self.new (listed ++ entry (Process process) seq ∷ []) }
        ensures unchanged { result ≡ false → self.new ≡ self.old }
        ensures places { self.new.places ≡ self.old.places }
    {
        let place = process as usize;
        if self.is_listed[place] {
            return false;
        }
        self.is_listed[place] = true;
        self.list.list(Entry { process, seq });
        true
    }

    /// Whether no task is listed.
    pub fn is_empty(&self) -> bool
        ensures { (listed : List HistoryEntry) → AgreesListed self.now listed → IsTrue result ↔ (listed ≡ []) }
    {
        self.list.first().is_none()
    }

    /// The task whose sender is resumed next. None exactly where no task is listed.
    pub fn first(&self) -> Option<Entry>
        ensures first { result ≡ slice_get self.now.entries 0 }
        ensures some { IfSome result (λ e. (listed : List HistoryEntry) → AgreesListed self.now listed → is_first (entry (Process e.process) e.seq) listed ≡ true) }
        ensures none { IfNone result (AgreesListed self.now []) }
    {
        self.list.first()
    }

    /// Takes the task out whose sender is resumed next. None exactly where no task is listed, and then nothing changes.
    pub fn resume_first(&mut self) -> Option<Entry>
        ensures first { result ≡ slice_get self.old.entries 0 }
        ensures some { IfSome result (λ e. (listed : List HistoryEntry) → AgreesListed self.old listed → is_first (entry (Process e.process) e.seq) listed ≡ true) }
        ensures entries { IfSome result (λ e. self.old.entries ≡ e ∷ self.new.entries) }
        ensures rest { IfSome result (λ e. (listed : List HistoryEntry) → AgreesListed self.old listed → AgreesListed self.new (without_entry (entry (Process e.process) e.seq) listed)) }
        ensures none { IfNone result (AgreesListed self.old []) }
        ensures unchanged { IfNone result (self.new ≡ self.old) }
        ensures places { self.new.places ≡ self.old.places }
    {
        let entry = self.list.drop_first()?;
        self.is_listed[entry.process as usize] = false;
        Some(entry)
    }
}
