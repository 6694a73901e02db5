//! Who is suspended.
ghost use Rattle.std.specs.Prelude.{◌≡◌, ◌∷◌, ◌++◌, [], List, true, false, OnOk};
ghost use Rattle.port_history.specs.Suspension.{Entry, entry, has_entry, has_sender, is_first, without_entry};
ghost use Rattle.port_history.specs.Laws.{all_resumed};
ghost use Rattle.history_tables.specs.Listed.{Lists};

use crate::key::{SenderKey, TaskKey};
use crate::{NoMemory, Sender};
use std::alloc::Global;
use std::collections::{BTreeSet, VecDeque};

/// The tasks that have a Listed row: all of them, and in their order those that have no Resumed row yet.
#[derive(Drop)]
pub struct ListedTasks {
    all: BTreeSet<TaskKey>,
    suspended: BTreeSet<SenderKey>,
    waiting: VecDeque<TaskKey>,
}

impl ListedTasks {
    /// No task is listed.
    pub fn new(alloc: Global) -> ListedTasks
        ensures { Lists result [] [] }
    {
        ListedTasks {
            all: BTreeSet::new(alloc),
            suspended: BTreeSet::new(alloc),
            waiting: VecDeque::new(alloc),
        }
    }

    /// Whether the task has a Listed row.
    pub fn has(&self, from: Sender, seq: u64) -> bool
        ensures { (listed entries : List Entry) → Lists self.now listed entries → result ≡ has_entry (entry from seq) entries }
    {
        self.all.contains(&TaskKey::of(from, seq))
    }

    /// Whether a task of the sender is listed and not resumed.
    pub fn is_suspended(&self, from: Sender) -> bool
        ensures { (listed entries : List Entry) → Lists self.now listed entries → result ≡ has_sender from listed }
    {
        self.suspended.contains(&SenderKey::of(from))
    }

    /// Whether the task is the first that is listed and not resumed.
    pub fn is_first(&self, from: Sender, seq: u64) -> bool
        ensures { (listed entries : List Entry) → Lists self.now listed entries → result ≡ is_first (entry from seq) listed }
    {
        match self.waiting.front() {
            Some(first) => *first == TaskKey::of(from, seq),
            None => false,
        }
    }

    /// Whether each listed task is resumed.
    pub fn are_resumed(&self) -> bool
        ensures { (listed entries : List Entry) → Lists self.now listed entries → result ≡ all_resumed listed }
    {
        self.waiting.is_empty()
    }

    /// Takes in the Listed row of a task whose sender isn't suspended.
    pub fn list(&mut self, from: Sender, seq: u64) -> Result<(), NoMemory>
        ensures { OnOk result ((listed entries : List Entry) → Lists self.old listed entries → has_sender from listed ≡ false
            → Lists self.new (listed ++ entry from seq ∷ []) (entry from seq ∷ entries)) }
    {
        let task = TaskKey::of(from, seq);
        self.all.insert(task)?;
        self.suspended.insert(SenderKey::of(from))?;
        self.waiting.push_back(task)?;
        Ok(())
    }

    /// Takes in the Resumed row of the first task.
    pub fn resume(&mut self, from: Sender, seq: u64)
        ensures { (listed entries : List Entry) → Lists self.old listed entries → is_first (entry from seq) listed ≡ true
            → Lists self.new (without_entry (entry from seq) listed) entries }
    {
        let _ = self.waiting.pop_front();
        self.suspended.remove(&SenderKey::of(from));
    }
}
