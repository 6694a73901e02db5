ghost use Rattle.std.specs.Prelude.{◌≡◌, ◌<◌, false, [], ◌∷◌, ◌++◌, drop, length, slice_get, IfOk};
ghost use Rattle.circular_buffer.specs.Buffer.{buffer};
ghost use Rattle.suspend_list.specs.Entries.{suspended, is_listed, EachOnce};

use circular_buffer::HeapCircularBuffer;
use no_memory::NoMemory;
use std::alloc::Global;
use std::marker::Model;

/// A suspended process, by its number from 0, and the number of the command for which it was suspended.
#[derive(Debug, Clone, Copy, PartialEq, Eq)]
pub struct Entry {
    pub process: u32,
    pub seq: u64,
}

type Entries = HeapCircularBuffer<Entry, Global>;

fn put_behind(entries: &mut Entries, entry: Entry)
    requires { length entries.old.items < entries.old.capacity }
    ensures { entries.new ≡ buffer (entries.old.items ++ entry ∷ []) entries.old.capacity }
{
    if entries.try_push_back(entry).is_err() {
        unreachable!();
    }
}

fn take_first(entries: &mut Entries) -> Option<Entry>
    ensures first { result ≡ slice_get entries.old.items 0 }
    ensures rest { entries.new ≡ buffer (drop 1 entries.old.items) entries.old.capacity }
{
    entries.pop_front()
}

/// The processes that a port suspended, in the order in which it did. There is one place for each process, and no call takes memory but `new`.
#[derive(Drop)]
pub struct SuspendList {
    entries: Entries,
}

impl Model for SuspendList {
    ghost use Rattle.suspend_list.specs.Entries.{Suspended, suspended, EachOnce, AllBelow};

    ghost Value = { Suspended };

    ghost view = { λ l. suspended l.entries.items l.entries.capacity };

    ghost invariant = { λ l. EachOnce l.entries.items × AllBelow l.entries.capacity l.entries.items };
}

impl SuspendList {
    /// A list with a place for each of the processes 0 to `places - 1`, none of which is suspended.
    pub fn new(alloc: Global, places: u32) -> Result<SuspendList, NoMemory>
        ensures { IfOk result (λ list. list ≡ suspended [] places) }
    {
        Ok(SuspendList {
            entries: HeapCircularBuffer::with_capacity(alloc, places as usize)?,
        })
    }

    /// Lists a process behind the others.
    pub fn list(&mut self, entry: Entry)
        requires place { entry.process < self.old.places }
        requires once { is_listed entry.process self.old.entries ≡ false }
        ensures { self.new ≡ suspended (self.old.entries ++ entry ∷ []) self.old.places }
    {
        put_behind(&mut self.entries, entry);
    }

    /// The process that is resumed next. None exactly where no process is suspended.
    pub fn first(&self) -> Option<Entry>
        ensures first { result ≡ slice_get self.now.entries 0 }
        ensures once { EachOnce self.now.entries }
    {
        self.entries.front().copied()
    }

    /// Takes the process out that is resumed next.
    pub fn drop_first(&mut self) -> Option<Entry>
        ensures first { result ≡ slice_get self.old.entries 0 }
        ensures rest { self.new ≡ suspended (drop 1 self.old.entries) self.old.places }
    {
        take_first(&mut self.entries)
    }
}
