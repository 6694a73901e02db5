ghost use Rattle.std.specs.Prelude.{◌≡◌, ℕ, ◌<◌, ◌≤◌, ◌⊎◌, ◌==◌, ◌&&◌, ◌||◌, not, true, [], length};
ghost use Rattle.std.specs.List.Sorted.{IsStrictlySortedBy, IsStrictlyIncreasing};
ghost use Rattle.std.specs.Ordering.{nat_cmp};
ghost use Rattle.port_model.specs.declared.event.Dir.{Dir};
ghost use Rattle.ready_select.specs.Sets.{has, in_dir, same_dir, IsWith, IsWithout};

use arrayvec::ArrayVec;
use port_model::Dir;
use std::marker::Model;

/// Whether an event is among these, which are in rising order.
pub(crate) fn is_among(events: &[u32], event: u32) -> bool
    requires { IsStrictlyIncreasing events.now }
    ensures { result ≡ has event events.now }
{
    events.binary_search(&event).is_ok()
}

/// A set of at most 64 events, in rising order. It takes no memory.
#[derive(Drop)]
pub(crate) struct EventSet {
    events: ArrayVec<u32, 64>,
}

impl Model for EventSet {
    ghost use Rattle.std.specs.Prelude.{List, ℕ, ◌≤◌, length};
    ghost use Rattle.std.specs.List.Sorted.{IsStrictlySortedBy};
    ghost use Rattle.std.specs.Ordering.{nat_cmp};

    ghost Value = { List ℕ };

    ghost view = { λ s. s.events.items };

    ghost invariant = { λ s. IsStrictlySortedBy nat_cmp s.events.items × (length s.events.items ≤ 64) };
}

impl EventSet {
    pub(crate) fn new() -> EventSet
        ensures empty { result ≡ [] }
        ensures rising { IsStrictlySortedBy nat_cmp result }
    {
        EventSet {
            events: ArrayVec::new(),
        }
    }

    pub(crate) fn as_slice(&self) -> &[u32]
        ensures value { result.now ≡ self.now }
        ensures rising { IsStrictlySortedBy nat_cmp self.now }
        ensures few { length self.now ≤ 64 }
    {
        self.events.as_slice()
    }

    pub(crate) fn contains(&self, event: u32) -> bool
        ensures { result ≡ has event self.now }
    {
        self.events.as_slice().binary_search(&event).is_ok()
    }

    pub(crate) fn insert(&mut self, event: u32)
        requires { (has event self.old ≡ true) ⊎ (length self.old < 64) }
        ensures added { (other : ℕ) → has other self.new ≡ ((event == other) || has other self.old) }
        ensures rising { IsStrictlySortedBy nat_cmp self.new }
        ensures few { length self.new ≤ 64 }
    {
        if let Err(place) = self.events.as_slice().binary_search(&event) {
            self.events.insert(place, event);
        }
    }

    pub(crate) fn remove(&mut self, event: u32)
        ensures left { (other : ℕ) → has other self.new ≡ (has other self.old && not (event == other)) }
        ensures rising { IsStrictlySortedBy nat_cmp self.new }
        ensures few { length self.new ≤ 64 }
    {
        if let Ok(place) = self.events.as_slice().binary_search(&event) {
            self.events.remove(place);
        }
    }
}

/// A set of events for each direction.
#[derive(Drop)]
pub(crate) struct EventsByDir {
    read: EventSet,
    write: EventSet,
}

impl Model for EventsByDir {
    ghost use Rattle.ready_select.specs.Sets.{PerDir};

    ghost Value = { PerDir };

    ghost view = { λ s. record { read = s.read; write = s.write } };
}

impl EventsByDir {
    pub(crate) fn new() -> EventsByDir
        ensures empty { result ≡ record { read = []; write = [] } }
        ensures rising { IsStrictlySortedBy nat_cmp [] }
    {
        EventsByDir {
            read: EventSet::new(),
            write: EventSet::new(),
        }
    }

    pub(crate) fn contains(&self, event: u32, dir: Dir) -> bool
        ensures { result ≡ has event (in_dir dir self.now) }
    {
        match dir {
            Dir::Read => self.read.contains(event),
            Dir::Write => self.write.contains(event),
        }
    }

    /// Whether the event is in the set of a direction.
    pub(crate) fn contains_any(&self, event: u32) -> bool
        ensures { result ≡ (has event self.now.read || has event self.now.write) }
    {
        self.read.contains(event) || self.write.contains(event)
    }

    pub(crate) fn insert(&mut self, event: u32, dir: Dir)
        requires { (has event (in_dir dir self.old) ≡ true) ⊎ (length (in_dir dir self.old) < 64) }
        ensures { (d : Dir) → IsWith (in_dir d self.old) (in_dir d self.new) event (same_dir dir d) }
    {
        match dir {
            Dir::Read => self.read.insert(event),
            Dir::Write => self.write.insert(event),
        }
    }

    pub(crate) fn remove(&mut self, event: u32, dir: Dir)
        ensures { (d : Dir) → IsWithout (in_dir d self.old) (in_dir d self.new) event (same_dir dir d) }
    {
        match dir {
            Dir::Read => self.read.remove(event),
            Dir::Write => self.write.remove(event),
        }
    }

    /// Takes the event out in both directions.
    pub(crate) fn remove_both(&mut self, event: u32)
        ensures { (d : Dir) → IsWithout (in_dir d self.old) (in_dir d self.new) event true }
    {
        self.read.remove(event);
        self.write.remove(event);
    }
}
