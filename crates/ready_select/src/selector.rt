ghost use Rattle.std.specs.Prelude.{◌≡◌, ◌<◌, ◌≤◌, ◌⊎◌, true, false, [], length, OnOk, OnErr, is_ok, IfErr, List};
ghost use Rattle.std.specs.List.Sorted.{IsStrictlyIncreasing};
ghost use Rattle.ready_select.specs.Sets.{has, in_dir};
ghost use Rattle.ready_select.specs.Events.{Call, Select, Unuse, Arm, Deliver, Dropped, IsAfter, Makes, unused, delivered, dropped, is_selected};

use crate::event_set::{EventSet, EventsByDir};
use port_model::Dir;
use std::marker::Model;

/// What `unuse` says of an event: it is given up at once, or once the poller has dropped it.
#[derive(Clone, Copy, Debug, PartialEq, Eq)]
pub enum Unused {
    Now,
    Later,
}

/// What follows from what the poller told: the driver is called, nothing is done, or the driver is told that the event is
/// given up.
#[derive(Clone, Copy, Debug, PartialEq, Eq)]
pub enum Delivered {
    Call,
    Stale,
    Stopped,
}

/// The event isn't selected in the direction in which it was to be armed.
#[derive(Clone, Copy, Debug, PartialEq, Eq)]
pub struct NotUsed {
    pub event: u32,
}

/// The events of one port's driver, as `driver_select` of the Erlang/OTP manual of erl_driver asks for them.
///
/// It is seen by the calls that were made on it. At most 64 events are held or wait, and no call takes memory.
#[derive(Drop)]
pub struct Selector {
    // Those that are held or wait.
    listed: EventSet,
    waiting: EventSet,
    selected: EventsByDir,
    armed: EventsByDir,
}

impl Model for Selector {
    ghost use Rattle.ready_select.specs.Sets.{Events, IsKept};

    ghost Value = { Events };

    ghost view = { λ s. record { listed = s.listed; waiting = s.waiting; selected = s.selected; armed = s.armed } };

    ghost invariant = { λ s. IsKept (record { listed = s.listed; waiting = s.waiting; selected = s.selected; armed = s.armed }) };
}

impl Selector {
    /// A selector on which no call was made.
    pub fn new() -> Selector
        ensures made { IsAfter [] result }
        ensures empty { result.listed ≡ [] }
        ensures free { result.waiting ≡ [] }
    {
        Selector {
            listed: EventSet::new(),
            waiting: EventSet::new(),
            selected: EventsByDir::new(),
            armed: EventsByDir::new(),
        }
    }

    /// Turns the selection of the event in this direction on or off. It then is held.
    pub fn select(&mut self, event: u32, dir: Dir, on: bool)
        requires waits { has event self.old.waiting ≡ false }
        requires room { (has event self.old.listed ≡ true) ⊎ (length self.old.listed < 64) }
        ensures { Makes self.old self.new (Select event dir on) }
    {
        self.listed.insert(event);
        if on {
            self.selected.insert(event, dir);
        } else {
            self.selected.remove(event, dir);
        }
    }

    /// Gives the event up: `Later` where it is armed in a direction, and it then waits for `dropped`.
    pub fn unuse(&mut self, event: u32) -> Unused
        ensures made { Makes self.old self.new (Unuse event result) }
        ensures answer { (calls : List Call) → IsAfter calls self.old → result ≡ unused calls event }
    {
        self.selected.remove_both(event);
        if self.armed.contains_any(event) {
            self.waiting.insert(event);
            return Unused::Later;
        }
        if !self.waiting.contains(event) {
            self.listed.remove(event);
        }
        Unused::Now
    }

    /// Arms the event in a direction in which it is selected.
    pub fn arm(&mut self, event: u32, dir: Dir) -> Result<(), NotUsed>
        ensures made { OnOk result (Makes self.old self.new (Arm event dir)) }
        ensures answer { (calls : List Call) → IsAfter calls self.old → is_ok result ≡ is_selected calls event dir }
        ensures refused { IfErr result (λ e. e.event ≡ event) }
        ensures same { OnErr result (self.new ≡ self.old) }
    {
        if !self.selected.contains(event, dir) {
            return Err(NotUsed { event });
        }
        self.armed.insert(event, dir);
        Ok(())
    }

    /// The poller told that the event is ready in this direction, in which it is then not armed any more.
    /// `Call` where it was selected and armed in it, else `Stale`.
    pub fn deliver(&mut self, event: u32, dir: Dir) -> Delivered
        ensures made { Makes self.old self.new (Deliver event dir result) }
        ensures answer { (calls : List Call) → IsAfter calls self.old → result ≡ delivered calls event dir }
    {
        let is_selected = self.selected.contains(event, dir);
        let is_armed = self.armed.contains(event, dir);
        self.armed.remove(event, dir);
        if is_selected && is_armed {
            Delivered::Call
        } else {
            Delivered::Stale
        }
    }

    /// The poller told that it dropped the event. `Stopped` where the event waited for that, which then ends, and else
    /// `Stale`, and nothing changes.
    pub fn dropped(&mut self, event: u32) -> Delivered
        ensures made { Makes self.old self.new (Dropped event result) }
        ensures answer { (calls : List Call) → IsAfter calls self.old → result ≡ dropped calls event }
    {
        if !self.waiting.contains(event) {
            return Delivered::Stale;
        }
        self.waiting.remove(event);
        self.listed.remove(event);
        self.armed.remove_both(event);
        Delivered::Stopped
    }

    /// The events that are held or wait, by rising number.
    pub fn held(&self) -> &[u32]
        ensures value { result.now ≡ self.now.listed }
        ensures rising { IsStrictlyIncreasing result.now }
        ensures few { length result.now ≤ 64 }
    {
        self.listed.as_slice()
    }

    /// Whether the event was given up and waits for `dropped`.
    pub fn is_waiting(&self, event: u32) -> bool
        ensures { result ≡ has event self.now.waiting }
    {
        self.waiting.contains(event)
    }

    pub fn is_selected(&self, event: u32, dir: Dir) -> bool
        ensures { result ≡ has event (in_dir dir self.now.selected) }
    {
        self.selected.contains(event, dir)
    }

    pub fn is_armed(&self, event: u32, dir: Dir) -> bool
        ensures { result ≡ has event (in_dir dir self.now.armed) }
    {
        self.armed.contains(event, dir)
    }
}
