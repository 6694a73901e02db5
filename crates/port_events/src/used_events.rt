ghost use Rattle.std.specs.Prelude.{◌≡◌, List, [], ◌∷◌, true, false, ◌||◌, ◌&&◌, not, filter, length, nat_lt, OnOk, OnErr, if◌then◌else◌};
ghost use Rattle.std.specs.List.Sorted.{IsStrictlyIncreasing};
ghost use Rattle.port_history.specs.Events.{Event, event_of, is_selected, is_armed, is_armed_in, select, disarm, give_up, drop_event, read_no_more};
ghost use Rattle.port_model.specs.declared.effect.Effect.{Effect};
ghost use Rattle.ready_select.specs.Sets.{has, in_dir};
ghost use Rattle.port_events.specs.Table.{Agrees, Changes, is_empty};
ghost use Rattle.port_events.specs.Asks.{has_room};
ghost use Rattle.port_events.specs.Parts.{arm_in};

use arrayvec::ArrayVec;
use port_model::Dir;
use ready_select::{Selector, Unused};
use std::marker::Model;

/// How many events are held or wait at most.
const MOST: usize = 64;

/// An event can't be selected: it waits for the poller, or it would be the 65th.
#[derive(Clone, Copy, Debug, PartialEq, Eq)]
pub(crate) struct NoRoom;

/// A selector, whose calls do to its events what a history says.
#[derive(Drop)]
pub(crate) struct UsedEvents {
    selector: Selector,
}

impl Model for UsedEvents {
    ghost use Rattle.ready_select.specs.Sets.{Events};
    ghost use Rattle.port_events.specs.Table.{IsReached};

    ghost Value = { Events };

    ghost view = { λ u. u.selector };

    ghost invariant = { λ u. IsReached u.selector };
}

/// Whether the event is among these, which are in rising order.
fn is_among(events: &[u32], event: u32) -> bool
    requires { IsStrictlyIncreasing events.now }
    ensures { result ≡ has event events.now }
{
    events.binary_search(&event).is_ok()
}

/// Whether the event is among these, or may still be.
fn has_place(events: &[u32], event: u32) -> bool
    requires { IsStrictlyIncreasing events.now }
    ensures { result ≡ (nat_lt (length events.now) 64 || has event events.now) }
{
    events.len() < MOST || is_among(events, event)
}

impl UsedEvents {
    pub(crate) fn new() -> UsedEvents
        ensures { Agrees result [] }
    {
        UsedEvents {
            selector: Selector::new(),
        }
    }

    /// The events that are held, by rising number.
    pub(crate) fn held(&self) -> ArrayVec<u32, 64>
        ensures value { result.items ≡ filter (λ event. not (has event self.now.waiting)) self.now.listed }
        ensures rising { IsStrictlyIncreasing self.now.listed }
    {
        let mut held = ArrayVec::new();
        for event in self.selector.held() {
            if !self.selector.is_waiting(*event) {
                held.push(*event);
            }
        }
        held
    }

    /// Whether no event is held or waits.
    pub(crate) fn is_empty(&self) -> bool
        ensures value { result ≡ is_empty self.now.listed }
        ensures rising { IsStrictlyIncreasing self.now.listed }
    {
        self.selector.held().is_empty()
    }

    pub(crate) fn is_waiting(&self, event: u32) -> bool
        ensures { result ≡ has event self.now.waiting }
    {
        self.selector.is_waiting(event)
    }

    /// Whether the event is selected and armed in this direction.
    pub(crate) fn is_ready(&self, event: u32, dir: Dir) -> bool
        ensures { result ≡ (has event (in_dir dir self.now.selected) && has event (in_dir dir self.now.armed)) }
    {
        self.selector.is_selected(event, dir) && self.selector.is_armed(event, dir)
    }

    /// Turns the selection of the event in this direction on or off, where there is room for it.
    pub(crate) fn select(&mut self, event: u32, dir: Dir, on: bool) -> Result<(), NoRoom>
        ensures selected { OnOk result (Changes self.old self.new event (select dir on)) }
        ensures room { OnOk result ((events : List Event) → Agrees self.old events → has_room (Effect.Select event dir on ∷ []) events ≡ true) }
        ensures none { OnErr result ((events : List Event) → Agrees self.old events → has_room (Effect.Select event dir on ∷ []) events ≡ false) }
    {
        if self.selector.is_waiting(event) {
            return Err(NoRoom);
        }
        if !has_place(self.selector.held(), event) {
            return Err(NoRoom);
        }
        self.selector.select(event, dir, on);
        Ok(())
    }

    /// Gives the event up: `Later` where it is armed.
    pub(crate) fn give_up(&mut self, event: u32) -> Unused
        ensures given_up { Changes self.old self.new event give_up }
        ensures answer { (events : List Event) → Agrees self.old events → result ≡ (if is_armed (event_of event events) then Unused.Later else Unused.Now) }
    {
        self.selector.unuse(event)
    }

    /// The event is armed no more in this direction.
    pub(crate) fn disarm(&mut self, event: u32, dir: Dir)
        ensures { Changes self.old self.new event (disarm dir) }
    {
        self.selector.deliver(event, dir);
    }

    /// The poller dropped the event, which is then armed in no direction and waits no more.
    pub(crate) fn drop_event(&mut self, event: u32)
        ensures { Changes self.old self.new event drop_event }
    {
        self.selector.deliver(event, Dir::Read);
        self.selector.deliver(event, Dir::Write);
        self.selector.dropped(event);
    }

    /// The event is selected for reading no more.
    pub(crate) fn read_no_more(&mut self, event: u32)
        ensures { Changes self.old self.new event read_no_more }
    {
        if self.selector.is_selected(event, Dir::Read) {
            self.selector.select(event, Dir::Read, false);
        }
    }

    /// Arms the event in this direction where it is selected in it, and tells whether it became armed.
    pub(crate) fn arm(&mut self, event: u32, dir: Dir) -> bool
        ensures armed { Changes self.old self.new event (arm_in dir) }
        ensures answer { (events : List Event) → Agrees self.old events → result ≡ (is_selected dir (event_of event events) && not (is_armed_in dir (event_of event events))) }
    {
        if self.selector.is_armed(event, dir) {
            return false;
        }
        self.selector.arm(event, dir).is_ok()
    }
}
