//! What a row of the port does to its events.
ghost use Rattle.std.specs.Prelude.{◌≡◌, ◌↔◌, List, [], ◌++◌, true, false, map, Err, OnOk, IfOk, IfErr};
ghost use Rattle.std.specs.List.{flat_map};
ghost use Rattle.port_history.specs.Events.{Event, told_of, selected_by, arm, events_after, given_back, dropped_by};
ghost use Rattle.port_events.specs.Table.{Agrees, KeepsEnd};
ghost use Rattle.port_events.specs.Asks.{arm_asks, asks_of, has_room, gives_up};
ghost use Rattle.port_events.specs.Parts.{Does, HasNoRoom, following, starting};

use crate::{Effect, EventFault, NoMemory, PortEvents, Signal, StartFault};
use std::alloc::Global;
use std::sync::Wait;

/// Whether the port is closed once a task was handled, and whether its driver is stopped in the task's row.
#[derive(Clone, Copy, Debug, PartialEq, Eq)]
pub struct AfterTask {
    pub closed: bool,
    pub stops: bool,
}

/// Whether one of these effects gives an event up.
fn gives_up(effects: &[Effect]) -> bool
    ensures { result ≡ gives_up effects.now }
{
    effects
        .iter()
        .any(|effect| matches!(effect, Effect::Unuse(_)))
}

/// The event that the poller dropped, which is given back in the row.
fn dropped_event(alloc: Global, signal: &Signal) -> Result<Vec<u32>, NoMemory>
    ensures { IfOk result (λ dropped. dropped.items ≡ dropped_by signal.now) }
{
    let mut dropped = Vec::new(alloc);
    if let Signal::Dropped(event) = signal {
        dropped.push(*event)?;
    }
    Ok(dropped)
}

impl PortEvents {
    /// Takes in what a handled task tells of its event.
    fn tell(&mut self, signal: &Signal)
        ensures told { (events : List Event) → Agrees self.old.selector events → Agrees self.new.selector (told_of false signal.now events) }
        ensures same { self.new ≡ record self.old { selector = self.new.selector } }
    {
        match signal {
            Signal::Ready { event, dir } => self.events.disarm(*event, *dir),
            Signal::Dropped(event) => self.events.drop_event(*event),
            _ => {}
        }
    }

    /// Takes in a task that the port finds late: the event of a Ready task is disarmed. Nothing is asked.
    pub fn note_late(&mut self, signal: &Signal)
        ensures told { (events : List Event) → Agrees self.old.selector events → Agrees self.new.selector (told_of true signal.now events) }
        ensures same { self.new ≡ record self.old { selector = self.new.selector } }
    {
        if let Signal::Ready { event, dir } = signal {
            self.events.disarm(*event, *dir);
        }
    }

    /// Follows the effects of a start that gives no event up, and arms what is selected.
    fn follow_start<R: Wait>(
        &mut self,
        rt: &R,
        alloc: Global,
        effects: &[Effect],
    ) -> Result<(), EventFault>
        requires { gives_up effects.now ≡ false }
        ensures ok { OnOk result (Does (starting self.old.port effects.now) self.old self.new [] []) }
        ensures room { IfErr result (λ fault. fault ≡ EventFault.NoRoom → HasNoRoom (following self.old.port effects.now) self.old) }
        ensures same { KeepsEnd self.old self.new }
    {
        let mut given_back = Vec::new(alloc);
        self.follow(rt, effects, &mut given_back)?;
        self.arm_selected(rt)?;
        Ok(())
    }

    /// Takes in the effects of the driver's start. Each event that it selected is armed, and the poller is asked for it.
    pub fn start<R: Wait>(
        &mut self,
        rt: &R,
        alloc: Global,
        effects: &[Effect],
    ) -> Result<(), StartFault>
        ensures events { OnOk result ((events : List Event) → Agrees self.old.selector events → Agrees self.new.selector (map arm (selected_by effects.now events))) }
        ensures asks { OnOk result ((events : List Event) → Agrees self.old.selector events
            → self.new.asks.sent ≡ self.old.asks.sent ++ flat_map (arm_asks self.old.port) (selected_by effects.now events)) }
        ensures gave_up { (result ≡ Err StartFault.GaveUp) ↔ (gives_up effects.now ≡ true) }
        ensures room { OnOk result ((events : List Event) → Agrees self.old.selector events → has_room effects.now events ≡ true) }
        ensures no_room { IfErr result (λ fault. fault ≡ StartFault.NoRoom → (events : List Event) → Agrees self.old.selector events → has_room effects.now events ≡ false) }
        ensures same { KeepsEnd self.old self.new }
    {
        if gives_up(effects) {
            return Err(StartFault::GaveUp);
        }
        self.follow_start(rt, alloc, effects)?;
        Ok(())
    }

    /// Takes in a handled task with the effects of its callbacks: what it tells of its event, the events that are selected and given up,
    /// and where the driver is stopped each one that is left. Each event that becomes armed is asked of the poller, and each that is given
    /// up while it is armed is to be dropped. Answers the events for which `stop_select` is to be called, in that order.
    pub fn note_handled<R: Wait>(
        &mut self,
        rt: &R,
        alloc: Global,
        signal: &Signal,
        effects: &[Effect],
        ending: AfterTask,
    ) -> Result<Vec<u32>, EventFault>
        ensures events { OnOk result ((events : List Event) → Agrees self.old.selector events
            → Agrees self.new.selector (events_after signal.now effects.now ending.closed ending.stops events)) }
        ensures given_back { IfOk result (λ numbers. (events : List Event) → Agrees self.old.selector events
            → numbers.items ≡ given_back signal.now effects.now ending.closed ending.stops events) }
        ensures asks { OnOk result ((events : List Event) → Agrees self.old.selector events
            → self.new.asks.sent ≡ self.old.asks.sent ++ asks_of self.old.port signal.now effects.now ending.closed ending.stops events) }
        ensures room { OnOk result ((events : List Event) → Agrees self.old.selector events → has_room effects.now (told_of false signal.now events) ≡ true) }
        ensures no_room { IfErr result (λ fault. fault ≡ EventFault.NoRoom → (events : List Event) → Agrees self.old.selector events
            → has_room effects.now (told_of false signal.now events) ≡ false) }
        ensures same { KeepsEnd self.old self.new }
    {
        let mut given_back = dropped_event(alloc, signal)?;
        self.tell(signal);
        self.follow(rt, effects, &mut given_back)?;
        self.deselect(ending.closed);
        self.arm_selected(rt)?;
        self.stop(rt, ending.stops, &mut given_back)?;
        Ok(given_back)
    }
}
