ghost use Rattle.std.specs.Prelude.{◌≡◌, ◌&&◌, List, [], ◌∷◌, ◌++◌, OnOk, OnErr};
ghost use Rattle.std.specs.List.{list_all};
ghost use Rattle.port_history.specs.Events.{Event, event_of, is_selected, is_armed_in};
ghost use Rattle.port_history.specs.Laws.{is_given_back};
ghost use Rattle.port_events.specs.Table.{Agrees, held_of};

use crate::used_events::UsedEvents;
use crate::{Dir, NoMemory, PollAsk, SendEnd};
use arrayvec::ArrayVec;
use std::marker::Model;
use std::sync::Wait;

/// The events of one port's driver, and the port's end in the poller's lane of asks.
///
/// An event is held from its first selection until the driver gives it up, and waits from then on if it was armed, until the poller
/// dropped it. At most 64 events are held or wait. Each call that puts an ask may spin while another thread is in a call of the lane.
#[derive(Drop)]
pub struct PortEvents {
    port: u32,
    pub(crate) events: UsedEvents,
    asks: SendEnd<PollAsk>,
}

impl Model for PortEvents {
    ghost use Rattle.port_events.specs.Table.{EventTable};

    ghost Value = { EventTable };

    ghost view = { λ p. record { port = p.port; selector = p.events; asks = p.asks } };
}

impl PortEvents {
    /// The events of the port of this number whose driver has used none yet, with the port's end in the lane.
    pub fn new(port: u32, asks: SendEnd<PollAsk>) -> PortEvents
        ensures port { result.port ≡ port }
        ensures asks { result.asks ≡ asks }
        ensures none { Agrees result.selector [] }
    {
        PortEvents {
            port,
            events: UsedEvents::new(),
            asks,
        }
    }

    /// The port's end in the lane.
    pub fn into_asks(self) -> SendEnd<PollAsk>
        ensures { result ≡ self.asks }
    {
        let PortEvents { asks, .. } = self;
        asks
    }

    /// The numbers of the events that are held, rising.
    pub fn held(&self) -> ArrayVec<u32, 64>
        ensures { (events : List Event) → Agrees self.now.selector events → result.items ≡ held_of events }
    {
        self.events.held()
    }

    /// Whether the event is selected and armed in this direction, so that the driver is called where it is ready.
    pub fn is_ready(&self, event: u32, dir: Dir) -> bool
        ensures { (events : List Event) → Agrees self.now.selector events
            → result ≡ (is_selected dir (event_of event events) && is_armed_in dir (event_of event events)) }
    {
        self.events.is_ready(event, dir)
    }

    /// Whether the event was given up and waits for the poller to drop it.
    pub fn is_waiting(&self, event: u32) -> bool
        ensures { (events : List Event) → Agrees self.now.selector events → result ≡ (event_of event events).waits }
    {
        self.events.is_waiting(event)
    }

    /// Whether no event is held or waits, so that each event that was used is given back.
    pub fn is_given_back(&self) -> bool
        ensures { (events : List Event) → Agrees self.now.selector events → result ≡ list_all is_given_back events }
    {
        self.events.is_empty()
    }

    /// The port's number.
    pub(crate) fn port(&self) -> u32
        ensures { result ≡ self.now.port }
    {
        self.port
    }

    /// Puts an ask to the poller.
    pub(crate) fn ask<R: Wait>(&mut self, rt: &R, ask: PollAsk) -> Result<(), NoMemory>
        ensures put { OnOk result (self.new ≡ record self.old { asks = record self.old.asks { sent = self.old.asks.sent ++ ask ∷ [] } }) }
        ensures refused { OnErr result (self.new ≡ self.old) }
    {
        match self.asks.put(rt, ask) {
            Ok(_) => Ok(()),
            Err((_, no_memory)) => Err(no_memory),
        }
    }
}
