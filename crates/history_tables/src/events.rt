//! The events of a driver.
ghost use Rattle.std.specs.Prelude.{◌≡◌, ◌∷◌, [], List, Option, true, map, position, OnOk, ◌==◌, ◌&&◌};
ghost use Rattle.std.specs.List.{list_all};
ghost use Rattle.port_history.specs.Events.{Event, event_of, change, unused, select, disarm, give_up, drop_event, is_selected, is_armed_in, told_of, selected_by, arm, events_after};
ghost use Rattle.port_history.specs.Laws.{is_given_back, is_ready};
ghost use Rattle.history_tables.specs.EventsKept.{Holds, KeepsNumber, event_in, swept, swept_state, is_at_rest};

use crate::{Dir, Effect, NoMemory, Signal};
use std::alloc::Global;

/// What a driver does with an event: whether it uses it, whether it was given up and waits for the poller, and in which directions it is
/// selected and armed.
#[derive(Clone, Copy, Debug, PartialEq, Eq)]
pub struct EventState {
    pub number: u32,
    pub held: bool,
    pub waits: bool,
    pub reads: bool,
    pub writes: bool,
    pub armed_to_read: bool,
    pub armed_to_write: bool,
}

/// What is done to every event of a driver.
#[derive(Clone, Copy, Debug, PartialEq, Eq)]
pub enum Sweep {
    /// None is selected for reading any more.
    Deselect,
    /// Each is armed where it is selected.
    Arm,
    /// Each is given up.
    GiveUp,
}

impl EventState {
    /// An event that was never used.
    fn unused(number: u32) -> EventState
        ensures { event_in result ≡ unused number }
    {
        EventState {
            number,
            held: false,
            waits: false,
            reads: false,
            writes: false,
            armed_to_read: false,
            armed_to_write: false,
        }
    }

    fn is_selected(self, dir: Dir) -> bool
        ensures { result ≡ is_selected dir (event_in self) }
    {
        match dir {
            Dir::Read => self.reads,
            Dir::Write => self.writes,
        }
    }

    fn is_armed(self, dir: Dir) -> bool
        ensures { result ≡ is_armed_in dir (event_in self) }
    {
        match dir {
            Dir::Read => self.armed_to_read,
            Dir::Write => self.armed_to_write,
        }
    }

    /// Whether it is neither used nor waits nor armed, as an event that was never used.
    fn is_at_rest(self) -> bool
        ensures { result ≡ is_at_rest (event_in self) }
    {
        !self.held
            && !self.waits
            && !self.reads
            && !self.writes
            && !self.armed_to_read
            && !self.armed_to_write
    }

    fn is_given_back(self) -> bool
        ensures { result ≡ is_given_back (event_in self) }
    {
        !(self.held || self.waits)
    }

    fn selected(self, dir: Dir, on: bool) -> EventState
        ensures { event_in result ≡ select dir on (event_in self) }
    {
        match dir {
            Dir::Read => EventState {
                held: true,
                reads: on,
                ..self
            },
            Dir::Write => EventState {
                held: true,
                writes: on,
                ..self
            },
        }
    }

    fn disarmed(self, dir: Dir) -> EventState
        ensures { event_in result ≡ disarm dir (event_in self) }
    {
        match dir {
            Dir::Read => EventState {
                armed_to_read: false,
                ..self
            },
            Dir::Write => EventState {
                armed_to_write: false,
                ..self
            },
        }
    }

    fn given_up(self) -> EventState
        ensures { event_in result ≡ give_up (event_in self) }
    {
        self.swept(Sweep::GiveUp)
    }

    fn dropped(self) -> EventState
        ensures { event_in result ≡ drop_event (event_in self) }
    {
        EventState {
            waits: false,
            armed_to_read: false,
            armed_to_write: false,
            ..self
        }
    }

    fn swept(self, sweep: Sweep) -> EventState
        ensures { result ≡ swept_state sweep self }
    {
        match sweep {
            Sweep::Deselect => EventState {
                reads: false,
                ..self
            },
            Sweep::Arm => EventState {
                armed_to_read: self.armed_to_read || self.reads,
                armed_to_write: self.armed_to_write || self.writes,
                ..self
            },
            Sweep::GiveUp => EventState {
                held: false,
                waits: self.waits || (self.held && (self.armed_to_read || self.armed_to_write)),
                reads: false,
                writes: false,
                ..self
            },
        }
    }
}

/// The events that a driver selected. A look-up takes time that grows with how many other events that was; a driver of a program selects two.
#[derive(Drop)]
pub struct EventTable {
    used: Vec<EventState>,
}

impl EventTable {
    /// No event was used.
    pub fn new(alloc: Global) -> EventTable
        ensures { Holds result [] }
    {
        EventTable {
            used: Vec::new(alloc),
        }
    }

    /// Where the event is kept.
    fn place(&self, event: u32) -> Option<usize>
        ensures { result ≡ position (λ e. e.number == event) self.now.used.items }
    {
        self.used.iter().position(|e| e.number == event)
    }

    fn get(&self, event: u32) -> EventState
        ensures { (events : List Event) → Holds self.now events → event_in result ≡ event_of event events }
    {
        match self.place(event) {
            Some(place) => self.used[place],
            None => EventState::unused(event),
        }
    }

    /// Whether the event is selected and armed in this direction.
    pub fn is_ready(&self, event: u32, dir: Dir) -> bool
        ensures { (events : List Event) → Holds self.now events → result ≡ (is_selected dir (event_of event events) && is_armed_in dir (event_of event events)) }
    {
        let state = self.get(event);
        state.is_selected(dir) && state.is_armed(dir)
    }

    /// Whether the event was given up and waits for the poller.
    pub fn is_waiting(&self, event: u32) -> bool
        ensures { (events : List Event) → Holds self.now events → result ≡ (event_of event events).waits }
    {
        self.get(event).waits
    }

    /// Whether each event that was used is given back.
    pub fn are_given_back(&self) -> bool
        ensures { (events : List Event) → Holds self.now events → result ≡ list_all is_given_back events }
    {
        for i in 0..self.used.len() {
            let state = self.used[i];
            if !self.get(state.number).is_given_back() {
                return false;
            }
        }
        true
    }

    /// Puts what an event has become. One that is as if it was never used isn't kept anew.
    fn put(&mut self, state: EventState) -> Result<(), NoMemory>
        ensures { OnOk result ((how : Event → Event) (events : List Event) → KeepsNumber how → Holds self.old events → event_in state ≡ how (event_of state.number events)
            → Holds self.new (change state.number how events)) }
    {
        match self.place(state.number) {
            Some(place) => self.used[place] = state,
            None => {
                if !state.is_at_rest() {
                    self.used.push(state)?;
                }
            }
        }
        Ok(())
    }

    /// Takes in what a task tells of its event, where it is handled or late.
    fn tell(&mut self, late: bool, signal: &Signal) -> Result<(), NoMemory>
        ensures { OnOk result ((events : List Event) → Holds self.old events → Holds self.new (told_of late signal.now events)) }
    {
        match signal {
            Signal::Ready { event, dir } => self.put(self.get(*event).disarmed(*dir)),
            Signal::Dropped(event) if !late => self.put(self.get(*event).dropped()),
            _ => Ok(()),
        }
    }

    fn follow_effect(&mut self, effect: &Effect) -> Result<(), NoMemory>
        ensures { OnOk result ((events : List Event) → Holds self.old events → Holds self.new (selected_by (effect.now ∷ []) events)) }
    {
        match effect {
            Effect::Select { event, dir, on } => { self.put(self.get(*event).selected(*dir, *on)) }
            Effect::Unuse(event) => self.put(self.get(*event).given_up()),
            _ => Ok(()),
        }
    }

    /// Takes in the selections of a callback.
    fn follow(&mut self, effects: &[Effect]) -> Result<(), NoMemory>
        ensures { OnOk result ((events : List Event) → Holds self.old events → Holds self.new (selected_by effects.now events)) }
    {
        for effect in effects {
            self.follow_effect(effect)?;
        }
        Ok(())
    }

    fn sweep(&mut self, sweep: Sweep)
        ensures { (events : List Event) → Holds self.old events → Holds self.new (map (swept sweep) events) }
    {
        for i in 0..self.used.len() {
            let state = self.used[i];
            self.used[i] = state.swept(sweep);
        }
    }

    /// Takes in the effects of the driver's start.
    pub fn note_start(&mut self, effects: &[Effect]) -> Result<(), NoMemory>
        ensures { OnOk result ((events : List Event) → Holds self.old events → Holds self.new (map arm (selected_by effects.now events))) }
    {
        self.follow(effects)?;
        self.sweep(Sweep::Arm);
        Ok(())
    }

    /// Takes in a handled task with its effects, whether the port is closed then, and whether its driver is stopped in the row.
    pub fn note_handled(
        &mut self,
        signal: &Signal,
        effects: &[Effect],
        closed: bool,
        stops: bool,
    ) -> Result<(), NoMemory>
        ensures { OnOk result ((events : List Event) → Holds self.old events → Holds self.new (events_after signal.now effects.now closed stops events)) }
    {
        self.tell(false, signal)?;
        self.follow(effects)?;
        if closed {
            self.sweep(Sweep::Deselect);
        }
        self.sweep(Sweep::Arm);
        if stops {
            self.sweep(Sweep::GiveUp);
        }
        Ok(())
    }

    /// Takes in a task that came late.
    pub fn note_late(&mut self, signal: &Signal) -> Result<(), NoMemory>
        ensures { OnOk result ((events : List Event) → Holds self.old events → Holds self.new (told_of true signal.now events)) }
    {
        self.tell(true, signal)
    }
}
