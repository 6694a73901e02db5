//! A task that the port handles or finds late.
ghost use Rattle.std.specs.Prelude.{◌≡◌, ◌≤◌, [], ℕ, is_some, IfOk, OnOk};
ghost use Rattle.port_driver.specs.Faults.{failures, RisenBy};
ghost use Rattle.port_events.specs.port_history.Opening.{Opening, taken_of};
ghost use Rattle.port_events.specs.port_history.State.{State, after};
ghost use Rattle.port_jobs.specs.Jobs.{Submits};
ghost use Rattle.port_links.specs.Table.{IsAmong};
ghost use Rattle.port_model.specs.Tasks.{TaskView};
ghost use Rattle.port_model.specs.declared.row.Row.TheVariants.{Late};
ghost use Rattle.port_state.specs.View.{IsSamePort};
ghost use Rattle.port_state.specs.Served.{IsServed};
ghost use Rattle.served_port.specs.View.{IsAt, IsSameServed, IsSomewhere, end_names};
ghost use Rattle.served_port.specs.Outcomes.{answers_in, is_handled, IsOutcome};
ghost use Rattle.served_port.specs.Steps.{Handles, Follows};

use crate::{Driver, Effect, HandledOrLate, NoMemory, Sender, Served, ServedPort, Signal};
use port_driver::Life;
use port_events::{AfterTask, EventFault};
use port_jobs::SubmitFault;
use std::alloc::Global;
use std::sync::Wait;

impl<D: Driver> ServedPort<D> {
    /// Whether the port handles a task of this sender: a process's where it is open, a ready event's where the driver selected it and it
    /// is armed, a dropped event's where it waits for that, and that of a job's end where the driver runs and submitted it.
    pub fn handles(&self, from: Sender, signal: &Signal) -> bool
        ensures { (port : Opening) (s : State) → IsAt self.now port s → result ≡ is_handled s from signal.now }
    {
        match (from, signal) {
            (Sender::Process(_), _) => self.state.is_open(),
            (Sender::Poller, Signal::Ready { event, dir }) => self.events.is_ready(*event, *dir),
            (Sender::Poller, Signal::Dropped(event)) => self.events.is_waiting(*event),
            (Sender::Worker(_), Signal::AsyncDone { number, .. }) => {
                self.jobs.is_submitted(*number) && !self.state.is_stopped()
            }
            _ => false,
        }
    }

    /// Takes in a task of this sender, with its place in the sender's order, from 0: handles it, or finds it late. After want of memory it says nothing
    /// of a history any more; its driver can still be stopped.
    pub fn take<R: Wait>(
        &mut self,
        rt: &R,
        alloc: Global,
        from: Sender,
        seq: u64,
        signal: &Signal,
    ) -> Result<HandledOrLate, NoMemory>
        requires among { IsAmong self.old.state.links.processes from }
        requires at { IsSomewhere self.old }
        ensures same { IsSameServed self.old self.new }
        ensures failed { IfOk result (λ outcome. RisenBy (failures (answers_in outcome)) self.old.state.service.faults self.new.state.service.faults) }
        ensures outcome { IfOk result (λ outcome. (port : Opening) (s : State) (task : TaskView) → task.signal ≡ signal.now → IsAt self.old port s → s.due ≡ []
            → IsOutcome outcome port s from seq task self.old self.new) }
    {
        if !self.handles(from, signal) {
            self.note_late(from, signal)?;
            return Ok(HandledOrLate::Late);
        }
        let served = self.serve(alloc, from, seq, signal)?;
        self.follow(rt, alloc, signal, &served)?;
        Ok(HandledOrLate::Handled(served))
    }

    /// Calls the driver for a task that the port handles. A dropped event is told to nobody but `stop_select` once the driver is stopped.
    fn serve(
        &mut self,
        alloc: Global,
        from: Sender,
        seq: u64,
        signal: &Signal,
    ) -> Result<Served, NoMemory>
        requires among { IsAmong self.old.state.links.processes from }
        requires handled { Handles self.old from signal.now }
        ensures same { IsSamePort self.old.state self.new.state }
        ensures faults { self.old.state.service.faults ≤ self.new.state.service.faults }
        ensures failed { IfOk result (λ made. RisenBy (failures made.outside) self.old.state.service.faults self.new.state.service.faults) }
        ensures life { self.new.state.service.stage ≡ Life.Fresh → self.old.state.service.stage ≡ Life.Fresh }
        ensures rest { (self.new.events ≡ self.old.events) × (self.new.jobs ≡ self.old.jobs) }
        ensures serves { IfOk result (λ made. (port : Opening) (s : State) (task : TaskView) → task.signal ≡ signal.now → IsAt self.old port s → s.due ≡ []
            → IsServed port s (taken_of from seq task made.outside made.effects) signal.now made self.new.state) }
    {
        if self.state.is_stopped() {
            let Signal::Dropped(event) = signal else {
                unreachable!()
            };
            return Ok(self.state.serve_dropped(alloc, seq, *event));
        }
        // Most ports have no events, and the list of those that are held is large.
        if self.events.is_given_back() {
            return self.state.serve(alloc, from, seq, signal, &[]);
        }
        let held = self.events.held();
        self.state.serve(alloc, from, seq, signal, held.as_slice())
    }

    /// Tells the driver of each event that is given back.
    fn stop_selects(&mut self, events: &[u32])
        ensures same { self.new ≡ record self.old { state = record self.old.state { service = record self.old.state.service { faults = self.new.state.service.faults } } } }
        ensures faults { self.old.state.service.faults ≤ self.new.state.service.faults }
    {
        for event in events {
            self.state.stop_select(*event);
        }
    }

    /// Submits the jobs of some effects.
    pub(crate) fn submit<R: Wait>(&mut self, rt: &R, effects: &[Effect]) -> Result<(), NoMemory>
        ensures ok { OnOk result (Submits self.old.jobs self.new.jobs effects.now) }
        ensures same { (self.new.state ≡ self.old.state) × (self.new.events ≡ self.old.events) }
        ensures port { self.new.jobs.port ≡ self.old.jobs.port }
        ensures pool { end_names self.new.jobs.lanes ≡ end_names self.old.jobs.lanes }
    {
        match self.jobs.submit(rt, effects) {
            Ok(()) => Ok(()),
            Err(SubmitFault::NotNext | SubmitFault::NoMemory) => Err(NoMemory),
        }
    }

    /// Follows what a handled task's calls did: the events that the driver selected and gave up, and the jobs that it submitted.
    fn follow<R: Wait>(
        &mut self,
        rt: &R,
        alloc: Global,
        signal: &Signal,
        served: &Served,
    ) -> Result<(), NoMemory>
        ensures same { IsSameServed self.old self.new }
        ensures state { self.new.state ≡ record self.old.state { service = record self.old.state.service { faults = self.new.state.service.faults } } }
        ensures follows { OnOk result (Follows signal.now served.now.effects (is_some self.old.state.reason) served.now.closing.stops self.old self.new) }
    {
        let ending = AfterTask {
            closed: !self.state.is_open(),
            stops: served.closing.stops,
        };
        let effects = served.effects.as_slice();
        let given_back = match self.events.note_handled(rt, alloc, signal, effects, ending) {
            Ok(given_back) => given_back,
            Err(EventFault::NoMemory | EventFault::NoRoom) => return Err(NoMemory),
        };
        self.stop_selects(given_back.as_slice());
        self.submit(rt, effects)?;
        self.jobs.note_done(signal)
    }

    /// Takes in a task that the port finds late.
    fn note_late(&mut self, from: Sender, signal: &Signal) -> Result<(), NoMemory>
        requires { IsAmong self.old.state.links.processes from }
        ensures same { IsSameServed self.old self.new }
        ensures lates { OnOk result ((port : Opening) (s : State) (seq : ℕ) (task : TaskView) → task.signal ≡ signal.now → IsAt self.old port s
            → IsAt self.new port (after port s (Late from seq task))) }
        ensures lanes { (self.new.events.asks ≡ self.old.events.asks) × (self.new.jobs.lanes ≡ self.old.jobs.lanes) }
    {
        self.state.note_late(from, signal);
        self.events.note_late(signal);
        self.jobs.note_done(signal)
    }
}
