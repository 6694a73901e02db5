//! One step: a task that waits and may go, or else the next one of the lane.
ghost use Rattle.std.specs.Prelude.{◌≡◌, ◌<◌, ◌+◌, ◌∷◌, ◌++◌, [], length, false, IfOk, OnOk};
ghost use Rattle.port_events.specs.port_history.State.{is_open};
ghost use Rattle.port_lanes.specs.Keys.{sender_at};
ghost use Rattle.recorded_port.specs.View.{state_of};
ghost use Rattle.port_body.specs.LanePort.{HasRoom, Holds, IsBody, IsSameBut, IsSameLanePort, OwnItems};
ghost use Rattle.port_body.specs.Steps.{Arrives, Came, HasLooked, KnowsLane, ListsSender, MayGo, Settles, SettlesNext, SettlesOne, SettlesRest, Stepped, must_wait};

use crate::lane_port::LanePort;
use crate::{Driver, NoMemory, Parcel, Sender};
use std::alloc::Global;
use std::sync::Wait;
use task_queue::Item;

impl<D: Driver> LanePort<D> {
    /// Who has the end of this number.
    fn sender_at(&self, number: u32) -> Sender
        requires { KnowsLane self.now }
        ensures { result ≡ sender_at self.now.lane.key number }
    {
        if number < self.processes {
            return Sender::Process(number);
        }
        let place = number - self.processes;
        if place == 0 {
            return Sender::Poller;
        }
        if place - 1 < self.workers {
            Sender::Worker(place - 1)
        } else {
            Sender::Timer
        }
    }

    /// Brings a task to its row, and resumes who may be resumed.
    fn settle_one<R: Wait>(
        &mut self,
        rt: &R,
        alloc: Global,
        item: Item<Parcel>,
    ) -> Result<(), NoMemory>
        requires holds { Holds self.old (item ∷ self.old.waiting.items) }
        requires free { MayGo self.old item }
        requires room { HasRoom 3 self.old }
        ensures same { IsSameLanePort self.old self.new }
        ensures holds { OnOk result (Holds self.new self.new.waiting.items) }
        ensures settles { OnOk result (SettlesOne self.old self.new item) }
    {
        let from = self.sender_at(item.sender);
        self.port.take(rt, alloc, from, item.seq, item.value)?;
        self.port.resume(rt)
    }

    /// Brings the first task that waits to its row, where the port isn't open. False exactly where none waits.
    fn settle_next<R: Wait>(&mut self, rt: &R, alloc: Global) -> Result<bool, NoMemory>
        requires holds { Holds self.old self.old.waiting.items }
        requires closed { is_open (state_of self.old.port) ≡ false }
        requires owners { OwnItems self.old.processes self.old.waiting.items }
        requires room { HasRoom (2 + length self.old.waiting.items) self.old }
        ensures same { IsSameLanePort self.old self.new }
        ensures holds { OnOk result (Holds self.new self.new.waiting.items) }
        ensures next { IfOk result (λ went. SettlesNext went self.old self.new) }
    {
        let Some(item) = self.waiting.take_first(false) else {
            return Ok(false);
        };
        self.settle_one(rt, alloc, item)?;
        Ok(true)
    }

    /// Brings each task that waits to its row, in the order of the list, where the port isn't open.
    fn settle_rest<R: Wait>(&mut self, rt: &R, alloc: Global) -> Result<(), NoMemory>
        requires holds { Holds self.old self.old.waiting.items }
        requires closed { is_open (state_of self.old.port) ≡ false }
        requires owners { OwnItems self.old.processes self.old.waiting.items }
        requires looked { HasLooked self.old.port }
        requires room { HasRoom (2 + length self.old.waiting.items) self.old }
        ensures same { IsSameLanePort self.old self.new }
        ensures body { OnOk result (IsBody self.new) }
        ensures rest { OnOk result (SettlesRest self.old self.new) }
    {
        for _ in rt.forever() {
            if !self.settle_next(rt, alloc)? {
                return Ok(());
            }
        }
        unreachable!()
    }

    /// Brings a task to its row. Where the port isn't open after it, each task that waits comes to its row too.
    #[inline(always)]
    fn settle<R: Wait>(&mut self, rt: &R, alloc: Global, item: Item<Parcel>) -> Result<(), NoMemory>
        requires holds { Holds self.old (item ∷ self.old.waiting.items) }
        requires free { MayGo self.old item }
        requires owners { OwnItems self.old.processes self.old.waiting.items }
        requires room { HasRoom (5 + length self.old.waiting.items) self.old }
        ensures same { IsSameLanePort self.old self.new }
        ensures body { OnOk result (IsBody self.new) }
        ensures settles { OnOk result (Settles self.old self.new item) }
    {
        self.settle_one(rt, alloc, item)?;
        if self.port.is_open() {
            return Ok(());
        }
        self.settle_rest(rt, alloc)
    }

    /// Lists the sender of a task that was just taken, if the task suspends it.
    fn list_sender(&mut self, item: &Item<Parcel>) -> Result<(), NoMemory>
        requires came { Came self.old item.now }
        requires room { HasRoom 2 self.old }
        ensures same { IsSameLanePort self.old self.new }
        ensures holds { OnOk result (Holds self.new (self.new.waiting.items ++ item.now ∷ [])) }
        ensures lists { OnOk result (ListsSender self.old self.new) }
    {
        if !item.value.task().suspends() {
            return Ok(());
        }
        match self.sender_at(item.sender) {
            Sender::Process(process) => self.port.list(process, item.seq),
            // Only processes send commands, and nothing else suspends.
            Sender::Poller | Sender::Worker(_) | Sender::Timer => Err(NoMemory),
        }
    }

    /// Whether a task that was just taken has to wait.
    fn must_wait(&self, item: &Item<Parcel>) -> bool
        requires { Holds self.now (self.now.waiting.items ++ item.now ∷ []) }
        ensures { result ≡ must_wait self.now item.now }
    {
        if !self.port.is_open() || item.sender >= self.processes {
            return false;
        }
        let task = item.value.task();
        let waits_where_busy = task.signal().is_command() && !task.is_forced();
        self.waiting.has_sender(item.sender) || (self.port.is_busy() && waits_where_busy)
    }

    /// A task that was just taken from the lane: its sender is listed if it suspends, who may be resumed is, and it waits or comes to its row.
    fn arrive<R: Wait>(&mut self, rt: &R, alloc: Global, item: Item<Parcel>) -> Result<(), NoMemory>
        requires came { Came self.old item }
        requires place { 0 < self.old.waiting.room }
        requires room { HasRoom (7 + length self.old.waiting.items) self.old }
        ensures same { IsSameLanePort self.old self.new }
        ensures body { OnOk result (IsBody self.new) }
        ensures arrives { OnOk result (Arrives self.old self.new item) }
    {
        self.list_sender(&item)?;
        self.port.resume(rt)?;
        if self.must_wait(&item) {
            self.waiting.push(item);
            return Ok(());
        }
        self.settle(rt, alloc, item)
    }

    /// Makes room for the rows of a step, and a place for a task to wait.
    ///
    /// One task comes to a row and at most two marks. Before it one sender may be listed, and each that is listed may be resumed. Behind it each task that waits may
    /// come to a row, where the next one is taken in as if it came to three.
    fn reserve(&mut self) -> Result<(), NoMemory>
        requires { IsBody self.old }
        ensures place { OnOk result (0 < self.new.waiting.room) }
        ensures room { OnOk result (HasRoom (7 + length self.old.waiting.items) self.new) }
        ensures same { IsSameBut self.old self.new }
    {
        self.waiting.reserve()?;
        let Some(rows) = self.waiting.len().checked_add(7) else {
            return Err(NoMemory);
        };
        self.port.reserve(rows)
    }

    /// Brings the task that goes next to its row or to wait. False exactly where none of those that wait may go and the lane was found empty.
    fn take_next<R: Wait>(&mut self, rt: &R, alloc: Global) -> Result<bool, NoMemory>
        requires body { IsBody self.old }
        requires place { 0 < self.old.waiting.room }
        requires room { HasRoom (7 + length self.old.waiting.items) self.old }
        ensures same { IsSameLanePort self.old self.new }
        ensures body { OnOk result (IsBody self.new) }
        ensures stepped { IfOk result (λ did. Stepped did self.old self.new) }
    {
        if let Some(item) = self.waiting.take_first(self.port.is_busy()) {
            self.settle(rt, alloc, item)?;
            return Ok(true);
        }
        let Some(item) = self.lane.take(rt) else {
            return Ok(false);
        };
        self.arrive(rt, alloc, item)?;
        Ok(true)
    }

    /// Makes one step: the first task that waits and may go comes to its row, and where none may, the next one of the lane comes to its row or to wait. False exactly where
    /// none may go and the lane was found empty.
    pub(crate) fn step<R: Wait>(&mut self, rt: &R, alloc: Global) -> Result<bool, NoMemory>
        requires { IsBody self.old }
        ensures same { IsSameLanePort self.old self.new }
        ensures body { OnOk result (IsBody self.new) }
        ensures stepped { IfOk result (λ did. Stepped did self.old self.new) }
    {
        self.reserve()?;
        self.take_next(rt, alloc)
    }
}
