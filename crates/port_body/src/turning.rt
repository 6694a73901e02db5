//! Turns: chains of steps.
ghost use Rattle.std.specs.Prelude.{◌≡◌, ◌≢◌, false};
ghost use Rattle.recorded_port.specs.View.{is_finished, state_of};
ghost use Rattle.port_body.specs.LanePort.{IsBody, IsSameLanePort};
ghost use Rattle.port_body.specs.Turns.{MakesSteps, Turned};

use crate::body::Body;
use crate::lane_port::LanePort;
use crate::{Driver, NoMemory, Turn};
use std::alloc::Global;
use std::sync::Wait;

impl<D: Driver> LanePort<D> {
    /// Makes at most `max` steps, one after another, until one finds nothing to do, or no memory.
    pub(crate) fn make_steps<R: Wait>(&mut self, rt: &R, alloc: Global, max: u32) -> Turn
        requires { IsBody self.old }
        ensures same { IsSameLanePort self.old self.new }
        ensures steps { MakesSteps result max self.old self.new }
        ensures body { result ≢ Turn.NoMemory → IsBody self.new }
    {
        for _ in 0..max {
            match self.step(rt, alloc) {
                Ok(true) => {}
                Ok(false) => return Turn::Idle,
                Err(NoMemory) => return Turn::NoMemory,
            }
        }
        Turn::More
    }
}

impl<D: Driver> Body<D> {
    /// Makes at most `max` steps. `Idle` tells that a step found no task that may go and the lane empty, `More` that all `max` steps were made. Where a step
    /// finds no memory, the body is broken: `NoMemory` is then the answer of each further turn, which does nothing.
    ///
    /// The rows of a step and a place in the waiting list are made room for before a task is taken. So only a callback or a mail that finds no memory, or a
    /// task that suspends a sender who is still listed, breaks a body in the midst of a step. Where a callback finds none, its row isn't written. Where a mail
    /// finds none, the row stands, and no later mail is put.
    pub fn turn<R: Wait>(&mut self, rt: &R, max: u32) -> Turn
        ensures turned { Turned result max self.old self.new }
    {
        if self.broken {
            return Turn::NoMemory;
        }
        let turn = self.lane_port.make_steps(rt, self.alloc, max);
        if turn == Turn::NoMemory {
            self.broken = true;
            return Turn::NoMemory;
        }
        self.finished = self.lane_port.is_finished();
        turn
    }

    /// Whether nothing is owed any more: the driver was stopped, no mark is due, nobody is listed, each event that the driver used had its `stop_select`, and
    /// each job has its row. A body that broke is finished if it was so before the turn that broke it.
    pub fn is_finished(&self) -> bool
        ensures flag { result ≡ self.now.finished }
        ensures exact { self.now.broken ≡ false → result ≡ is_finished (state_of self.now.lane_port.port) }
    {
        self.finished
    }
}
