//! How a body takes in an end of its lane, and how it comes to its end.
ghost use Rattle.std.specs.Prelude.{◌≡◌, ◌∷◌, ◌++◌, []};
ghost use Rattle.task_queue.specs.Ends.{ended_of};
ghost use Rattle.recorded_port.specs.View.{is_finished, state_of};
ghost use Rattle.port_body.specs.Ends.{HasEnded};
ghost use Rattle.port_body.specs.LanePort.{IsBody};

use crate::body::Body;
use crate::lane_port::LanePort;
use crate::{Driver, Parcel};
use task_queue::SendEnd;

impl<D: Driver> LanePort<D> {
    /// Takes in a sending end of the lane.
    pub(crate) fn take_in(&mut self, end: SendEnd<Parcel>)
        requires { end.lane ≡ self.old.lane.lane }
        ensures { self.new ≡ record self.old { lane = record self.old.lane { ended = self.old.lane.ended ++ ended_of end ∷ [] } } }
    {
        self.lane.take_in(end);
    }

    /// Whether nothing is wanting at the end of the port's history.
    pub(crate) fn is_finished(&self) -> bool
        requires { IsBody self.now }
        ensures { result ≡ is_finished (state_of self.now.port) }
    {
        self.port.is_finished()
    }
}

impl<D: Driver> Body<D> {
    /// Takes in a sending end of the body's lane, which then sends no more. It takes no memory.
    pub fn take_in(&mut self, end: SendEnd<Parcel>)
        requires { end.lane ≡ self.old.lane_port.lane.lane }
        ensures { self.new ≡ record self.old { lane_port = record self.old.lane_port { lane = record self.old.lane_port.lane { ended = self.old.lane_port.lane.ended ++ ended_of end ∷ [] } } } }
    {
        self.lane_port.take_in(end);
    }

    /// Stops the driver, if it wasn't stopped, where a run ends before its port does. No process is told, and no task is taken any more. It takes no memory.
    pub fn end(&mut self)
        ensures { HasEnded self.old self.new }
    {
        if !self.lane_port.port.is_stopped() {
            self.broken = true;
        }
        self.lane_port.port.end();
    }
}
