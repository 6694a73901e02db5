ghost use Rattle.std.specs.Prelude.{◌≡◌, ◌≤◌, false, reverse};
ghost use Rattle.port_driver.specs.Faults.{failures_in, RisenBy};
ghost use Rattle.recorded_port.specs.View.{is_finished};
ghost use Rattle.port_body.specs.Body.{BodyName, name_of};
ghost use Rattle.port_body.specs.Ends.{IsEndOf, IsLeftByCalls, IsWholeEnd};

use crate::lane_port::LanePort;
use crate::{BodyEnd, Driver};
use port_sched::{PortBody, Turn};
use std::alloc::Global;
use std::marker::Model;
use std::snapshot::Snapshot;
use std::sync::Wait;

/// The body of a port: the port at its lane, which makes turns.
///
/// Each call that takes a runtime may spin while another thread is in a call of the same lane or the same word.
pub struct Body<D: Driver> {
    pub(crate) alloc: Global,
    pub(crate) lane_port: LanePort<D>,
    // A step found no memory, or the driver was stopped before its port closed.
    pub(crate) broken: bool,
    // As it was before the turn that broke it, if one did.
    pub(crate) finished: bool,
    // The driver as it was handed in.
    pub(crate) handed_in: Snapshot<D>,
}

// Its parts go by one call, which is proved once and not in each function that may let one go.
impl<D: Driver> Drop for Body<D> {
    fn drop(self) {
        let Self {
            alloc: _,
            lane_port: _,
            broken: _,
            finished: _,
            handed_in: _,
        } = self;
    }
}

impl<D: Driver> Model for Body<D> {
    ghost use Rattle.port_body.specs.Body.{BodyView, AlwaysHolds};

    ghost Value = { BodyView };

    ghost view = { λ b. record { lane_port = b.lane_port; broken = b.broken; finished = b.finished; first_faults = D.faults b.handed_in.value } };

    ghost invariant = { λ b. AlwaysHolds (record { lane_port = b.lane_port; broken = b.broken; finished = b.finished; first_faults = D.faults b.handed_in.value }) };
}

impl<D: Driver> Body<D> {
    /// The driver, the history, and the ends. What waits is dropped. Where the body isn't broken, they are what its history says.
    pub fn into_end(self) -> BodyEnd<D>
        ensures end { IsEndOf self result.port.journal.rows result.port.config result.port.outlets result.lane }
        ensures kind { D.kind result.port.driver ≡ self.lane_port.port.opening.kind }
        ensures own { D.own result.port.driver ≡ self.lane_port.port.port.state.service.own }
        ensures stage { D.stage result.port.driver ≡ self.lane_port.port.port.state.service.stage }
        ensures program { D.program result.port.driver ≡ self.lane_port.port.port.state.service.program }
        ensures faults { D.faults result.port.driver ≡ self.lane_port.port.port.state.service.faults }
        ensures rises { self.first_faults ≤ D.faults result.port.driver }
        ensures failed { RisenBy (failures_in result.port.journal.rows) self.first_faults (D.faults result.port.driver) }
        ensures stands { self.broken ≡ false → IsLeftByCalls self.lane_port.port.opening (reverse self.lane_port.port.rows) (D.own result.port.driver) (D.program result.port.driver) }
        ensures whole { self.broken ≡ false → IsWholeEnd self result.port.journal.rows result.port.outlets result.lane }
    {
        let Self {
            alloc: _,
            lane_port,
            broken: _,
            finished: _,
            handed_in: _,
        } = self;
        let LanePort { port, lane, .. } = lane_port;
        BodyEnd {
            port: port.into_end(),
            lane,
        }
    }
}

impl<D: Driver> PortBody for Body<D> {
    ghost Name = { BodyName };

    ghost name = { name_of };

    ghost done = { λ b. b.finished };

    fn turn<R: Wait>(&mut self, rt: &R, max: u32) -> Turn {
        Body::turn(self, rt, max)
    }

    fn is_finished(&self) -> bool {
        Body::is_finished(self)
    }
}
