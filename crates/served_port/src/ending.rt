//! How a port comes to its end.
ghost use Rattle.std.specs.Prelude.{◌≡◌, ◌≢◌, ◌≤◌};
ghost use Rattle.port_driver.specs.driver_model.Programs.{TellsOfProgram};
ghost use Rattle.port_state.specs.port_service.Opened.{ended};
ghost use Rattle.port_state.specs.View.{IsSamePort};

use crate::{Driver, ServedPort};
use port_driver::Life;

impl<D: Driver> ServedPort<D> {
    /// Stops the driver, if it is started: a port that found no memory is given up.
    pub fn end(&mut self)
        ensures stage { self.new.state.service.stage ≡ ended (self.old.state.service.stage) }
        ensures told { TellsOfProgram self.new.state.service.own self.new.state.service.program }
        ensures same { IsSamePort self.old.state self.new.state }
        ensures faults { self.old.state.service.faults ≤ self.new.state.service.faults }
        ensures unchanged { self.old.state.service.stage ≢ Life.Started → self.new ≡ self.old }
        ensures rest { (self.new.events ≡ self.old.events) × (self.new.jobs ≡ self.old.jobs) }
    {
        self.state.end();
    }
}
