//! How a port is opened.
ghost use Rattle.std.specs.Prelude.{◌≡◌, ◌≤◌, ◌<◌, ◌⊎◌, None, IfOk, IfErr, OnOk};
ghost use Rattle.port_driver.specs.driver_model.Drivers.{refusal_of};
ghost use Rattle.port_driver.specs.Starting.{Refuses};
ghost use Rattle.port_events.specs.port_history.Opening.{Opening};
ghost use Rattle.port_events.specs.Table.{KeepsEnd};
ghost use Rattle.port_jobs.specs.Jobs.{Submits};
ghost use Rattle.port_state.specs.View.{IsOpeningOf};
ghost use Rattle.served_port.specs.Openings.{IsAtStart};
ghost use Rattle.served_port.specs.Steps.{StartsEvents};

use crate::{Config, Driver, Effect, NoMemory, PortEnds, PortPlace, ServedPort, StartRefusal};
use port_driver::Life;
use port_events::PortEvents;
use port_jobs::PortJobs;
use port_state::PortState;
use std::alloc::Global;
use std::sync::Wait;

impl<D: Driver> ServedPort<D> {
    /// Starts a fresh driver for the port of this place, with these options. Each event that the start selects is armed, and its jobs are
    /// submitted. Where the driver refuses, or memory is wanting, the driver comes back with the ends: stopped, or fresh if it wasn't called.
    ///
    /// A start that gives an event up, selects a 65th one, or numbers its jobs otherwise than from 0 is told as want of memory.
    pub fn open<R: Wait>(
        rt: &R,
        alloc: Global,
        driver: D,
        config: &Config,
        place: PortPlace,
        ends: PortEnds,
    ) -> Result<ServedPort<D>, (D, PortEnds, StartRefusal)>
        requires fresh { D.stage driver ≡ Life.Fresh }
        requires owner { place.owner < place.processes }
        ensures opened { IfOk result (λ p. (port : Opening) → IsOpeningOf place.number (D.kind driver) config.now place.owner place.processes p.state port
            → IsAtStart port ends p) }
        ensures starts { OnOk result (refusal_of (D.kind driver) config.now ≡ None) }
        ensures faults_rise { IfOk result (λ p. D.faults driver ≤ p.state.service.faults) }
        ensures kind { IfErr result (λ r. D.kind r.0 ≡ D.kind driver) }
        ensures back { IfErr result (λ r. (D.stage r.0 ≡ Life.Fresh) ⊎ (D.stage r.0 ≡ Life.Stopped)) }
        ensures faults { IfErr result (λ r. D.faults driver ≤ D.faults r.0) }
        ensures refusal { IfErr result (λ r. Refuses (D.kind driver) config.now (D.faults driver) (D.faults r.0) r.2) }
    {
        let PortPlace {
            number,
            owner,
            processes,
            ..
        } = place;
        let (state, effects) = match PortState::open(
            alloc, number, driver, config, owner, processes,
        ) {
            Ok(opened) => opened,
            Err((driver, refusal)) => return Err((driver, ends, refusal)),
        };
        let mut port = ServedPort {
            state,
            events: PortEvents::new(number, ends.asks),
            jobs: PortJobs::new(alloc, number, ends.pool),
        };
        match port.begin(rt, alloc, effects.as_slice()) {
            Ok(()) => Ok(port),
            Err(NoMemory) => {
                port.end();
                let (driver, ends) = port.into_parts();
                Err((driver, ends, StartRefusal::NoMemory))
            }
        }
    }

    /// Follows the effects of the start.
    fn begin<R: Wait>(&mut self, rt: &R, alloc: Global, effects: &[Effect]) -> Result<(), NoMemory>
        ensures state { self.new.state ≡ self.old.state }
        ensures events { OnOk result (StartsEvents self.old.events effects.now self.new.events) }
        ensures jobs { OnOk result (Submits self.old.jobs self.new.jobs effects.now) }
        ensures kept { KeepsEnd self.old.events self.new.events }
    {
        match self.events.start(rt, alloc, effects) {
            Ok(()) => self.submit(rt, effects),
            Err(_) => Err(NoMemory),
        }
    }
}
