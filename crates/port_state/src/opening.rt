//! How a port's state begins and ends.
ghost use Rattle.std.specs.Prelude.{◌≡◌, ◌≢◌, ◌≤◌, ◌<◌, ◌⊎◌, ◌∷◌, [], IfOk, IfErr, OnOk};
ghost use Rattle.port_service.specs.port_driver.driver_model.Drivers.{effects_of, read_event_of, refusal_of, write_event_of};
ghost use Rattle.port_service.specs.port_driver.driver_model.Programs.{TellsOfProgram};
ghost use Rattle.port_service.specs.port_driver.Starting.{Refuses};
ghost use Rattle.port_mail.specs.port_links.port_history.Opening.{Opening};
ghost use Rattle.port_mail.specs.port_links.port_history.State.{start_call, state_at_start};
ghost use Rattle.port_service.specs.Opened.{ended};
ghost use Rattle.port_state.specs.View.{IsStateOf, IsOpeningOf, IsSamePort};

use crate::{Config, Driver, Effect, Items, NoMemory, PortState, StartRefusal};
use port_mail::Links;
use port_service::{Life, Service};
use std::alloc::Global;

impl<D: Driver> PortState<D> {
    /// Starts a fresh driver for the port of this number, with these options and this owner, among so many processes. Answers its state, and the effects
    /// of the start, in their order. Where the driver refuses, or memory is wanting, it comes back: stopped, or fresh if it wasn't called.
    pub fn open(
        alloc: Global,
        number: u32,
        driver: D,
        config: &Config,
        owner: u32,
        processes: u32,
    ) -> Result<(PortState<D>, Items<Effect>), (D, StartRefusal)>
        requires fresh { D.stage driver ≡ Life.Fresh }
        requires owner { owner < processes }
        ensures opened { IfOk result (λ r. (port : Opening) → IsOpeningOf number (D.kind driver) config.now owner processes r.0 port
            → IsStateOf r.0 port (state_at_start port) × (r.1 ≡ effects_of port.kind port.config (start_call port ∷ []))) }
        ensures starts { OnOk result (refusal_of (D.kind driver) config.now ≡ None) }
        ensures faults_rise { IfOk result (λ r. D.faults driver ≤ r.0.service.faults) }
        ensures kind { IfErr result (λ r. D.kind r.0 ≡ D.kind driver) }
        ensures back { IfErr result (λ r. (D.stage r.0 ≡ Life.Fresh) ⊎ (D.stage r.0 ≡ Life.Stopped)) }
        ensures faults { IfErr result (λ r. D.faults driver ≤ D.faults r.0) }
        ensures refusal { IfErr result (λ r. Refuses (D.kind driver) config.now (D.faults driver) (D.faults r.0) r.1) }
    {
        let Ok(links) = Links::new(alloc, owner, processes) else {
            return Err((driver, StartRefusal::NoMemory));
        };
        let (service, effects) = Service::open(alloc, driver, config, owner, processes)?;
        let state = PortState {
            number,
            links,
            service,
            reason: None,
            closer: None,
            stopped: false,
            busy: false,
            change: None,
            closes: false,
        };
        Ok((state, effects))
    }

    /// The read event and the write event of the driver's program, 0 and 0 where it has none.
    pub fn program_events(&self) -> (u32, u32)
        ensures read { result.0 ≡ read_event_of self.now.service.own }
        ensures write { result.1 ≡ write_event_of self.now.service.own }
    {
        self.service.program_events()
    }

    /// Tells the driver that an event that it gave up is waited for no more.
    pub fn stop_select(&mut self, event: u32)
        ensures same { self.new ≡ record self.old { service = record self.old.service { faults = self.new.service.faults } } }
        ensures faults { self.old.service.faults ≤ self.new.service.faults }
    {
        self.service.stop_select(event);
    }

    /// Stops the driver, if it is started: a port that found no memory is given up.
    pub fn end(&mut self)
        ensures stage { self.new.service.stage ≡ ended (self.old.service.stage) }
        ensures told { TellsOfProgram self.new.service.own self.new.service.program }
        ensures same { IsSamePort self.old self.new }
        ensures faults { self.old.service.faults ≤ self.new.service.faults }
        ensures unchanged { self.old.service.stage ≢ Life.Started → self.new ≡ self.old }
    {
        self.service.end();
    }

    /// The driver.
    pub fn into_driver(self) -> D
        ensures kind { D.kind result ≡ self.service.kind }
        ensures own { D.own result ≡ self.service.own }
        ensures stage { D.stage result ≡ self.service.stage }
        ensures program { D.program result ≡ self.service.program }
        ensures faults { D.faults result ≡ self.service.faults }
    {
        self.service.into_driver()
    }
}
