//! How a port comes to its first row, and how it comes to its end.
ghost use Rattle.std.specs.Prelude.{◌≡◌, ◌≢◌, ◌≤◌, ◌<◌, ◌⊎◌, [], None, IfOk, IfErr, OnOk};
ghost use Rattle.port_suspension.specs.Listed.{AgreesListed};
ghost use Rattle.suspend_list.specs.Entries.{suspended};
ghost use Rattle.port_driver.specs.driver_model.Drivers.{refusal_of};
ghost use Rattle.port_driver.specs.driver_model.Programs.{TellsOfProgram};
ghost use Rattle.port_driver.specs.Starting.{Refuses};
ghost use Rattle.served_port.specs.port_service.Opened.{ended};
ghost use Rattle.recorded_port.specs.View.{IsSettled};
ghost use Rattle.recorded_port.specs.Openings.{AreUnused, IsOpened};
ghost use Rattle.recorded_port.specs.Taking.{IsSameRecorded};

use crate::fixed::Fixed;
use crate::parts::{PortOutlets, PortParts};
use crate::{Driver, NoMemory, RecordedPort, Row, ServedPort, Suspension};
use port_driver::{Life, StartRefusal};
use served_port::PortPlace;
use std::alloc::Global;
use std::sync::Wait;

/// An empty list of the processes that the port of this place suspends, and an empty list of its rows with their room.
fn empty_lists(alloc: Global, place: PortPlace) -> Result<(Suspension, Vec<Row>), NoMemory>
    ensures list { IfOk result (λ r. r.0 ≡ suspended [] place.processes) }
    ensures agrees { IfOk result (λ r. AgreesListed r.0 []) }
    ensures rows { IfOk result (λ r. r.1.items ≡ []) }
{
    let suspension = Suspension::new(alloc, place.processes)?;
    let rows = Vec::with_capacity(alloc, place.rows)?;
    Ok((suspension, rows))
}

impl<D: Driver> RecordedPort<D> {
    /// Opens the port of this place: its driver is started, and its first owner is linked. Where the driver refuses, or memory is wanting, all parts come
    /// back, the driver stopped, or fresh if it wasn't called.
    pub fn open<R: Wait>(
        rt: &R,
        alloc: Global,
        place: PortPlace,
        parts: PortParts<D>,
    ) -> Result<RecordedPort<D>, (PortParts<D>, StartRefusal)>
        requires fresh { D.stage parts.driver ≡ Life.Fresh }
        requires owner { place.owner < place.processes }
        requires unused { AreUnused parts.outlets }
        ensures settled { IfOk result (λ p. IsSettled p) }
        ensures opened { IfOk result (λ p. IsOpened place (D.kind parts.driver) parts.config parts.outlets p) }
        ensures starts { OnOk result (refusal_of (D.kind parts.driver) parts.config ≡ None) }
        ensures faults_rise { IfOk result (λ p. D.faults parts.driver ≤ p.port.state.service.faults) }
        ensures kind { IfErr result (λ r. D.kind r.0.driver ≡ D.kind parts.driver) }
        ensures config { IfErr result (λ r. r.0.config ≡ parts.config) }
        ensures back { IfErr result (λ r. (D.stage r.0.driver ≡ Life.Fresh) ⊎ (D.stage r.0.driver ≡ Life.Stopped)) }
        ensures faults { IfErr result (λ r. D.faults parts.driver ≤ D.faults r.0.driver) }
        ensures refusal { IfErr result (λ r. Refuses (D.kind parts.driver) parts.config (D.faults parts.driver) (D.faults r.0.driver) r.1) }
    {
        let PortParts {
            driver,
            config,
            outlets,
        } = parts;
        let PortOutlets {
            mailboxes,
            seat,
            ends,
        } = outlets;
        let Ok((suspension, rows)) = empty_lists(alloc, place) else {
            let outlets = PortOutlets::new(mailboxes, seat, ends);
            let parts = PortParts::new(driver, config, outlets);
            return Err((parts, StartRefusal::NoMemory));
        };
        let port = match ServedPort::open(rt, alloc, driver, &config, place, ends) {
            Ok(port) => port,
            Err((driver, ends, refusal)) => {
                let outlets = PortOutlets::new(mailboxes, seat, ends);
                return Err((PortParts::new(driver, config, outlets), refusal));
            }
        };
        let (read, write) = port.program_events();
        Ok(RecordedPort {
            fixed: Fixed {
                number: place.number,
                owner: place.owner,
                config,
                read,
                write,
            },
            port,
            mailboxes,
            seat,
            suspension,
            rows,
        })
    }

    /// Stops the driver, if it is started: a port that found no memory is given up.
    pub fn end(&mut self)
        ensures stage { self.new.port.state.service.stage ≡ ended (self.old.port.state.service.stage) }
        ensures told { TellsOfProgram self.new.port.state.service.own self.new.port.state.service.program }
        ensures same { IsSameRecorded self.old self.new }
        ensures rows { self.new.rows ≡ self.old.rows }
        ensures unchanged { self.old.port.state.service.stage ≢ Life.Started → self.new ≡ self.old }
    {
        self.port.end();
    }
}
