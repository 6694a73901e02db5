//! How a body is opened.
ghost use Rattle.std.specs.Prelude.{◌≡◌, ◌≤◌, ◌<◌, ◌⊎◌, None, IfOk, IfErr, OnOk};
ghost use Rattle.port_driver.specs.driver_model.Drivers.{refusal_of};
ghost use Rattle.port_driver.specs.Starting.{Refuses};
ghost use Rattle.recorded_port.specs.Openings.{AreUnused};
ghost use Rattle.port_body.specs.Openings.{FitsPlace, IsOpenedBody};

use crate::body::Body;
use crate::lane_port::LanePort;
use crate::{BodyParts, Driver, PortPlace, RecordedPort, StartRefusal};
use port_driver::Life;
use std::alloc::Global;
use std::snapshot::Snapshot;
use std::sync::Wait;
use waiting_parcels::WaitingList;

impl<D: Driver> Body<D> {
    /// Opens the port of this place. Where its driver refuses, or memory is wanting, all parts come back, the driver stopped, or fresh if it wasn't called.
    pub fn open<R: Wait>(
        rt: &R,
        alloc: Global,
        place: PortPlace,
        parts: BodyParts<D>,
    ) -> Result<Body<D>, (BodyParts<D>, StartRefusal)>
        requires fresh { D.stage parts.port.driver ≡ Life.Fresh }
        requires owner { place.owner < place.processes }
        requires unused { AreUnused parts.port.outlets }
        requires lane { FitsPlace place parts.workers parts.port.outlets parts.lane }
        ensures opened { IfOk result (λ b. IsOpenedBody place (D.kind parts.port.driver) (D.faults parts.port.driver) parts.port.config parts.workers parts.port.outlets parts.lane b) }
        ensures starts { OnOk result (refusal_of (D.kind parts.port.driver) parts.port.config ≡ None) }
        ensures kind { IfErr result (λ r. D.kind r.0.port.driver ≡ D.kind parts.port.driver) }
        ensures back { IfErr result (λ r. (D.stage r.0.port.driver ≡ Life.Fresh) ⊎ (D.stage r.0.port.driver ≡ Life.Stopped)) }
        ensures rest { IfErr result (λ r. (r.0.lane ≡ parts.lane) × (r.0.port.config ≡ parts.port.config)) }
        ensures faults { IfErr result (λ r. D.faults parts.port.driver ≤ D.faults r.0.port.driver) }
        ensures refusal { IfErr result (λ r. Refuses (D.kind parts.port.driver) parts.port.config (D.faults parts.port.driver) (D.faults r.0.port.driver) r.1) }
    {
        let handed_in = Snapshot::of(&parts.port.driver);
        let BodyParts {
            port,
            lane,
            workers,
        } = parts;
        let Ok(waiting) = WaitingList::new(alloc, place.processes) else {
            let parts = BodyParts {
                port,
                lane,
                workers,
            };
            return Err((parts, StartRefusal::NoMemory));
        };
        match RecordedPort::open(rt, alloc, place, port) {
            Ok(port) => Ok(Body {
                alloc,
                lane_port: LanePort {
                    port,
                    lane,
                    waiting,
                    processes: place.processes,
                    workers,
                },
                broken: false,
                finished: false,
                handed_in,
            }),
            Err((port, refusal)) => {
                let parts = BodyParts {
                    port,
                    lane,
                    workers,
                };
                Err((parts, refusal))
            }
        }
    }
}
