//! How the ports are opened, each with its driver.
ghost use Rattle.std.specs.Prelude.{◌≡◌, ◌≢◌, ◌<◌, ◌≤◌, length, All, AllPairs, IfOk, IfErr};
ghost use Rattle.driver_hosts.specs.Back.{AreBack, HasNotStarted};
ghost use Rattle.driver_hosts.specs.Hosts.{IsUnused};
ghost use Rattle.driver_hosts.specs.Opening.{AreOpened, Fit, FitsPort, HasOpened, IsUnopened};

use crate::{Driver, Hosted, PortDecl, PortRoom, take_back};
use port_body::{Body, BodyParts, PortParts, PortPlace};
use port_driver::StartRefusal;
use std::alloc::Global;
use std::sync::Wait;

/// Why the ports weren't opened.
#[derive(Clone, Copy, Debug, PartialEq, Eq)]
pub enum Unopened {
    /// The driver of the port at this place, which is declared in this line, refused to start, or memory was wanting for it.
    Refused {
        at: u32,
        line: u32,
        refusal: StartRefusal,
    },
    /// Memory was wanting before any driver was called.
    NoMemory,
}

/// Opens the port of this number. Where it doesn't open, its driver is back, without a port, and its room is dropped.
fn open_port<D: Driver, R: Wait>(
    rt: &R,
    alloc: Global,
    host: &mut Hosted<D>,
    number: u32,
    port: PortDecl,
    room: PortRoom,
) -> Result<Body<D>, StartRefusal>
    requires unused { IsUnused D.stage host.old }
    requires fits { FitsPort port room }
    ensures opened { IfOk result (HasOpened D.kind D.faults number port room host.old host.new) }
    ensures back { IfErr result (λ refusal. HasNotStarted D.kind D.stage D.faults port.config refusal host.old host.new) }
{
    let Some(driver) = host.driver.take() else {
        unreachable!();
    };
    let place = PortPlace {
        number,
        owner: port.owner,
        processes: room.processes,
        rows: room.rows,
    };
    let parts = BodyParts {
        port: PortParts {
            driver,
            config: port.config,
            outlets: room.outlets,
        },
        lane: room.lane,
        workers: room.workers,
    };
    match Body::open(rt, alloc, place, parts) {
        Ok(body) => {
            host.port = Some(number);
            Ok(body)
        }
        Err((parts, refusal)) => {
            let BodyParts { port, .. } = parts;
            let PortParts { driver, .. } = port;
            host.driver = Some(driver);
            Err(refusal)
        }
    }
}

/// Opens the ports in their order, each with the driver at its place and in its room, and numbers them from 0. A driver that serves a port stands in its body, and
/// the port's number at its place.
///
/// Where a driver refuses, or memory is wanting, the earlier ports are ended: each driver that served one is back, stopped and with its number, and the others are
/// back without. All rooms are dropped then.
pub fn open_ports<D: Driver, R: Wait>(
    rt: &R,
    alloc: Global,
    hosts: &mut Vec<Hosted<D>>,
    places: &[usize],
    ports: Vec<PortDecl>,
    rooms: Vec<PortRoom>,
) -> Result<Vec<Body<D>>, Unopened>
    requires few { length ports.items ≤ 32 }
    requires len { length places.now ≡ length ports.items }
    requires within { All (λ at. at < length hosts.old.items) places.now }
    requires different { AllPairs (λ at later. at ≢ later) places.now }
    requires unused { All (IsUnused D.stage) hosts.old.items }
    requires rooms { length rooms.items ≡ length ports.items }
    requires fit { Fit ports.items rooms.items }
    ensures count { IfOk result (λ bodies. length bodies.items ≡ length ports.items) }
    ensures opened { IfOk result (λ bodies. AreOpened D.kind D.faults ports.items rooms.items places.now hosts.old.items hosts.new.items bodies.items) }
    ensures refused { IfErr result (IsUnopened D.kind ports.items places.now hosts.old.items) }
    ensures back { IfErr result (AreBack D.kind D.stage D.faults ports.items places.now hosts.old.items hosts.new.items) }
{
    let Ok(mut bodies) = Vec::with_capacity(alloc, ports.len()) else {
        return Err(Unopened::NoMemory);
    };
    for (port, room) in ports.into_iter().zip(rooms) {
        let at = bodies.len();
        let line = port.line;
        match open_port(rt, alloc, &mut hosts[places[at]], at as u32, port, room) {
            Ok(body) => bodies.push_reserved(body),
            Err(refusal) => {
                // What the ports leave is given up.
                let _ = take_back(alloc, hosts, &places[..at], bodies);
                return Err(Unopened::Refused {
                    at: at as u32,
                    line,
                    refusal,
                });
            }
        }
    }
    Ok(bodies)
}
