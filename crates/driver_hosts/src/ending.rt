//! How the ports come to their end, and their drivers back.
ghost use Rattle.std.specs.Prelude.{◌≡◌, ◌<◌, ◌≢◌, ◌++◌, ◌∷◌, [], length, All, AllPairs, IfOk, IsOkAnd};
ghost use Rattle.driver_hosts.specs.Returning.{AreReturned, HasReturned, HasLeft, LeaveAll};

use crate::{Driver, Hosted, NoMemory, PortOutlets};
use port_body::{Body, BodyEnd, Parcel, PortEnd};
use port_driver::Config;
use port_model::Journal;
use std::alloc::Global;
use task_queue::TakeEnd;

/// What a port leaves beside its driver: its options, its history, where it put what it sent and marked, and the taking end of its lane.
#[derive(Drop)]
pub struct EndedPort {
    pub config: Config,
    pub journal: Journal,
    pub outlets: PortOutlets,
    pub lane: TakeEnd<Parcel>,
}

/// Ends a port, and puts its driver back.
fn end_port<D: Driver>(host: &mut Hosted<D>, body: Body<D>) -> EndedPort
    ensures returned { HasReturned D.kind D.stage D.faults D.own D.program body host.old host.new }
    ensures left { HasLeft body result }
{
    let mut body = body;
    body.end();
    let BodyEnd { port, lane } = body.into_end();
    let PortEnd {
        driver,
        config,
        journal,
        outlets,
    } = port;
    host.driver = Some(driver);
    EndedPort {
        config,
        journal,
        outlets,
        lane,
    }
}

/// The ended ports with one more, unless memory was wanting.
fn with_port(
    ports: Result<Vec<EndedPort>, NoMemory>,
    port: EndedPort,
) -> Result<Vec<EndedPort>, NoMemory>
    ensures { IfOk result (λ more. IsOkAnd ports (λ ended. more.items ≡ ended.items ++ port ∷ [])) }
{
    let mut ports = ports?;
    ports.push(port)?;
    Ok(ports)
}

/// Ends each port, the first one first, and puts its driver back at its place, where the port's number stands. A driver whose port didn't stop it is stopped. Answers
/// what the ports leave, in their order. Where no memory is found, each driver is back all the same, and what the ports leave is dropped.
pub fn take_back<D: Driver>(
    alloc: Global,
    hosts: &mut Vec<Hosted<D>>,
    places: &[usize],
    bodies: Vec<Body<D>>,
) -> Result<Vec<EndedPort>, NoMemory>
    requires len { length places.now ≡ length bodies.items }
    requires within { All (λ at. at < length hosts.old.items) places.now }
    requires different { AllPairs (λ at later. at ≢ later) places.now }
    ensures returned { AreReturned D.kind D.stage D.faults D.own D.program bodies.items places.now hosts.old.items hosts.new.items }
    ensures left { IfOk result (λ ports. LeaveAll bodies.items ports.items) }
{
    let mut ports = Ok(Vec::new(alloc));
    for (place, body) in places.iter().zip(bodies) {
        let port = end_port(&mut hosts[*place], body);
        ports = with_port(ports, port);
    }
    ports
}
