//! How the ports of a run are opened.
ghost use Rattle.std.specs.Prelude.{◌≡◌, ◌<◌, ℕ, length, map, All, IfOk, IfErr};
ghost use Rattle.driver_hosts.specs.Back.{AllCameBack};
ghost use Rattle.driver_hosts.specs.Hosts.{IsUnused};
ghost use Rattle.run_opening.specs.Opened.{AreDeclared, HaveLanes, HaveOpened, limits_of, soft_at, soft_of};
ghost use Rattle.run_opening.specs.Faults.{AreNotOpened, IsFaultOf, IsRefusalOf};

use crate::rooms::{all_limits, rooms};
use driver_hosts::{
    Body, Driver, Hosted, Lacking, PortRoom, StartRefusal, Unopened, find_drivers, open_ports,
};
use no_memory::NoMemory;
use run_lanes::{
    FinishEnds, LaneSize, PollerLanes, ProcessLanes, RunLanes, WorkerLanes, open_lanes,
};
use script_plan::PortDecl;
use std::alloc::Global;
use std::sync::Wait;

/// What the jobs of a run have of its lanes and words: the processes, the workers and the poller, and the one who tells the last two of the end. Processes and workers
/// stand by their numbers, from 0.
#[derive(Drop)]
pub struct JobLanes {
    pub processes: Vec<ProcessLanes>,
    pub workers: Vec<WorkerLanes>,
    pub poller: PollerLanes,
    pub finish: FinishEnds,
}

/// The ports of a run, opened, the places of their drivers among those that were handed in, and the lanes of the jobs. Ports stand by their numbers, from 0.
#[derive(Drop)]
pub struct OpenPorts<D: Driver> {
    pub bodies: Vec<Body<D>>,
    pub places: Vec<usize>,
    /// Whether the port's driver takes forced commands while the port is busy.
    pub soft: Vec<bool>,
    pub lanes: JobLanes,
}

/// Why the ports of a run weren't opened. Lines count from 1.
#[derive(Clone, Copy, Debug, PartialEq, Eq)]
pub enum OpenFault {
    /// Earlier ports got all drivers that have the name that the port on this line wants; `handed` is how many these are.
    NoDriver { line: u32, handed: u64 },
    /// The driver of the port on this line refused to start. It isn't for want of memory.
    StartRefused { line: u32, refusal: StartRefusal },
    NoMemory,
}

impl From<NoMemory> for OpenFault {
    ghost use Rattle.std.specs.Prelude.{◌≡◌};
    ghost use Rattle.run_opening.specs.declared.opening.OpenFault.TheVariants as fault;

    ghost from_gives = { λ _ f. f ≡ fault.NoMemory };

    fn from(_: NoMemory) -> OpenFault {
        OpenFault::NoMemory
    }
}

// The fault where a port doesn't get its driver.
fn lacking_fault(ports: &[PortDecl], lacking: Lacking) -> OpenFault
    requires { (at handed : ℕ) → lacking ≡ Lacking.NoDriver at handed → at < length ports.now }
    ensures { IsFaultOf ports.now lacking result }
{
    match lacking {
        Lacking::NoDriver { at, handed } => OpenFault::NoDriver {
            line: ports[at as usize].line,
            handed,
        },
        Lacking::NoMemory => OpenFault::NoMemory,
    }
}

// The fault where a driver doesn't start.
fn unopened_fault(unopened: Unopened) -> OpenFault
    ensures { IsRefusalOf unopened result }
{
    match unopened {
        Unopened::NoMemory => OpenFault::NoMemory,
        Unopened::Refused {
            refusal: StartRefusal::NoMemory,
            ..
        } => OpenFault::NoMemory,
        Unopened::Refused { line, refusal, .. } => OpenFault::StartRefused { line, refusal },
    }
}

// Whether a driver that is handed in takes forced commands while its port is busy.
fn is_soft<D: Driver>(host: &Hosted<D>) -> bool
    ensures { result ≡ soft_of D.kind host.now }
{
    match &host.driver {
        Some(driver) => driver.soft_busy(),
        None => false,
    }
}

// So of each port, in the order of the ports.
fn soft_ports<D: Driver>(
    alloc: Global,
    hosts: &[Hosted<D>],
    places: &[usize],
) -> Result<Vec<bool>, NoMemory>
    requires { All (λ at. at < length hosts.now) places.now }
    ensures { IfOk result (λ soft. soft.items ≡ soft_at D.kind hosts.now places.now) }
{
    let mut soft = Vec::new(alloc);
    for place in places {
        soft.push(is_soft(&hosts[*place]))?;
    }
    Ok(soft)
}

// The lanes and words of a run with these ports.
fn lanes_of(
    alloc: Global,
    ports: &[PortDecl],
    size: LaneSize,
) -> Result<(Vec<PortRoom>, JobLanes), NoMemory>
    requires { AreDeclared size ports.now }
    ensures { IfOk result (λ r. HaveLanes size (map (λ p. limits_of p.config) ports.now) r.0.items r.1) }
{
    let limits = all_limits(alloc, ports)?;
    let RunLanes {
        ports,
        processes,
        workers,
        poller,
        finish,
    } = open_lanes(alloc, size, limits.as_slice())?;
    let lanes = JobLanes {
        processes,
        workers,
        poller,
        finish,
    };
    Ok((rooms(alloc, size, ports)?, lanes))
}

/// Opens the ports of a run, in their order, each with the first driver of its name that no earlier port got, and makes the lanes and words of the run.
///
/// Where a port gets no driver, or a driver refuses to start, or memory is wanting, no port is open: each driver that served one is stopped, and all are back at
/// their places.
pub fn open_ports_of<D: Driver, R: Wait>(
    rt: &R,
    alloc: Global,
    hosts: &mut Vec<Hosted<D>>,
    ports: Vec<PortDecl>,
    size: LaneSize,
) -> Result<OpenPorts<D>, OpenFault>
    requires ports { AreDeclared size ports.items }
    requires unused { All (IsUnused D.stage) hosts.old.items }
    ensures opened { IfOk result (λ o. HaveOpened D.kind D.faults size ports.items hosts.old.items hosts.new.items o) }
    ensures fault { IfErr result (λ f. AreNotOpened D.kind D.stage D.faults ports.items hosts.old.items hosts.new.items f) }
    ensures back { IfErr result (λ f. AllCameBack D.kind D.stage D.faults hosts.old.items hosts.new.items) }
{
    let places = match find_drivers(alloc, hosts.as_slice(), ports.as_slice()) {
        Ok(places) => places,
        Err(lacking) => return Err(lacking_fault(ports.as_slice(), lacking)),
    };
    let soft = soft_ports(alloc, hosts.as_slice(), places.as_slice())?;
    let (rooms, lanes) = lanes_of(alloc, ports.as_slice(), size)?;
    match open_ports(rt, alloc, hosts, places.as_slice(), ports, rooms) {
        Ok(bodies) => Ok(OpenPorts {
            bodies,
            places,
            soft,
            lanes,
        }),
        Err(unopened) => Err(unopened_fault(unopened)),
    }
}
