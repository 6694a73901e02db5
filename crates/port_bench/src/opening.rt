//! A port and its processes, by hand on one thread.
ghost use Rattle.std.specs.Prelude.{◌≡◌, ◌-◌, ◌<◌, ◌≤◌, ℕ, length, slice_index_or, IfOk};
ghost use Rattle.port_body.specs.Openings.{FitsPlace};
ghost use Rattle.recorded_port.specs.Openings.{AreUnused};
ghost use Rattle.run_lanes.specs.declared.parts.PortLanes.{PortLanes as Port};
ghost use Rattle.run_lanes.specs.declared.parts.ProcessLanes.{ProcessLanes as Process};
ghost use Rattle.run_lanes.specs.Opened.{CanBegin, CanOpen};

use crate::bodies::timed;
use crate::crew::Crew;
use crate::peers::Peer;
use crate::work::BodyWork;
use anyhow::{Result, bail};
use port_body::{Body, BodyParts, Driver};
use port_config::{Config, DEFAULT_HIGH, DEFAULT_LOW};
use port_driver::Life;
use port_words::busy::QueueLimits;
use recorded_port::{PortOutlets, PortParts};
use run_lanes::{LaneSize, PortLanes, ProcessLanes, RunLanes, open_lanes};
use served_port::{PortEnds, PortPlace};
use std::alloc::Global;
use std::collections::VecDeque;
use std::rt::Clock;
use std::sync::Wait;
use std::time::Duration;

/// The senders and the owner, and a worker that gets no job.
const SIZE: LaneSize = LaneSize {
    processes: 9,
    workers: 1,
    rows: 0,
};

/// The options of a port whose message queue has limits or none.
fn config(alloc: Global, limited: bool) -> Result<Config> {
    let mut config = Config::plain(alloc)?;
    config.msgq_on = limited;
    Ok(config)
}

/// What a port with this driver and these options is opened with.
fn body_parts<D: Driver>(driver: D, config: Config, lanes: PortLanes) -> BodyParts<D>
    requires { CanOpen (record { processes = 9; workers = 1; rows = 0 }) lanes }
    ensures driver { result.port.driver ≡ driver }
    ensures unused { AreUnused result.port.outlets }
    ensures fits { FitsPlace (record { number = 0; owner = 0; processes = 9; rows = 0 }) result.workers result.port.outlets result.lane }
{
    let PortLanes {
        lane,
        mailboxes,
        seat,
        asks,
        pool,
    } = lanes;
    let outlets = PortOutlets {
        mailboxes,
        seat,
        ends: PortEnds { asks, pool },
    };
    BodyParts {
        port: PortParts {
            driver,
            config,
            outlets,
        },
        lane,
        workers: 1,
    }
}

/// The processes, in the order of their numbers.
fn peers(alloc: Global, mut all: Vec<ProcessLanes>) -> Result<VecDeque<Peer>>
    requires few { length all.items ≤ 32 }
    requires begin { (process : ℕ) (d : Process) → process < length all.items → CanBegin 1 process (slice_index_or all.items process d) }
{
    let mut peers = VecDeque::new(alloc);
    'processes: while let Some(lanes) = all.pop() {
        let peer = Peer::new(alloc, all.len() as u32, lanes)?;
        peers.push_front(peer)?;
    }
    Ok(peers)
}

/// The lanes of a run with one port whose message queue has limits or none.
fn run_lanes(alloc: Global, limited: bool) -> Result<RunLanes>
    ensures ports { IfOk result (λ run. (d : Port) → CanOpen (record { processes = 9; workers = 1; rows = 0 }) (slice_index_or run.ports.items (length run.ports.items - 1) d)) }
    ensures few { IfOk result (λ run. length run.processes.items ≤ 32) }
    ensures begin { IfOk result (λ run. (process : ℕ) (d : Process) → process < length run.processes.items → CanBegin 1 process (slice_index_or run.processes.items process d)) }
{
    let limits = QueueLimits {
        on: limited,
        low: DEFAULT_LOW,
        high: DEFAULT_HIGH,
    };
    Ok(open_lanes(alloc, SIZE, &[limits])?)
}

/// The one port.
fn port_lanes(mut ports: Vec<PortLanes>) -> Result<PortLanes>
    requires { (d : Port) → CanOpen (record { processes = 9; workers = 1; rows = 0 }) (slice_index_or ports.items (length ports.items - 1) d) }
    ensures { IfOk result (λ lanes. CanOpen (record { processes = 9; workers = 1; rows = 0 }) lanes) }
{
    match ports.pop() {
        Some(lanes) => Ok(lanes),
        None => bail!("no port"),
    }
}

/// The lanes of a port whose message queue has limits or none, and its processes, of which the first is the owner.
fn open_port(alloc: Global, limited: bool) -> Result<(PortLanes, Crew)>
    ensures { IfOk result (λ opened. CanOpen (record { processes = 9; workers = 1; rows = 0 }) opened.0) }
{
    let RunLanes {
        ports,
        processes,
        ..
    } = run_lanes(alloc, limited)?;
    let lanes = port_lanes(ports)?;
    let crew = Crew::new(alloc, peers(alloc, processes)?)?;
    Ok((lanes, crew))
}

/// The open port of these parts.
fn opened<D: Driver, R: Wait>(rt: &R, alloc: Global, parts: BodyParts<D>) -> Result<Body<D>>
    requires fresh { D.stage parts.port.driver ≡ Life.Fresh }
    requires unused { AreUnused parts.port.outlets }
    requires fits { FitsPlace (record { number = 0; owner = 0; processes = 9; rows = 0 }) parts.workers parts.port.outlets parts.lane }
{
    let place = PortPlace {
        number: 0,
        owner: 0,
        processes: 9,
        rows: 0,
    };
    match Body::open(rt, alloc, place, parts) {
        Ok(body) => Ok(body),
        Err(_) => bail!("the port wasn't opened"),
    }
}

/// Does a work on the open port of these parts.
fn on_body<D: Driver, R: Clock + Wait>(
    rt: &R,
    alloc: Global,
    parts: BodyParts<D>,
    crew: &mut Crew,
    work: BodyWork,
    commands: u32,
) -> Result<Duration>
    requires fresh { D.stage parts.port.driver ≡ Life.Fresh }
    requires unused { AreUnused parts.port.outlets }
    requires fits { FitsPlace (record { number = 0; owner = 0; processes = 9; rows = 0 }) parts.workers parts.port.outlets parts.lane }
{
    let mut body = opened(rt, alloc, parts)?;
    timed(rt, &mut body, crew, work, commands)
}

/// Opens a port with this driver, whose message queue has limits or none, and does a work on it.
pub(crate) fn work_on<D: Driver, R: Clock + Wait>(
    rt: &R,
    alloc: Global,
    driver: D,
    limited: bool,
    work: BodyWork,
    commands: u32,
) -> Result<Duration>
    requires { D.stage driver ≡ Life.Fresh }
{
    let config = config(alloc, limited)?;
    let (lanes, mut crew) = open_port(alloc, limited)?;
    let parts = body_parts(driver, config, lanes);
    on_body(rt, alloc, parts, &mut crew, work, commands)
}
