//! The lanes of a port, of its processes, of the poller and of the workers, dealt to them.
ghost use Rattle.std.specs.Prelude.{IfOk};
ghost use Rattle.port_words.specs.busy.Known.{InRange};
ghost use Rattle.run_lanes.specs.Opened.{CanOpen};
ghost use Rattle.body_tests.specs.Beside.{CanServeEach, AreOfWorkers, IsDealtToOne, IsOfPoller, IsOfWorker, LastCanOpen, LastIs};

use crate::others::{HandPoller, HandWorker, OthersBeside};
use crate::peers::{HandProcess, begun};
use outside::MemPoll;
use port_words::busy::QueueLimits;
use run_lanes::{
    LaneSize, PollerLanes, PortLanes, ProcessLanes, RunLanes, WorkerLanes, open_lanes,
};
use std::alloc::Global;
use std::test::Fail;

/// The processes and the workers.
const SIZE: LaneSize = LaneSize {
    processes: 3,
    workers: 2,
    rows: 0,
};

/// The lanes of one port with these limits.
fn opened(alloc: Global, limits: QueueLimits) -> Result<RunLanes, Fail>
    requires { InRange limits.on limits.low limits.high }
    ensures { IfOk result IsDealtToOne }
{
    let run = open_lanes(alloc, SIZE, &[limits])?;
    Ok(run)
}

/// The one port.
fn port(mut ports: Vec<PortLanes>) -> Result<PortLanes, Fail>
    requires { LastCanOpen ports.items }
    ensures { IfOk result (λ port. CanOpen (record { processes = 3; workers = 2; rows = 0 }) port) }
{
    match ports.pop() {
        Some(port) => Ok(port),
        None => Err("no port".into()),
    }
}

/// The processes, in the order of their numbers.
fn peers(alloc: Global, mut all: Vec<ProcessLanes>, soft: bool) -> Result<Vec<HandProcess>, Fail>
    requires { CanServeEach all.items }
{
    let mut peers = Vec::new(alloc);
    'processes: while let Some(lanes) = all.pop() {
        let peer = begun(alloc, all.len() as u32, lanes, soft)?;
        peers.push(peer)?;
    }
    peers.reverse();
    Ok(peers)
}

/// A worker with its one lane.
fn worker(lanes: WorkerLanes) -> Result<HandWorker, Fail>
    requires { LastIs IsOfWorker lanes.lanes.items }
{
    let WorkerLanes { jobs, mut lanes } = lanes;
    match lanes.pop() {
        Some(lane) => Ok(HandWorker::new(jobs, lane)),
        None => Err("no lane".into()),
    }
}

/// The workers, in the order of their numbers.
fn workers(alloc: Global, mut all: Vec<WorkerLanes>) -> Result<Vec<HandWorker>, Fail>
    requires { AreOfWorkers all.items }
{
    let mut workers = Vec::new(alloc);
    'workers: while let Some(lanes) = all.pop() {
        workers.push(worker(lanes)?)?;
    }
    workers.reverse();
    Ok(workers)
}

/// A poll set of whose waits so many find the write event of the program alone.
fn poll_set(alloc: Global, writes: u32) -> Result<MemPoll, Fail> {
    let mut poll = MemPoll::new(alloc);
    for _ in 0..writes {
        poll.add_round(&[1])?;
    }
    Ok(poll)
}

/// The poller, of whose waits so many find the write event of the program alone.
fn poller(alloc: Global, lanes: PollerLanes, writes: u32) -> Result<HandPoller, Fail>
    requires { LastIs IsOfPoller lanes.lanes.items }
{
    let poll = poll_set(alloc, writes)?;
    let PollerLanes { asks, mut lanes } = lanes;
    match lanes.pop() {
        Some(lane) => Ok(HandPoller::new(alloc, poll, asks, lane)),
        None => Err("no lane".into()),
    }
}

/// Those beside the port, of whom nothing was seen.
fn others(
    alloc: Global,
    processes: Vec<ProcessLanes>,
    polling: PollerLanes,
    working: Vec<WorkerLanes>,
    soft: bool,
    writes: u32,
) -> Result<OthersBeside, Fail>
    requires processes { CanServeEach processes.items }
    requires poller { LastIs IsOfPoller polling.lanes.items }
    requires workers { AreOfWorkers working.items }
{
    let peers = peers(alloc, processes, soft)?;
    let poller = poller(alloc, polling, writes)?;
    let workers = workers(alloc, working)?;
    Ok(OthersBeside {
        peers,
        poller,
        workers,
        text: String::new(alloc),
        data: String::new(alloc),
        receipts: String::new(alloc),
    })
}

/// The lanes of the port, and those beside it.
pub(crate) fn deal(
    alloc: Global,
    limits: QueueLimits,
    soft: bool,
    writes: u32,
) -> Result<(PortLanes, OthersBeside), Fail>
    requires { InRange limits.on limits.low limits.high }
    ensures { IfOk result (λ dealt. CanOpen (record { processes = 3; workers = 2; rows = 0 }) dealt.0) }
{
    let RunLanes {
        ports,
        processes,
        workers,
        poller,
        ..
    } = opened(alloc, limits)?;
    let port = port(ports)?;
    let others = others(alloc, processes, poller, workers, soft, writes)?;
    Ok((port, others))
}
