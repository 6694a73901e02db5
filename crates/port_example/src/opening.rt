//! A process and a port, which share the port's lane and words and the mailbox of the process.
ghost use Rattle.std.specs.Prelude.{◌≡◌, length, IfOk};
ghost use Rattle.run_lanes.specs.Opened.{CanBegin, CanOpen};

use anyhow::{Result, bail, ensure};
use port_body::{Body, BodyParts, Driver, PortEnds, PortOutlets, PortParts, PortPlace};
use port_config::{Config, DEFAULT_HIGH, DEFAULT_LOW};
use port_driver::Life;
use port_words::busy::QueueLimits;
use process_end::{Proc, ProcParts};
use run_lanes::{LaneSize, PortLanes, ProcessLanes, open_lanes};
use std::alloc::Global;
use std::sync::Wait;

/// Makes the lanes and words of one process, one port and one worker, and answers what the first two have of them. There must be a worker; it gets no job here.
pub(crate) fn make_lanes(alloc: Global) -> Result<(ProcessLanes, PortLanes)>
    ensures process { IfOk result (λ made. CanBegin 1 0 made.0) }
    ensures port { IfOk result (λ made. CanOpen (record { processes = 1; workers = 1; rows = 0 }) made.1) }
{
    let size = LaneSize {
        processes: 1,
        workers: 1,
        rows: 0,
    };
    let limits = QueueLimits {
        on: true,
        low: DEFAULT_LOW,
        high: DEFAULT_HIGH,
    };
    let mut made = open_lanes(alloc, size, &[limits])?;
    match (made.processes.pop(), made.ports.pop()) {
        (Some(process), Some(port)) => Ok((process, port)),
        _ => bail!("no lanes were made"),
    }
}

/// The process 0, which has made no call. The driver of its one port isn't soft: it takes no forced commands while the port is busy.
pub(crate) fn begin_process(alloc: Global, lanes: ProcessLanes) -> Result<Proc>
    requires { CanBegin 1 0 lanes }
    ensures { IfOk result (λ process. length process.lanes ≡ 1) }
{
    ensure!(lanes.lanes.len() == 1, "there is another number of ports");
    let parts = ProcParts {
        number: 0,
        mailbox: lanes.mailbox,
        lanes: lanes.lanes,
        seats: lanes.seats,
        soft: vec![in alloc; false; 1]?,
    };
    Ok(Proc::new(alloc, parts))
}

/// Opens the port 0, which the process 0 owns, with plain options, and starts its driver: any driver that is fresh.
pub(crate) fn open_port<D: Driver, R: Wait>(
    rt: &R,
    alloc: Global,
    driver: D,
    lanes: PortLanes,
) -> Result<Body<D>>
    requires fresh { D.stage driver ≡ Life.Fresh }
    requires unused { CanOpen (record { processes = 1; workers = 1; rows = 0 }) lanes }
{
    let place = PortPlace {
        number: 0,
        owner: 0,
        processes: 1,
        rows: 0,
    };
    let outlets = PortOutlets {
        mailboxes: lanes.mailboxes,
        seat: lanes.seat,
        ends: PortEnds {
            asks: lanes.asks,
            pool: lanes.pool,
        },
    };
    let port = PortParts {
        driver,
        config: Config::plain(alloc)?,
        outlets,
    };
    let parts = BodyParts {
        port,
        lane: lanes.lane,
        workers: 1,
    };
    match Body::open(rt, alloc, place, parts) {
        Ok(body) => Ok(body),
        Err((_, refusal)) => bail!("the port was not opened: {refusal:?}"),
    }
}
