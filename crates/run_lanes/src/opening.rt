// The lanes and words of a run.
ghost use Rattle.std.specs.Prelude.{◌≡◌, ◌+◌, ◌-◌, ◌<◌, ◌≤◌, ℕ, ◌∷◌, [], ◌++◌, length, All, IfOk, slice_index_or};
ghost use Rattle.port_words.specs.declared.busy.view.QueueLimits.{QueueLimits as Limits};
ghost use Rattle.port_words.specs.busy.Known.{InRange};
ghost use Rattle.run_lanes.specs.declared.parts.PortLanes.{PortLanes as Port};
ghost use Rattle.run_lanes.specs.declared.parts.ProcessLanes.{ProcessLanes as Process};
ghost use Rattle.run_lanes.specs.declared.parts.WorkerLanes.{WorkerLanes as Worker};
ghost use Rattle.run_lanes.specs.Opened.{HasCounts, HasPort, HasProcess, HasWorker, HasPoller, HasFinish, CanOpen, CanBegin};

use crate::dealing::{deal_ports, deal_processes, deal_workers};
use crate::keyed::port_lanes;
use crate::making::{lane_ends, lanes};
use crate::parts::{FinishEnds, PollerLanes, RunLanes};
use crate::size::LaneSize;
use crate::words::words;
use no_memory::NoMemory;
use port_words::busy::QueueLimits;
use std::alloc::Global;
use std::snapshot::Snapshot;

// The first of them, the one behind these, and the others.
fn split_around<X: Drop>(mut all: Vec<X>, place: usize) -> Result<(Vec<X>, X, Vec<X>), NoMemory>
    requires { place < length all.items }
    ensures parts { IfOk result (λ r. all.items ≡ (r.0.items ++ r.1 ∷ []) ++ r.2.items) }
    ensures first { IfOk result (λ r. length r.0.items ≡ place) }
{
    let rest = all.split_off(place + 1)?;
    let Some(one) = all.pop() else {
        unreachable!();
    };
    Ok((all, one, rest))
}

// The last of them, and the others.
fn split_last<X: Drop>(mut all: Vec<X>) -> (Vec<X>, X)
    requires { 0 < length all.items }
    ensures { all.items ≡ result.0.items ++ result.1 ∷ [] }
{
    let Some(last) = all.pop() else {
        unreachable!();
    };
    (all, last)
}

/// Makes the lanes and words of a run with so many processes and workers, and ports whose message queues have these limits, and deals them. A script with ports
/// has at least one process. Where no memory is found, all that was made is dropped.
///
/// In the lane of a port, the ends of the processes come first, then the poller's, then those of the workers. In a mailbox, in the poller's lane and in a worker's,
/// the end of each port has the port's number, and in the last two of these one end more comes last.
pub fn open_lanes(
    alloc: Global,
    size: LaneSize,
    ports: &[QueueLimits],
) -> Result<RunLanes, NoMemory>
    requires ports { length ports.now ≤ 32 }
    requires processes { size.processes ≤ 32 }
    requires owner { 0 < length ports.now → 0 < size.processes }
    requires workers { (0 < size.workers) × (size.workers ≤ 8) }
    requires limits { All (λ l. InRange l.on l.low l.high) ports.now }
    ensures counts { IfOk result (λ run. HasCounts size (length ports.now) run) }
    ensures ports { IfOk result (λ run. (port : ℕ) (l : Limits) (d : Port) → port < length ports.now → HasPort size (slice_index_or ports.now port l) run port (slice_index_or run.ports.items port d)) }
    ensures processes { IfOk result (λ run. (process : ℕ) (d : Process) → process < size.processes → HasProcess size run process (slice_index_or run.processes.items process d)) }
    ensures workers { IfOk result (λ run. (worker : ℕ) (d : Worker) → worker < size.workers → HasWorker size run worker (slice_index_or run.workers.items worker d)) }
    ensures poller { IfOk result (λ run. HasPoller size run) }
    ensures finish { IfOk result (λ run. HasFinish size run) }
    ensures can_open { IfOk result (λ run. (port : ℕ) (d : Port) → port < length ports.now → CanOpen size (slice_index_or run.ports.items port d)) }
    ensures can_begin { IfOk result (λ run. (process : ℕ) (d : Process) → process < size.processes → CanBegin (length ports.now) process (slice_index_or run.processes.items process d)) }
{
    let many = ports.len() as u32;
    let (seats, send_seats) = words(alloc, ports, size.processes)?;
    let (port_takers, port_ends) = port_lanes(alloc, size, seats.as_slice())?;
    let (process_ends, poller_ends, worker_ends) = split_around(
        port_ends,
        size.processes as usize,
    )?;
    let (mailboxes, mail) = lanes(alloc, &(), size.processes, many)?;
    let (jobs, job_ends) = lanes(alloc, &(), size.workers, many + 1)?;
    let (asks, ask_ends) = lane_ends(alloc, Snapshot::of(&()), many + 1)?;
    let (pools, finish_workers) = split_last(job_ends);
    let (ask_ends, finish_poller) = split_last(ask_ends);
    let ports = deal_ports(alloc, port_takers, mail, seats, ask_ends, pools)?;
    let processes = deal_processes(alloc, mailboxes, process_ends, send_seats)?;
    let workers = deal_workers(alloc, jobs, worker_ends)?;
    Ok(RunLanes {
        ports,
        processes,
        workers,
        poller: PollerLanes {
            asks,
            lanes: poller_ends,
        },
        finish: FinishEnds {
            poller: finish_poller,
            workers: finish_workers,
        },
    })
}
