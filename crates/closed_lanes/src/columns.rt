// The ends of the ports' lanes, by the numbers of their senders.
ghost use Rattle.std.specs.Prelude.{◌≡◌, map, IfOk};
ghost use Rattle.closed_lanes.specs.Parts.{all_columns};

use async_jobs::WorkItem;
use no_memory::NoMemory;
use port_lanes::Parcel;
use run_opening::WorkerLeft;
use std::alloc::Global;
use task_queue::{SendEnd, TakeEnd};

/// What each sender gives back of the ports' lanes, the processes first, then the poller, then the workers; and the lanes of the workers.
pub(crate) fn columns_of(
    alloc: Global,
    processes: Vec<Vec<SendEnd<Parcel>>>,
    poller: Vec<SendEnd<Parcel>>,
    workers: Vec<WorkerLeft>,
) -> Result<(Vec<Vec<SendEnd<Parcel>>>, Vec<TakeEnd<WorkItem>>), NoMemory>
    ensures columns { IfOk result (λ r. map (λ c. c.items) r.0.items ≡ all_columns (map (λ c. c.items) processes.items) poller.items (map (λ w. w.lanes.items) workers.items)) }
    ensures jobs { IfOk result (λ r. r.1.items ≡ map (λ w. w.jobs) workers.items) }
{
    let mut columns = processes;
    columns.push(poller)?;
    let mut all_jobs = Vec::new(alloc);
    for worker in workers {
        let WorkerLeft { jobs, lanes, .. } = worker;
        columns.push(lanes)?;
        all_jobs.push(jobs)?;
    }
    Ok((columns, all_jobs))
}
