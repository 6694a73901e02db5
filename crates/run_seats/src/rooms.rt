// What a run needs of memory: it is taken before the run, so that nothing after it can fail.
ghost use Rattle.std.specs.Prelude.{◌+◌, ◌≤◌, IfOk};
ghost use Rattle.run_seats.specs.Homing.{IsHomeRoom};
ghost use Rattle.run_seats.specs.Seated.{HasSeatRoom, IsEndRoom, IsJobRoom};

use crate::homing::HomeRoom;
use no_memory::NoMemory;
use outside::PollSet;
use port_sched::PortBody;
use std::alloc::Global;
use threaded_jobs::{JobRoom, RunJob, SeatRoom};

/// Empty lists with room for the end of a run.
#[derive(Drop)]
pub struct EndRoom<B: PortBody, S: PollSet> {
    /// For all jobs in one list, as `RunJobs::into_list` takes it.
    pub list: Vec<RunJob<B, S>>,
    /// For the jobs once they are taken apart.
    pub jobs: JobRoom<B>,
    /// For the seats of the jobs, and those of the job that wakes nobody behind them.
    pub seats: SeatRoom<B>,
    /// For the bodies.
    pub homes: HomeRoom<B>,
}

/// Lists for the jobs of so many processes and workers.
pub(crate) fn job_room<B: PortBody>(
    alloc: Global,
    processes: usize,
    workers: usize,
) -> Result<JobRoom<B>, NoMemory>
    ensures { IfOk result (IsJobRoom processes workers) }
{
    Ok(JobRoom {
        processes: Vec::with_capacity(alloc, processes)?,
        workers: Vec::with_capacity(alloc, workers)?,
    })
}

// Lists for the seats of all jobs, and for what is left of these.
fn seat_room<B: PortBody>(
    alloc: Global,
    processes: usize,
    workers: usize,
) -> Result<SeatRoom<B>, NoMemory>
    requires { processes + workers ≤ 1024 }
    ensures { IfOk result (HasSeatRoom processes workers) }
{
    Ok(SeatRoom {
        seats: Vec::with_capacity(alloc, processes + workers + 2)?,
        processes: Vec::with_capacity(alloc, processes)?,
        workers: Vec::with_capacity(alloc, workers)?,
    })
}

// Lists for the bodies of so many ports.
fn home_room<B: PortBody>(alloc: Global, ports: usize) -> Result<HomeRoom<B>, NoMemory>
    ensures { IfOk result (IsHomeRoom ports) }
{
    Ok(HomeRoom {
        lodgers: Vec::with_capacity(alloc, ports)?,
        bodies: Vec::with_capacity(alloc, ports)?,
    })
}

/// Lists for the end of a run of so many ports, processes and workers.
pub(crate) fn end_room<B: PortBody, S: PollSet + Drop>(
    alloc: Global,
    ports: usize,
    processes: usize,
    workers: usize,
) -> Result<EndRoom<B, S>, NoMemory>
    requires { processes + workers ≤ 1024 }
    ensures { IfOk result (IsEndRoom ports processes workers) }
{
    let list = Vec::with_capacity(alloc, processes + workers + 2)?;
    let jobs = job_room(alloc, processes, workers)?;
    let seats = seat_room(alloc, processes, workers)?;
    let homes = home_room(alloc, ports)?;
    Ok(EndRoom {
        list,
        jobs,
        seats,
        homes,
    })
}
