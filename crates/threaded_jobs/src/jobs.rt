ghost use Rattle.std.specs.Prelude.{◌≡◌, ◌+◌, ◌≤◌, All, [], length, vec_capacity};
ghost use Rattle.port_sched.specs.Jobs.{WentEach};
ghost use Rattle.threaded_jobs.specs.Kinds.{CanGo, HasGone};
ghost use Rattle.threaded_jobs.specs.Jobs.{listed, CanAllGo, HaveRun};

use crate::adding::add;
use crate::kinds::RunJob;
use outside::PollSet;
use port_sched::PortBody;
use process_job::ProcessJob;
use run_jobs::{FinishJob, PollerJob, WorkerJob};

/// The jobs of a run: the processes by their numbers, the workers by theirs, the poller, and the one that tells of the end.
#[derive(Drop)]
pub struct RunJobs<B: PortBody, S: PollSet> {
    pub processes: Vec<ProcessJob<B>>,
    pub workers: Vec<WorkerJob<B>>,
    pub poller: PollerJob<B, S>,
    pub finish: FinishJob,
}

/// Empty lists with room for the processes and the workers of a run.
#[derive(Drop)]
pub struct JobRoom<B: PortBody> {
    pub processes: Vec<ProcessJob<B>>,
    pub workers: Vec<WorkerJob<B>>,
}

impl<B: PortBody, S: PollSet + Drop> RunJobs<B, S> {
    /// The jobs in one list. It takes no memory.
    pub fn into_list(self, room: Vec<RunJob<B, S>>) -> Vec<RunJob<B, S>>
        requires empty { room.items ≡ [] }
        requires room { length self.processes.items + length self.workers.items + 2 ≤ vec_capacity room }
        ensures listed { result.items ≡ listed self }
        ensures can { CanAllGo self → All CanGo result.items }
    {
        let mut all = room;
        let RunJobs {
            processes,
            workers,
            poller,
            finish,
        } = self;
        'processes: for process in processes {
            add(&mut all, RunJob::Process(process));
        }
        'workers: for worker in workers {
            add(&mut all, RunJob::Worker(worker));
        }
        add(&mut all, RunJob::Poller(poller));
        add(&mut all, RunJob::Finish(finish));
        all
    }
}

/// The jobs of a run that is over, each with its kind, from the list in which they ran. It takes no memory.
pub fn take_apart<B: PortBody, S: PollSet + Drop>(
    jobs: Vec<RunJob<B, S>>,
    room: JobRoom<B>,
) -> RunJobs<B, S>
    requires empty { (room.processes.items ≡ []) × (room.workers.items ≡ []) }
    requires went { (old : RunJobs _ _ _) × WentEach (HasGone S.faults S.answered) (listed old) jobs.items
        × (length old.processes.items ≤ vec_capacity room.processes) × (length old.workers.items ≤ vec_capacity room.workers) }
    ensures listed { listed result ≡ jobs.items }
    ensures went { (old : RunJobs _ _ _) → WentEach (HasGone S.faults S.answered) (listed old) jobs.items → HaveRun S.faults S.answered old result }
{
    let JobRoom {
        mut processes,
        mut workers,
    } = room;
    let mut poller = None;
    let mut finish = None;
    'jobs: for job in jobs {
        match job {
            RunJob::Process(process) => add(&mut processes, process),
            RunJob::Worker(worker) => add(&mut workers, worker),
            RunJob::Poller(job) => poller = Some(job),
            RunJob::Finish(job) => finish = Some(job),
        }
    }
    let Some(poller) = poller else {
        unreachable!();
    };
    let Some(finish) = finish else {
        unreachable!();
    };
    RunJobs {
        processes,
        workers,
        poller,
        finish,
    }
}
