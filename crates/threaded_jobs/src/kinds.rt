use outside::PollSet;
use port_sched::{PortBody, ThreadJob};
use process_job::ProcessJob;
use run_jobs::{FinishJob, PollerJob, WorkerJob};
use std::sync::Wait;

/// A job of a run beside the schedulers.
#[derive(Drop)]
pub enum RunJob<B: PortBody, S: PollSet> {
    Process(ProcessJob<B>),
    Worker(WorkerJob<B>),
    Poller(PollerJob<B, S>),
    Finish(FinishJob),
}

impl<B: PortBody, S: PollSet> ThreadJob for RunJob<B, S> {
    ghost use Rattle.threaded_jobs.specs.Kinds.{CanGo, HasGone};

    ghost can_run = { CanGo };

    ghost went = { HasGone S.faults S.answered };

    fn run<R: Wait>(&mut self, rt: &R) {
        match self {
            RunJob::Process(job) => job.run(rt),
            RunJob::Worker(job) => job.run(rt),
            RunJob::Poller(job) => job.run(rt),
            RunJob::Finish(job) => job.run(rt),
        }
    }
}
