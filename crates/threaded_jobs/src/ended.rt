//! Whether a run ended as it should, or somebody stopped it.
ghost use Rattle.std.specs.Prelude.{◌≡◌, ◌≤◌, [], List, length, map, All, IfOk, IfErr, IfSome, IfNone, true, false, vec_capacity};
ghost use Rattle.process_job.specs.declared.job.EndedProcess.{EndedProcess as Process};
ghost use Rattle.process_job.specs.declared.job.ProcessEnd.TheVariants.{Ended};
ghost use Rattle.threaded_jobs.specs.Ended.{HasFinished, HaveAllEnded, IsStopOf, IsStopBy};

use crate::adding::add;
use crate::parting::{FinishLeft, PollerLeft, RunEnds, WorkerLeft};
use outside::PollSet;
use process_job::{EndedProcess, ProcessEnd};
use run_jobs::{FinishEnd, PollerEnd, Watch, WorkerEnd};

/// Why a run was stopped.
#[derive(Clone, Copy, Debug, PartialEq, Eq)]
pub enum Stop {
    /// A wait of the poll set failed.
    PollFault,
    /// Somebody found no memory.
    NoMemory,
}

/// What is left of the jobs of a run that nobody stopped: each process has ended, and each worker, the poller and the one who told them have finished.
#[derive(Drop)]
pub struct EndedJobs<S: PollSet> {
    pub processes: Vec<EndedProcess>,
    pub workers: Vec<WorkerLeft>,
    pub poller: PollerLeft<S>,
    pub finish: FinishLeft,
}

// Whether all workers have taken their last item.
fn all_finished(workers: &[WorkerLeft]) -> bool
    ensures finished { result ≡ true → All HasFinished workers.now }
    ensures stopped { result ≡ false → All HasFinished workers.now → ⊥ }
{
    for worker in workers {
        if worker.end != WorkerEnd::Finished {
            return false;
        }
    }
    true
}

// The processes, if all have ended.
fn ended_processes(ends: Vec<ProcessEnd>, room: Vec<EndedProcess>) -> Option<Vec<EndedProcess>>
    requires empty { room.items ≡ [] }
    requires room { length ends.items ≤ vec_capacity room }
    ensures ended { IfSome result (λ all. map Ended all.items ≡ ends.items) }
    ensures halted { IfNone result ((all : List Process) → map Ended all ≡ ends.items → ⊥) }
{
    let mut all = room;
    for end in ends {
        let ProcessEnd::Ended(process) = end else {
            return None;
        };
        add(&mut all, process);
    }
    Some(all)
}

// Why a run was stopped whose poller ended so.
fn stop_of(end: PollerEnd) -> Stop
    ensures { IsStopBy end result }
{
    if end == PollerEnd::PollFault {
        Stop::PollFault
    } else {
        Stop::NoMemory
    }
}

// The poll set of a poller that has ended.
fn poll_of<S: PollSet + Drop>(poller: PollerLeft<S>) -> S
    ensures { result ≡ poller.watch.poll }
{
    let PollerLeft { watch, .. } = poller;
    let Watch { poll, .. } = watch;
    poll
}

impl<S: PollSet + Drop> RunEnds<S> {
    /// What is left of the jobs if nobody stopped the run, and else why somebody did, and the poll set. It takes no memory: the room has a place for each process.
    pub fn all_ended(self, room: Vec<EndedProcess>) -> Result<EndedJobs<S>, (Stop, S)>
        requires empty { room.items ≡ [] }
        requires room { length self.processes.items ≤ vec_capacity room }
        ensures ended { IfOk result (HaveAllEnded self) }
        ensures stopped { IfErr result (λ s. IsStopOf self s.0) }
        ensures poll { IfErr result (λ s. s.1 ≡ self.poller.watch.poll) }
    {
        let RunEnds {
            processes,
            workers,
            poller,
            finish,
        } = self;
        let is_told = poller.end == PollerEnd::Finished && finish.end == FinishEnd::Told;
        let is_finished = all_finished(workers.as_slice()) && is_told;
        let stop = stop_of(poller.end);
        match ended_processes(processes, room) {
            Some(processes) if is_finished => Ok(EndedJobs {
                processes,
                workers,
                poller,
                finish,
            }),
            _ => Err((stop, poll_of(poller))),
        }
    }
}
