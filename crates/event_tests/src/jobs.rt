use async_jobs::{Piece, WorkItem, Worked};
use port_jobs::{Effect, NoMemory, Pool, PortJobs, Signal, SubmitFault};
use std::alloc::Global;
use std::process::Abort;
use std::snapshot::Snapshot;
use std::sync::Wait;
use std::test::Fail;
use task_queue::{TakeEnd, lane};

/// An effect of a row: a job of this number and code, or an end of file.
#[derive(Clone, Copy)]
enum JobEffect {
    Job(u64, u8),
    Eof,
}

/// What a port does with its jobs, and what has to come of it.
#[derive(Clone, Copy)]
enum JobStep {
    /// The jobs of a row are submitted, or not all of them for this reason.
    Submit(&'static [JobEffect], Option<SubmitFault>),
    /// The worker's next turn does the job of this port, number and code, or none.
    Work(Option<(u32, u64, u8)>),
    /// It is taken in that this job is done.
    Done(u64),
    /// A close is taken in.
    Close,
    /// Whether all jobs are done.
    AreDone(bool),
    /// Whether this job is submitted.
    IsSubmitted(u64, bool),
}

fn job(alloc: Global, number: u64, code: u8) -> Result<Effect, NoMemory> {
    Ok(Effect::Async {
        number,
        key: 3,
        code,
        input: Piece::of_slice(alloc, &[1, 2])?,
    })
}

fn effect_of(alloc: Global, effect: JobEffect) -> Result<Effect, NoMemory> {
    match effect {
        JobEffect::Job(number, code) => job(alloc, number, code),
        JobEffect::Eof => Ok(Effect::Eof),
    }
}

/// The effects of a row.
fn effects(alloc: Global, row: &[JobEffect]) -> Result<Vec<Effect>, NoMemory> {
    let mut effects = Vec::new(alloc);
    for effect in row {
        effects.push(effect_of(alloc, *effect)?)?;
    }
    Ok(effects)
}

/// The jobs of port 7, and the end of its one worker.
#[derive(Drop)]
struct OneWorker {
    alloc: Global,
    jobs: PortJobs,
    worker: TakeEnd<WorkItem>,
}

impl OneWorker {
    fn new(alloc: Global) -> Result<OneWorker, NoMemory> {
        let (end, worker) = lane::<WorkItem>(alloc, Snapshot::of(&()))?;
        let mut ends = Vec::new(alloc);
        ends.push(end)?;
        Ok(OneWorker {
            alloc,
            jobs: PortJobs::new(alloc, 7, Pool::new(ends)),
            worker,
        })
    }

    /// Why not all jobs of a row are submitted, if they aren't.
    fn submit_fault<R: Wait>(&mut self, rt: &R, row: &[JobEffect]) -> Option<SubmitFault> {
        match &effects(self.alloc, row) {
            Ok(effects) => self.jobs.submit(rt, effects.as_slice()).err(),
            Err(_) => Some(SubmitFault::NoMemory),
        }
    }

    /// The port, number and code of the job that the worker's next turn does.
    fn next_job<R: Wait>(&mut self, rt: &R) -> Option<(u32, u64, u8)> {
        match Pool::worker_turn(rt, self.alloc, &mut self.worker) {
            Worked::Did(done) => Some((done.port, done.number, done.code)),
            _ => None,
        }
    }

    /// Whether the signal is taken in.
    fn notes(&mut self, signal: &Signal) -> bool {
        self.jobs.note_done(signal).is_ok()
    }

    /// Whether it is taken in that this job is done.
    fn notes_done(&mut self, number: u64) -> bool {
        self.notes(&Signal::AsyncDone {
            number,
            output: Piece::empty(),
        })
    }

    /// Whether a step goes so.
    fn goes<R: Wait>(&mut self, rt: &R, step: &JobStep) -> bool {
        match step {
            JobStep::Submit(row, fault) => self.submit_fault(rt, row) == *fault,
            JobStep::Work(job) => self.next_job(rt) == *job,
            JobStep::Done(number) => self.notes_done(*number),
            JobStep::Close => self.notes(&Signal::Close),
            JobStep::AreDone(wanted) => self.jobs.are_done() == *wanted,
            JobStep::IsSubmitted(number, wanted) => self.jobs.is_submitted(*number) == *wanted,
        }
    }

    /// The number of the first step that goes otherwise, if one does.
    fn first_wrong<R: Wait>(&mut self, rt: &R, steps: &[JobStep]) -> Option<usize> {
        for (at, step) in steps.iter().enumerate() {
            if !self.goes(rt, step) {
                return Some(at);
            }
        }
        None
    }

    /// How many workers the pool has.
    fn workers(self) -> usize {
        self.jobs.into_pool().into_lanes().len()
    }
}

fn is_send<T: Send>(_value: &T) -> bool {
    true
}

/// Whether the jobs of a port go to another thread.
fn is_sent(jobs: &PortJobs) -> bool {
    is_send(jobs)
}

/// Ends the test where a step of a new port goes otherwise. The port after all of them.
fn follow<R: Wait + Abort>(
    rt: &R,
    alloc: Global,
    steps: &[JobStep],
) -> Result<OneWorker, NoMemory> {
    let mut port = OneWorker::new(alloc)?;
    assert_eq!(rt; port.first_wrong(rt, steps), None);
    Ok(port)
}

const IN_ORDER: [JobStep; 6] = [
    JobStep::Submit(
        &[JobEffect::Job(0, 1), JobEffect::Eof, JobEffect::Job(1, 3)],
        None,
    ),
    JobStep::Submit(&[JobEffect::Job(2, 2)], None),
    JobStep::Work(Some((7, 0, 1))),
    JobStep::Work(Some((7, 1, 3))),
    JobStep::Work(Some((7, 2, 2))),
    JobStep::Work(None),
];

#[test]
fn the_jobs_of_a_row_go_to_their_worker_in_order(rt: HostRuntime) -> Result<(), Fail> {
    let port = follow(&rt, rt.alloc(), &IN_ORDER)?;
    assert!(rt; is_sent(&port.jobs));
    assert!(rt; port.workers() == 1);
    Ok(())
}

const NOT_NEXT: Option<SubmitFault> = Some(SubmitFault::NotNext);

const OUT_OF_ORDER: [JobStep; 9] = [
    JobStep::Submit(&[JobEffect::Job(0, 1), JobEffect::Job(2, 1)], NOT_NEXT),
    JobStep::Submit(&[JobEffect::Job(0, 4)], NOT_NEXT),
    JobStep::Submit(&[JobEffect::Job(0, 0)], NOT_NEXT),
    JobStep::Work(None),
    JobStep::IsSubmitted(0, false),
    JobStep::Submit(&[JobEffect::Job(0, 1)], None),
    JobStep::IsSubmitted(0, true),
    JobStep::IsSubmitted(1, false),
    JobStep::Submit(&[JobEffect::Job(0, 1)], NOT_NEXT),
];

#[test]
fn a_row_whose_jobs_are_not_the_next_ones_submits_none(rt: HostRuntime) -> Result<(), Fail> {
    follow(&rt, rt.alloc(), &OUT_OF_ORDER)?;
    Ok(())
}

const TOLD: [JobStep; 12] = [
    JobStep::AreDone(true),
    JobStep::Done(1),
    JobStep::Close,
    JobStep::AreDone(true),
    JobStep::Submit(&[JobEffect::Job(0, 1), JobEffect::Job(1, 1)], None),
    JobStep::AreDone(false),
    JobStep::Done(0),
    JobStep::AreDone(true),
    JobStep::Done(0),
    JobStep::AreDone(true),
    JobStep::Submit(&[JobEffect::Job(2, 1)], None),
    JobStep::AreDone(false),
];

#[test]
fn all_are_done_once_each_was_told_before_or_after_it_was_submitted(
    rt: HostRuntime,
) -> Result<(), Fail> {
    follow(&rt, rt.alloc(), &TOLD)?;
    Ok(())
}
