//! Runs of schedulers under a load, and the time that they take.
ghost use Rattle.std.specs.Prelude.{◌≡◌, ◌+◌, ◌<◌, ◌≤◌};

use crate::work::ROUNDS;
use anyhow::{Result, ensure};
use outside::OpenGate;
use sched_load::{LoadEnd, LoadSize, Turns, run_load};
use std::io;
use std::rt::Clock;
use std::sync::Wait;
use std::thread::Threads;
use std::time::{CpuClock, Duration, Instant};

const PORTS: u32 = 32;

const JOBS: u32 = 4;

/// How long a run took, how much processor time, and what turns it made.
#[derive(Clone, Copy)]
pub(crate) struct Timed {
    pub(crate) time: Duration,
    pub(crate) processors: Duration,
    pub(crate) turns: Turns,
}

/// So many commands of 4 jobs over 32 ports, as many for each port of each job.
pub(crate) fn load_of(schedulers: u32, commands: u32) -> LoadSize
    ensures { (result.schedulers ≡ schedulers) × (result.ports ≡ 32) × (result.jobs ≡ 4) }
{
    LoadSize {
        schedulers,
        ports: PORTS,
        jobs: JOBS,
        numbers: u64::from(commands / (PORTS * JOBS)),
        pause: 0,
    }
}

/// A command for each of 32 ports, of one job that waits for so many milliseconds before.
pub(crate) fn idle_load(schedulers: u32, millis: u32) -> LoadSize
    ensures { (result.schedulers ≡ schedulers) × (result.ports ≡ 32) × (result.jobs ≡ 1) }
{
    LoadSize {
        schedulers,
        ports: PORTS,
        jobs: 1,
        numbers: 1,
        pause: u64::from(millis),
    }
}

/// When a run began, and how much processor time the program had then taken.
#[derive(Clone, Copy)]
struct Begun {
    start: Instant,
    processors: Duration,
}

impl Begun {
    fn now<R: Clock + CpuClock>(rt: &R) -> io::Result<Begun> {
        let start = Instant::now(rt)?;
        let processors = rt.process_cpu_time()?;
        Ok(Begun { start, processors })
    }

    /// How long ago that was, and how much processor time was taken since.
    fn passed<R: Clock + CpuClock>(self, rt: &R) -> io::Result<(Duration, Duration)> {
        let processors = rt.process_cpu_time()?.saturating_sub(self.processors);
        Ok((self.start.elapsed(rt)?, processors))
    }
}

/// Whether each port took so many numbers of each job once.
fn took_each_once(outcome: &LoadEnd, numbers: u64) -> bool {
    for lodger in outcome.tills.as_slice() {
        if !lodger.body.took_each_once(numbers) {
            return false;
        }
    }
    true
}

/// The turns of a run in which each port took so many numbers of each job once.
fn turns_of(outcome: &LoadEnd, numbers: u64) -> Result<Turns> {
    ensure!(outcome.all_done, "a scheduler found no memory");
    ensure!(
        took_each_once(outcome, numbers),
        "a port took another command"
    );
    Ok(outcome.turns)
}

/// Makes one run, and sees that each port took each command once.
pub(crate) fn timed_run<R: Clock + CpuClock + AllocGlobal + Wait + Threads + Sync>(
    rt: &R,
    size: LoadSize,
) -> Result<Timed>
    requires schedulers { (0 < size.schedulers) × (size.schedulers ≤ 16) }
    requires few { size.ports + size.schedulers + size.jobs ≤ 1024 }
{
    let begun = Begun::now(rt)?;
    let outcome = run_load(rt, rt.alloc(), &OpenGate, size)?;
    let passed = begun.passed(rt);
    let turns = turns_of(&outcome, size.numbers)?;
    let (time, processors) = passed?;
    Ok(Timed {
        time,
        processors,
        turns,
    })
}

/// The shortest of some runs.
pub(crate) fn best_run<R: Clock + CpuClock + AllocGlobal + Wait + Threads + Sync>(
    rt: &R,
    size: LoadSize,
) -> Result<Timed>
    requires schedulers { (0 < size.schedulers) × (size.schedulers ≤ 16) }
    requires few { size.ports + size.schedulers + size.jobs ≤ 1024 }
{
    let mut best = timed_run(rt, size)?;
    for _ in 1..ROUNDS {
        let next = timed_run(rt, size)?;
        if next.time < best.time {
            best = next;
        }
    }
    Ok(best)
}
