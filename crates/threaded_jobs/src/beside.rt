ghost use Rattle.std.specs.Prelude.{All};
ghost use Rattle.port_sched.specs.Jobs.{WentEach};
ghost use Rattle.port_sched.specs.Schedulers.{CanBegin, Ended};
ghost use Rattle.threaded_jobs.specs.Kinds.{CanGo, HasGone};

use crate::kinds::RunJob;
use outside::{Gate, PollSet};
use port_sched::{PortBody, Scheduler, run};
use std::sync::Wait;
use std::thread::Threads;

/// Runs the schedulers beside the jobs of a run, as `port_sched::run` does.
pub fn run_jobs_beside<
    B: PortBody + Send,
    S: PollSet + Send,
    G: Gate + Sync,
    R: Threads + Wait + Sync,
>(rt: &R, gate: &G, schedulers: &mut [Scheduler<B>], jobs: &mut [RunJob<B, S>])
    requires schedulers { All CanBegin schedulers.old }
    requires jobs { All CanGo jobs.old }
    ensures schedulers { WentEach Ended schedulers.old schedulers.new }
    ensures jobs { WentEach (HasGone S.faults S.answered) jobs.old jobs.new }
{
    run(rt, gate, schedulers, jobs);
}
