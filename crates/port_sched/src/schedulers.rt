// Schedulers beside other jobs.
ghost use Rattle.std.specs.Prelude.{◌≡◌, All, None};
ghost use denote.Param.Send.{IsSync, IsSend};
ghost use Rattle.port_sched.specs.Jobs.{WentEach};
ghost use Rattle.port_sched.specs.Schedulers.{CanSchedule, Scheduled, CanBegin, Ended};

use crate::body::PortBody;
use crate::counts::TurnCounts;
use crate::jobs::{ThreadJob, run_jobs};
use crate::meeting::Meeting;
use crate::scheduling::{SchedEnd, SchedSeats, counted_scheduler};
use outside::Gate;
use std::sync::Wait;
use std::thread;
use std::thread::{Threads, join_mut};

/// A scheduler's seats, and once it has run how it ended and how many turns it made. Of these, as many began with a stolen ticket as `seats.run` stole.
#[derive(Drop)]
pub struct Scheduler<B: PortBody> {
    pub seats: SchedSeats<B>,
    pub end: Option<SchedEnd>,
    pub counts: TurnCounts,
}

impl<B: PortBody> Scheduler<B> {
    /// A scheduler that hasn't run yet.
    pub fn new(seats: SchedSeats<B>) -> Scheduler<B>
        ensures waits { (result.seats ≡ seats) × (result.end ≡ None) }
        ensures counts { (result.counts.queued ≡ 0) × (result.counts.idle ≡ 0) }
    {
        Scheduler {
            seats,
            end: None,
            counts: TurnCounts { queued: 0, idle: 0 },
        }
    }

    // Stops the run without a turn, as where memory is wanting.
    fn give_up(&mut self)
        requires { CanSchedule self.old.seats }
        ensures { Scheduled self.old.seats self.new.seats self.new.end self.new.counts }
    {
        self.seats.over.stop();
        self.end = Some(SchedEnd::NoMemory);
        self.counts = TurnCounts { queued: 0, idle: 0 };
    }

    // Runs it to its end once all jobs of the run have met, and gives up where they don't.
    fn run<G: Gate, R: Wait>(&mut self, rt: &R, gate: &G, meeting: &Meeting)
        requires { CanSchedule self.old.seats }
        ensures { Scheduled self.old.seats self.new.seats self.new.end self.new.counts }
    {
        if !meeting.have_all_come(rt) {
            self.give_up();
            return;
        }
        let (end, counts) = counted_scheduler(rt, &mut self.seats, gate);
        self.end = Some(end);
        self.counts = counts;
    }
}

// All schedulers, each in a thread of its own where one can be made.
fn run_schedulers<B: PortBody + Send, G: Gate + Sync, R: Threads + Wait + Sync>(
    rt: &R,
    gate: &G,
    meeting: &Meeting,
    schedulers: &mut [Scheduler<B>],
)
    requires { All CanBegin schedulers.old }
    ensures { WentEach Ended schedulers.old schedulers.new }
{
    if schedulers.is_empty() {
        return;
    }
    let threads = schedulers.len();
    let run_one = move |_: usize, scheduler: &mut Scheduler<B>|
        requires { CanBegin scheduler.now }
        ensures { Ended scheduler.entry.now scheduler.exit.now }
    { scheduler.run(rt, gate, meeting) };
    thread::for_each_mut(rt, schedulers, threads, &run_one);
}

/// Runs the schedulers beside the other jobs, and returns once all have ended. It returns only if OVER tells the end of the run: so the other jobs have to finish
/// their seats of OVER, or to stop the run.
///
/// All begin once each has a thread of its own. Where they don't within some ten seconds, since a thread can't be made, the schedulers stop the run without a turn, and each
/// other job is run all the same: it finds the run stopped.
pub fn run<B: PortBody + Send, G: Gate + Sync, K: ThreadJob + Send, R: Threads + Wait + Sync>(
    rt: &R,
    gate: &G,
    schedulers: &mut [Scheduler<B>],
    others: &mut [K],
)
    requires schedulers { All CanBegin schedulers.old }
    requires others { All K.can_run others.old }
    ensures schedulers { WentEach Ended schedulers.old schedulers.new }
    ensures others { WentEach K.went others.old others.new }
{
    let meeting = Meeting::new(schedulers.len().saturating_add(others.len()));
    let mut turns = ||
        requires { IsSync R.row × IsSync G.row × IsSend B.row × All CanBegin schedulers.now }
        ensures { WentEach Ended schedulers.entry.now schedulers.exit.now }
    { run_schedulers(rt, gate, &meeting, schedulers) };
    let mut jobs = ||
        requires { IsSync R.row × IsSend K.row × All K.can_run others.now }
        ensures { WentEach K.went others.entry.now others.exit.now }
    { run_jobs(rt, &meeting, others) };
    // where no thread can be made for the jobs, the schedulers are run before them, and stop the run
    join_mut(rt, &mut jobs, &mut turns);
}
