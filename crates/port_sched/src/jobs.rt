// Jobs that run at the same time, each in a thread of its own where one can be made.
ghost use Rattle.std.specs.Prelude.{All};
ghost use Rattle.port_sched.specs.Jobs.{WentEach};

use crate::meeting::Meeting;
use std::sync::Wait;
use std::thread;
use std::thread::Threads;

/// What runs beside the schedulers: a process, the poller, a worker or the timers. A run that has several kinds of them makes an enum of them.
pub trait ThreadJob {
    // What a job needs, and what a run of it does.
    ghost can_run: { Self → Type 0 };

    ghost went: { Self → Self → Type 0 };

    /// Runs the job to its end. It may wait, for the schedulers too.
    fn run<R: Wait>(&mut self, rt: &R)
        requires { can_run self.old }
        ensures { went self.old self.new };
}

// Runs all jobs at the same time once they have met, and returns once all have ended.
pub(crate) fn run_jobs<K: ThreadJob + Send, R: Threads + Wait + Sync>(
    rt: &R,
    meeting: &Meeting,
    jobs: &mut [K],
)
    requires { All K.can_run jobs.old }
    ensures { WentEach K.went jobs.old jobs.new }
{
    if jobs.is_empty() {
        return;
    }
    let threads = jobs.len();
    let run_one = move |_: usize, job: &mut K|
        requires { K.can_run job.now }
        ensures { K.went job.entry.now job.exit.now }
    {
        meeting.have_all_come(rt);
        job.run(rt)
    };
    thread::for_each_mut(rt, jobs, threads, &run_one);
}
