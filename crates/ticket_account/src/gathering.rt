// The end of a run: the seats of all its jobs are joined, and its queues end.
ghost use Rattle.std.specs.Prelude.{All};
ghost use Rattle.port_sched.specs.Closing.{IsWhole};
ghost use Rattle.ticket_account.specs.Run.{HasRun, HomesOfRun, IsSettled};

use port_sched::{JobSeats, Lodger, PortBody, Scheduler};
use port_words::home::HomeSeat;
use std::sync::Wait;

/// Joins the seats of all schedulers and of all other jobs of one run, and ends its queues. Each ticket that was made was claimed, was found stale, or is left in a
/// queue, each once, but those that a job kept for want of memory. What comes back has every share of each home, in the order of ports, so that the homes can be closed.
pub fn gather<B: PortBody, R: Wait>(
    rt: &R,
    mut schedulers: Vec<Scheduler<B>>,
    mut jobs: Vec<JobSeats<B>>,
) -> Vec<HomeSeat<Lodger<B>>>
    requires { HasRun schedulers.items jobs.items }
    ensures whole { All IsWhole result.items }
    ensures homes { HomesOfRun schedulers.items jobs.items result.items }
    ensures tickets { IsSettled schedulers.items jobs.items result.items }
{
    let Some(last) = schedulers.pop() else {
        unreachable!();
    };
    let mut all = last.seats;
    'schedulers: while let Some(other) = schedulers.pop() {
        all.join(other.seats);
    }
    'jobs: while let Some(job) = jobs.pop() {
        all.join_job(job);
    }
    all.run.close(rt);
    all.homes
}
