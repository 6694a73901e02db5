// A run under a load.
ghost use Rattle.std.specs.Prelude.{◌≡◌, ◌+◌, ◌<◌, ◌≤◌, map, sum_by, All, IfOk};
ghost use Rattle.run_queue.specs.Seats.{counted, stolen_by};
ghost use Rattle.port_sched.specs.Closing.{IsWhole};
ghost use Rattle.port_sched.specs.Jobs.{WentEach};
ghost use Rattle.port_sched.specs.Schedulers.{CanBegin, Ended};

use crate::loading::{LoadSize, load, putters};
use crate::putter::Putter;
use crate::till::Till;
use outside::Gate;
use port_sched::{
    JobSeats, Lodger, NoMemory, PortBody, SchedEnd, Scheduler, ThreadJob, close_homes, run,
};
use port_words::home::HomeSeat;
use std::alloc::Global;
use std::sync::Wait;
use std::thread::Threads;
use ticket_account::{RunSize, gather, open_run};

/// How a run ended: whether each scheduler saw its end, the ports that came back, and how many turns were made.
#[derive(Drop)]
pub struct LoadEnd {
    pub all_done: bool,
    pub tills: Vec<Lodger<Till>>,
    pub turns: Turns,
}

/// The turns of all schedulers of a run together. A number goes no further than 2^64 - 1.
#[derive(Clone, Copy, Debug, PartialEq, Eq)]
pub struct Turns {
    /// The turns that began with a ticket.
    pub queued: u64,
    /// The tickets that were stolen, each of another scheduler's deque.
    pub stolen: u64,
    /// The turns of ports that were found idle.
    pub idle: u64,
}

// Runs schedulers beside jobs, and gives them back.
fn run_owned<B: PortBody + Send, G: Gate + Sync, K: ThreadJob + Send, R: Threads + Wait + Sync>(
    rt: &R,
    gate: &G,
    mut schedulers: Vec<Scheduler<B>>,
    mut jobs: Vec<K>,
) -> (Vec<Scheduler<B>>, Vec<K>)
    requires schedulers { All CanBegin schedulers.items }
    requires jobs { All K.can_run jobs.items }
    ensures schedulers { WentEach Ended schedulers.items result.0.items }
    ensures jobs { WentEach K.went jobs.items result.1.items }
{
    run(rt, gate, schedulers.as_mut_slice(), jobs.as_mut_slice());
    (schedulers, jobs)
}

// The jobs' seats.
fn seats_of(alloc: Global, jobs: Vec<Putter>) -> Result<Vec<JobSeats<Till>>, NoMemory>
    ensures { IfOk result (λ all. all.items ≡ map (λ p. p.seats) jobs.items) }
{
    let mut all = Vec::new(alloc);
    'jobs: for job in jobs {
        all.push(job.seats)?;
    }
    Ok(all)
}

// The ports come out of their homes.
fn come_out(
    alloc: Global,
    homes: Vec<HomeSeat<Lodger<Till>>>,
) -> Result<Vec<Lodger<Till>>, NoMemory>
    requires { All IsWhole homes.items }
{
    let mut tills = Vec::with_capacity(alloc, homes.len())?;
    close_homes(homes, &mut tills);
    Ok(tills)
}

fn all_done(schedulers: &[Scheduler<Till>]) -> bool {
    schedulers
        .iter()
        .all(|scheduler| scheduler.end == Some(SchedEnd::Done))
}

// The turns of all schedulers.
fn turns_of(schedulers: &[Scheduler<Till>]) -> Turns
    ensures queued { result.queued ≡ counted (sum_by (λ s. s.counts.queued) schedulers.now) }
    ensures stolen { result.stolen ≡ counted (sum_by (λ s. stolen_by s.seats.run) schedulers.now) }
    ensures idle { result.idle ≡ counted (sum_by (λ s. s.counts.idle) schedulers.now) }
{
    let mut turns = Turns {
        queued: 0,
        stolen: 0,
        idle: 0,
    };
    'schedulers: for scheduler in schedulers {
        turns.queued = turns.queued.saturating_add(scheduler.counts.queued);
        turns.stolen = turns.stolen.saturating_add(scheduler.seats.run.stolen());
        turns.idle = turns.idle.saturating_add(scheduler.counts.idle);
    }
    turns
}

/// Runs so many schedulers and jobs on so many ports, to the end. Where no memory is found before it or after it, the ports are dropped.
pub fn run_load<G: Gate + Sync, R: Threads + Wait + Sync>(
    rt: &R,
    alloc: Global,
    gate: &G,
    size: LoadSize,
) -> Result<LoadEnd, NoMemory>
    requires schedulers { (0 < size.schedulers) × (size.schedulers ≤ 16) }
    requires few { size.ports + size.schedulers + size.jobs ≤ 1024 }
{
    let (tills, lists) = load(alloc, size)?;
    let run = RunSize {
        schedulers: size.schedulers,
        finishing: 0,
        others: size.jobs,
    };
    let Ok(opened) = open_run(alloc, tills, run) else {
        return Err(NoMemory);
    };
    let jobs = putters(alloc, opened.jobs, lists, opened.others, size)?;
    let (schedulers, jobs) = run_owned(rt, gate, opened.schedulers, jobs);
    let all_done = all_done(&schedulers);
    let turns = turns_of(&schedulers);
    let jobs = seats_of(alloc, jobs)?;
    let tills = come_out(alloc, gather(rt, schedulers, jobs))?;
    Ok(LoadEnd {
        all_done,
        tills,
        turns,
    })
}
