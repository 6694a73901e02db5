// How the seats of a run are made.
ghost use Rattle.std.specs.Prelude.{◌≡◌, ◌+◌, ◌<◌, ◌≤◌, List, [], length, vec_capacity, map, All, IfOk, IfErr};
ghost use Rattle.atomic_table.specs.Seated.{TableId};
ghost use Rattle.port_words.specs.home.Seats.{HomeKnown};
ghost use Rattle.port_sched.specs.Schedulers.{CanBegin};
ghost use Rattle.ticket_account.specs.Run.{IsOpenedFor};
ghost use Rattle.ticket_account.specs.Opening.{IsOther, ArePlaces, AreSeated, AreJobSeats, IsReadyJob};

use crate::homes::{add, deal_homes, empty_lists};
use no_memory::NoMemory;
use port_sched::{Home, JobSeats, PortBody, SchedSeats, Scheduler};
use port_words::over::{OverSeat, over_word};
use run_queue::{EntrySeat, RunSeat, run_queue};
use std::alloc::Global;

/// How many schedulers a run has, and how many jobs beside them: those that have to finish before it is over, and the others.
#[derive(Clone, Copy, Debug)]
pub struct RunSize {
    pub schedulers: u32,
    pub finishing: u32,
    pub others: u32,
}

/// The seats of a run: those of each scheduler and of each other job, and the jobs' seats of OVER.
#[derive(Drop)]
pub struct Opened<B: PortBody> {
    pub schedulers: Vec<Scheduler<B>>,
    pub jobs: Vec<JobSeats<B>>,
    /// For the jobs that have to finish.
    pub finishing: Vec<OverSeat>,
    pub others: Vec<OverSeat>,
}

type Room<B> = (
    Vec<Vec<Home<B>>>,
    Vec<Scheduler<B>>,
    Vec<JobSeats<B>>,
    Vec<B>,
);

// The seats of a new word OVER: the counted ones, and the others.
fn places(
    alloc: Global,
    counted: u32,
    others: u32,
) -> Result<(Vec<OverSeat>, Vec<OverSeat>), NoMemory>
    requires some { 0 < counted + others }
    requires few { counted + others ≤ 1024 }
    ensures { IfOk result (λ r. ArePlaces counted others r.0.items r.1.items) }
{
    let mut all = over_word(alloc, counted, others)?;
    let rest = all.split_off(counted as usize)?;
    Ok((all, rest))
}

// The empty lists that a run fills: a list of homes for each job, the schedulers, the other jobs, and what the bodies come back in.
fn room<B: PortBody>(
    alloc: Global,
    ports: usize,
    schedulers: u32,
    jobs: u32,
) -> Result<Room<B>, NoMemory>
    requires { schedulers + jobs ≤ 1024 }
    ensures lists { IfOk result (λ room. (length room.0.items ≡ schedulers + jobs) × All (λ l. (l.items ≡ []) × (ports ≤ vec_capacity l)) room.0.items) }
    ensures seats { IfOk result (λ room. (room.1.items ≡ []) × (schedulers ≤ vec_capacity room.1) × (room.2.items ≡ []) × (jobs ≤ vec_capacity room.2)) }
    ensures bodies { IfOk result (λ room. (room.3.items ≡ []) × (ports ≤ vec_capacity room.3)) }
{
    Ok((
        empty_lists(alloc, schedulers + jobs, ports)?,
        Vec::with_capacity(alloc, schedulers as usize)?,
        Vec::with_capacity(alloc, jobs as usize)?,
        Vec::with_capacity(alloc, ports)?,
    ))
}

// The schedulers, by the numbers of their deques.
fn seat_schedulers<B: PortBody>(
    mut all: Vec<Scheduler<B>>,
    runs: Vec<RunSeat>,
    lists: &mut Vec<Vec<Home<B>>>,
    places: &mut Vec<OverSeat>,
) -> Vec<Scheduler<B>>
    requires room { (all.items ≡ []) × (length runs.items ≤ vec_capacity all) }
    requires enough { (length runs.items ≤ length lists.old.items) × (length runs.items ≤ length places.old.items) }
    ensures seated { (row : List (HomeKnown _)) (word : TableId) → All (λ r. r ≡ row) (map (λ l. l.items) lists.old.items) → All (IsOther word) places.old.items
        → AreSeated runs.items row word result.items × All (λ r. r ≡ row) (map (λ l. l.items) lists.new.items) × All (IsOther word) places.new.items }
    ensures left { (length lists.new.items + length runs.items ≡ length lists.old.items) × (length places.new.items + length runs.items ≡ length places.old.items) }
{
    'runs: for run in runs {
        let Some(homes) = lists.pop() else {
            unreachable!();
        };
        let Some(over) = places.pop() else {
            unreachable!();
        };
        add(&mut all, Scheduler::new(SchedSeats { homes, run, over }));
    }
    all
}

// The other jobs.
fn seat_jobs<B: PortBody>(
    mut all: Vec<JobSeats<B>>,
    entries: Vec<EntrySeat>,
    lists: &mut Vec<Vec<Home<B>>>,
) -> Vec<JobSeats<B>>
    requires room { (all.items ≡ []) × (length entries.items ≤ vec_capacity all) }
    requires enough { length entries.items ≤ length lists.old.items }
    ensures { (row : List (HomeKnown _)) → All (λ r. r ≡ row) (map (λ l. l.items) lists.old.items) → AreJobSeats entries.items row result.items }
{
    'entries: for entry in entries {
        let Some(homes) = lists.pop() else {
            unreachable!();
        };
        let seats = JobSeats {
            homes,
            entry,
            refused: false,
        };
        add(&mut all, seats);
    }
    all
}

/// Makes the seats of a run for these bodies, one port each, by rising number. Where no memory is found the bodies come back as they were.
pub fn open_run<B: PortBody>(
    alloc: Global,
    bodies: Vec<B>,
    size: RunSize,
) -> Result<Opened<B>, (Vec<B>, NoMemory)>
    requires schedulers { (0 < size.schedulers) × (size.schedulers ≤ 16) }
    requires few { length bodies.items + size.schedulers + size.finishing + size.others ≤ 1024 }
    ensures opened { IfOk result (λ o. IsOpenedFor bodies.items o.schedulers.items o.jobs.items) }
    ensures schedulers { IfOk result (λ o. (length o.schedulers.items ≡ size.schedulers) × All CanBegin o.schedulers.items) }
    ensures jobs { IfOk result (λ o. (length o.jobs.items ≡ size.finishing + size.others) × All (IsReadyJob (length bodies.items)) o.jobs.items) }
    ensures places { IfOk result (λ o. ArePlaces size.finishing size.others o.finishing.items o.others.items) }
    ensures err { IfErr result (λ e. e.0.items ≡ bodies.items) }
{
    let many = size.finishing + size.others;
    let counted = bodies.len() as u32 + size.finishing;
    let Ok((runs, entries)) = run_queue(alloc, size.schedulers, many) else {
        return Err((bodies, NoMemory));
    };
    let Ok((mut finishing, mut others)) = places(alloc, counted, size.others + size.schedulers)
    else {
        return Err((bodies, NoMemory));
    };
    let Ok((lists, schedulers, jobs, back)) = room(alloc, bodies.len(), size.schedulers, many)
    else {
        return Err((bodies, NoMemory));
    };
    let mut lists = match deal_homes(alloc, bodies, &mut finishing, lists, back) {
        Ok(lists) => lists,
        Err(bodies) => return Err((bodies, NoMemory)),
    };
    Ok(Opened {
        schedulers: seat_schedulers(schedulers, runs, &mut lists, &mut others),
        jobs: seat_jobs(jobs, entries, &mut lists),
        finishing,
        others,
    })
}
