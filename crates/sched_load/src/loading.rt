// What a run has beside its seats: the ports, and the jobs' ends of their lanes.
ghost use Rattle.std.specs.Prelude.{◌≡◌, ◌+◌, ◌<◌, length, map, All, IfOk, OnOk};
ghost use Rattle.atomic_table.specs.Seated.{TableId};
ghost use Rattle.ticket_account.specs.Opening.{IsOther, IsReadyJob};
ghost use Rattle.sched_load.specs.Putting.{CanPut};

use crate::putter::Putter;
use crate::till::{Number, Till};
use port_sched::{JobSeats, NoMemory};
use port_words::over::OverSeat;
use std::alloc::Global;
use std::snapshot::Snapshot;
use task_queue::{SendEnd, TakeEnd, lane};

/// How many schedulers, ports and jobs a run has, how many numbers each job puts for each port, and for how many milliseconds it waits before.
#[derive(Clone, Copy, Debug)]
pub struct LoadSize {
    pub schedulers: u32,
    pub ports: u32,
    pub jobs: u32,
    pub numbers: u64,
    pub pause: u64,
}

type Lanes = Vec<SendEnd<Number>>;

// A zero for each sender.
fn zeros(alloc: Global, senders: u32) -> Result<Vec<u64>, NoMemory> {
    let mut all = Vec::new(alloc);
    for _ in 0..senders {
        all.push(0)?;
    }
    Ok(all)
}

// The port at the taking end of a lane.
fn new_till(
    alloc: Global,
    port: u32,
    lane: TakeEnd<Number>,
    size: LoadSize,
) -> Result<Till, NoMemory> {
    let left = size.numbers.saturating_mul(u64::from(size.jobs));
    Ok(Till::new(port, lane, left, zeros(alloc, size.jobs)?))
}

// A port more, and the first end of its lane.
fn add_till(
    alloc: Global,
    port: u32,
    size: LoadSize,
    all: &mut Vec<Till>,
    firsts: &mut Lanes,
) -> Result<(), NoMemory>
    ensures many { OnOk result ((length all.new.items ≡ length all.old.items + 1) × (length firsts.new.items ≡ length firsts.old.items + 1)) }
    ensures first { OnOk result (All (λ e. e.number ≡ 0) firsts.old.items → All (λ e. e.number ≡ 0) firsts.new.items) }
{
    let (end, taker) = lane::<Number>(alloc, Snapshot::of(&()))?;
    let till = new_till(alloc, port, taker, size)?;
    firsts.push(end)?;
    all.push(till)?;
    Ok(())
}

// The ports, and the first end of each one's lane.
fn tills(alloc: Global, size: LoadSize) -> Result<(Vec<Till>, Lanes), NoMemory>
    ensures many { IfOk result (λ r. (length r.0.items ≡ size.ports) × (length r.1.items ≡ size.ports)) }
    ensures first { IfOk result (λ r. All (λ e. e.number ≡ 0) r.1.items) }
{
    let mut all = Vec::new(alloc);
    let mut firsts = Vec::new(alloc);
    'ports: for port in 0..size.ports {
        add_till(alloc, port, size, &mut all, &mut firsts)?;
    }
    Ok((all, firsts))
}

// Another end of one lane.
fn split_at(firsts: &mut Lanes, port: usize) -> Result<SendEnd<Number>, NoMemory>
    requires { (port < length firsts.old.items) × All (λ e. e.number ≡ 0) firsts.old.items }
    ensures { (length firsts.new.items ≡ length firsts.old.items) × All (λ e. e.number ≡ 0) firsts.new.items }
{
    firsts[port].split()
}

// Another end of each lane.
fn split_all(alloc: Global, firsts: &mut Lanes) -> Result<Lanes, NoMemory>
    requires { All (λ e. e.number ≡ 0) firsts.old.items }
    ensures many { IfOk result (λ l. length l.items ≡ length firsts.old.items) }
    ensures firsts { (length firsts.new.items ≡ length firsts.old.items) × All (λ e. e.number ≡ 0) firsts.new.items }
{
    let mut all = Vec::new(alloc);
    'ports: for port in 0..firsts.len() {
        let end = split_at(firsts, port)?;
        all.push(end)?;
    }
    Ok(all)
}

// An end of each lane for each job.
fn lists(alloc: Global, mut firsts: Lanes, jobs: u32) -> Result<Vec<Lanes>, NoMemory>
    requires { All (λ e. e.number ≡ 0) firsts.items }
    ensures { IfOk result (λ all. All (λ l. length l.items ≡ length firsts.items) all.items) }
{
    let mut all = Vec::new(alloc);
    'jobs: for _ in 1..jobs {
        let more = split_all(alloc, &mut firsts)?;
        all.push(more)?;
    }
    all.push(firsts)?;
    Ok(all)
}

/// The ports of a run, and for each job an end of each one's lane.
pub fn load(alloc: Global, size: LoadSize) -> Result<(Vec<Till>, Vec<Lanes>), NoMemory>
    ensures { IfOk result (λ r. (length r.0.items ≡ size.ports) × All (λ l. length l.items ≡ size.ports) r.1.items) }
{
    let (tills, firsts) = tills(alloc, size)?;
    let lists = lists(alloc, firsts, size.jobs)?;
    Ok((tills, lists))
}

/// The jobs, of their seats and ends.
pub fn putters(
    alloc: Global,
    seats: Vec<JobSeats<Till>>,
    mut lists: Vec<Lanes>,
    mut places: Vec<OverSeat>,
    size: LoadSize,
) -> Result<Vec<Putter>, NoMemory>
    requires seats { All (IsReadyJob size.ports) seats.items }
    requires lists { All (λ l. length l.items ≡ size.ports) lists.items }
    requires places { (word : TableId) × All (IsOther word) places.items }
    ensures can { IfOk result (λ all. All CanPut all.items) }
    ensures seats { IfOk result (λ all. map (λ p. p.seats) all.items ≡ seats.items) }
{
    let mut all = Vec::new(alloc);
    'jobs: for seats in seats {
        let Some(lanes) = lists.pop() else {
            return Err(NoMemory);
        };
        let Some(over) = places.pop() else {
            return Err(NoMemory);
        };
        all.push(Putter {
            seats,
            lanes,
            over,
            numbers: size.numbers,
            pause: size.pause,
        })?;
    }
    Ok(all)
}
