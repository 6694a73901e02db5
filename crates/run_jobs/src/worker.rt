ghost use Rattle.std.specs.Prelude.{◌≡◌, ℕ, List, [], ◌∷◌, length};
ghost use Rattle.port_words.specs.declared.home.homes.Ticket.{Ticket};
ghost use Rattle.async_jobs.specs.Work.{work_of};
ghost use Rattle.port_model.specs.declared.signal.Sender.TheVariants.{Worker};
ghost use Rattle.port_sched.specs.Homes.{AreHomes};
ghost use Rattle.port_sched.specs.Waking.{Woke};
ghost use Rattle.run_jobs.specs.Telling.{AreEndsOf, TellsOf, WakesBy};
ghost use Rattle.run_jobs.specs.Working.{done_task, HasStepped, KeptAt, KeptIn, LooksAt, WorksTo};

use crate::stopping::is_stopped;
use crate::telling::tell;
use async_jobs::{Done, Pool, WorkItem, Worked};
use no_memory::NoMemory;
use port_model::{Signal, Task};
use port_sched::{Idle, JobSeats, PortBody, ThreadJob};
use port_words::over::OverSeat;
use process_end::Parcel;
use std::alloc::Global;
use std::sync::Wait;
use task_queue::{SendEnd, TakeEnd};

/// How a worker ended.
#[derive(Clone, Copy, Debug, PartialEq, Eq)]
pub enum WorkerEnd {
    /// It took a `Finish`.
    Finished,
    /// It had nothing to do, and the run was stopped.
    Stopped,
    /// It found no memory, and stopped the run.
    NoMemory,
}

/// A worker of a run: it works the jobs of its lane one after another, and puts each one's output into the lane of the job's port, which it wakes.
///
/// The ends of lanes stand in the order of the ports. A job of a port that isn't there is worked, and answered to nobody.
#[derive(Drop)]
pub struct WorkerJob<B: PortBody> {
    pub alloc: Global,
    pub seats: JobSeats<B>,
    pub over: OverSeat,
    pub jobs: TakeEnd<WorkItem>,
    pub lanes: Vec<SendEnd<Parcel>>,
    /// How it ended, once it has run.
    pub end: Option<WorkerEnd>,
}

// What one turn of a worker did.
enum WorkerTurn {
    Answered,
    Empty,
    Finished,
    NoMemory,
}

// The task by which a port is told that its job was done.
fn task_of(done: Done) -> Task
    ensures { result ≡ done_task done.number (work_of done.code done.input) }
{
    let Done { number, output, .. } = done;
    Task::new(Signal::AsyncDone { number, output })
}

// Tells the port of a job that it was done.
fn answer<B: PortBody, R: Wait>(
    rt: &R,
    lanes: &mut Vec<SendEnd<Parcel>>,
    seats: &mut JobSeats<B>,
    done: Done,
) -> Result<(), NoMemory>
    requires homes { AreHomes seats.old.homes.items }
    requires ports { length seats.old.homes.items ≡ length lanes.old.items }
    requires ends { (worker : ℕ) × AreEndsOf (Worker worker) lanes.old.items }
    ensures told { TellsOf result (record { port = done.port; task = done_task done.number (work_of done.code done.input) } ∷ []) lanes.old.items lanes.new.items }
    ensures woke { WakesBy result seats.old seats.new }
{
    let port = done.port;
    tell(rt, seats, lanes, port, task_of(done))
}

// One turn.
fn turn<B: PortBody, R: Wait>(
    rt: &R,
    alloc: Global,
    jobs: &mut TakeEnd<WorkItem>,
    lanes: &mut Vec<SendEnd<Parcel>>,
    seats: &mut JobSeats<B>,
) -> WorkerTurn
    requires homes { AreHomes seats.old.homes.items }
    requires ports { length seats.old.homes.items ≡ length lanes.old.items }
    requires ends { (worker : ℕ) × AreEndsOf (Worker worker) lanes.old.items }
    ensures step { HasStepped result jobs.old jobs.new lanes.old.items lanes.new.items }
    ensures woke { (kept : List Ticket) × KeptIn result kept × Woke kept seats.old seats.new }
{
    match Pool::worker_turn(rt, alloc, jobs) {
        Worked::Did(done) => match answer(rt, lanes, seats, done) {
            Ok(()) => WorkerTurn::Answered,
            Err(NoMemory) => WorkerTurn::NoMemory,
        },
        Worked::Empty => WorkerTurn::Empty,
        Worked::Finished => WorkerTurn::Finished,
        Worked::NoMemory(_) => WorkerTurn::NoMemory,
    }
}

// Turns until there is nothing more to do.
fn work<B: PortBody, R: Wait>(
    rt: &R,
    alloc: Global,
    jobs: &mut TakeEnd<WorkItem>,
    lanes: &mut Vec<SendEnd<Parcel>>,
    seats: &mut JobSeats<B>,
    over: &mut OverSeat,
) -> WorkerEnd
    requires homes { AreHomes seats.old.homes.items }
    requires ports { length seats.old.homes.items ≡ length lanes.old.items }
    requires ends { (worker : ℕ) × AreEndsOf (Worker worker) lanes.old.items }
    ensures worked { WorksTo result jobs.old jobs.new lanes.old.items lanes.new.items }
    ensures over { LooksAt result over.old over.new }
    ensures woke { (kept : List Ticket) × KeptAt result kept × Woke kept seats.old seats.new }
{
    let idle = Idle::new();
    'turns: for _ in rt.forever() {
        match turn(rt, alloc, jobs, lanes, seats) {
            WorkerTurn::Answered => idle.reset(),
            WorkerTurn::Empty => {
                if is_stopped(over) {
                    return WorkerEnd::Stopped;
                }
                jobs.rest(rt, &idle);
            }
            WorkerTurn::Finished => return WorkerEnd::Finished,
            WorkerTurn::NoMemory => return WorkerEnd::NoMemory,
        }
    }
    unreachable!()
}

impl<B: PortBody> ThreadJob for WorkerJob<B> {
    ghost use Rattle.run_jobs.specs.Working.{CanWork, HasWorked};

    ghost can_run = { CanWork };

    ghost went = { HasWorked };

    fn run<R: Wait>(&mut self, rt: &R) {
        let end = work(
            rt,
            self.alloc,
            &mut self.jobs,
            &mut self.lanes,
            &mut self.seats,
            &mut self.over,
        );
        if end == WorkerEnd::NoMemory {
            self.over.stop();
        }
        self.end = Some(end);
    }
}
