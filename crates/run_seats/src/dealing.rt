//! Each job gets its seats.
ghost use Rattle.std.specs.Prelude.{◌≡◌, ◌≤◌, ◌+◌, ◌++◌, ℕ, [], length, map, All, vec_capacity};
ghost use Rattle.std.specs.Vec.Iter.{into_iter_items, into_iter_len};
ghost use Rattle.atomic_table.specs.Seated.{TableId};
ghost use Rattle.threaded_jobs.specs.process_job.Jobs.{CanRun};
ghost use Rattle.run_jobs.specs.Working.{CanWork};
ghost use Rattle.ticket_account.specs.Opening.{IsCounted, IsOther, IsReadyJob};
ghost use Rattle.run_seats.specs.Dealt.{AreDealtProcesses, AreDealtWorkers, AreReadyWorkers, IsDealtProcess, IsDealtWorker};
ghost use Rattle.run_seats.specs.Plans.{IsReadyPlan, IsReadyWorker};

use crate::adding::add;
use crate::plans::ProcessPlan;
use port_sched::{JobSeats, PortBody};
use port_words::over::OverSeat;
use run_jobs::WorkerJob;
use run_lanes::{WorkerLanes, next_of};
use std::alloc::Global;
use std::vec::IntoIter;
use threaded_jobs::{ProcessJob, ProcessSeats};

// The job of a process.
fn process_job<B: PortBody>(
    alloc: Global,
    plan: ProcessPlan,
    ports: JobSeats<B>,
    over: OverSeat,
) -> ProcessJob<B>
    requires plan { (many : ℕ) × IsReadyPlan many plan × IsReadyJob many ports }
    requires over { (word : TableId) × IsCounted word over }
    ensures seats { result.seats.ports ≡ ports }
    ensures dealt { IsDealtProcess plan result }
    ensures can { CanRun result }
{
    let ProcessPlan { parts, own_steps } = plan;
    let seats = ProcessSeats { ports, over };
    ProcessJob::new(alloc, seats, parts, own_steps.steps, own_steps.files)
}

/// The jobs of the processes, by their numbers. Each takes the next seats.
pub(crate) fn process_jobs<B: PortBody>(
    alloc: Global,
    plans: Vec<ProcessPlan>,
    seats: &mut IntoIter<JobSeats<B>>,
    over: Vec<OverSeat>,
    mut all: Vec<ProcessJob<B>>,
) -> Vec<ProcessJob<B>>
    requires ready { (many : ℕ) × All (IsReadyPlan many) plans.items × All (IsReadyJob many) (into_iter_items seats.old) }
    requires over { (word : TableId) × All (IsCounted word) over.items }
    requires enough { (length plans.items ≤ into_iter_len seats.old) × (length plans.items ≤ length over.items) }
    requires room { (all.items ≡ []) × (length plans.items ≤ vec_capacity all) }
    ensures seats { map (λ p. p.seats.ports) result.items ++ into_iter_items seats.new ≡ into_iter_items seats.old }
    ensures len { into_iter_len seats.new + length plans.items ≡ into_iter_len seats.old }
    ensures dealt { AreDealtProcesses plans.items result.items }
    ensures can { All CanRun result.items }
{
    let many = plans.len();
    let mut plans = plans.into_iter();
    let mut over = over.into_iter();
    'processes: for _ in 0..many {
        let plan = next_of(&mut plans);
        let ports = next_of(seats);
        let place = next_of(&mut over);
        add(&mut all, process_job(alloc, plan, ports, place));
    }
    all
}

// The job of a worker.
fn worker_job<B: PortBody>(
    alloc: Global,
    lanes: WorkerLanes,
    seats: JobSeats<B>,
    over: OverSeat,
) -> WorkerJob<B>
    requires lanes { (many worker : ℕ) × IsReadyWorker many worker lanes × IsReadyJob many seats }
    requires over { (word : TableId) × IsOther word over }
    ensures seats { result.seats ≡ seats }
    ensures over { result.over ≡ over }
    ensures dealt { IsDealtWorker lanes result }
    ensures can { CanWork result }
{
    let WorkerLanes { jobs, lanes } = lanes;
    WorkerJob {
        alloc,
        seats,
        over,
        jobs,
        lanes,
        end: None,
    }
}

/// The jobs of the workers, by their numbers. Each takes the next seats, and the next seat of OVER.
pub(crate) fn worker_jobs<B: PortBody>(
    alloc: Global,
    workers: Vec<WorkerLanes>,
    seats: &mut IntoIter<JobSeats<B>>,
    over: &mut IntoIter<OverSeat>,
    mut all: Vec<WorkerJob<B>>,
) -> Vec<WorkerJob<B>>
    requires ready { (many : ℕ) × AreReadyWorkers many workers.items × All (IsReadyJob many) (into_iter_items seats.old) }
    requires over { (word : TableId) × All (IsOther word) (into_iter_items over.old) }
    requires enough { (length workers.items ≤ into_iter_len seats.old) × (length workers.items ≤ into_iter_len over.old) }
    requires room { (all.items ≡ []) × (length workers.items ≤ vec_capacity all) }
    ensures seats { map (λ w. w.seats) result.items ++ into_iter_items seats.new ≡ into_iter_items seats.old }
    ensures len { into_iter_len seats.new + length workers.items ≡ into_iter_len seats.old }
    ensures over { map (λ w. w.over) result.items ++ into_iter_items over.new ≡ into_iter_items over.old }
    ensures over_len { into_iter_len over.new + length workers.items ≡ into_iter_len over.old }
    ensures dealt { AreDealtWorkers workers.items result.items }
    ensures can { All CanWork result.items }
{
    let many = workers.len();
    let mut workers = workers.into_iter();
    'workers: for _ in 0..many {
        let lanes = next_of(&mut workers);
        let own = next_of(seats);
        let place = next_of(over);
        add(&mut all, worker_job(alloc, lanes, own, place));
    }
    all
}
