ghost use Rattle.std.specs.Prelude.{◌≡◌, ◌+◌, ◌≤◌, ◌++◌, [], Some, IsSome, All, length, map, vec_len, vec_capacity};
ghost use Rattle.threaded_jobs.specs.Parts.{seats_of, worker_left, poller_left, finish_left, HaveEnded, HasRoom, AreEndsOf};

use crate::adding::add;
use crate::jobs::RunJobs;
use async_jobs::WorkItem;
use outside::PollSet;
use port_lanes::Parcel;
use port_sched::{JobSeats, PortBody};
use process_job::{JobEnd, ProcessEnd, ProcessJob, ProcessSeats};
use ready_select::PollAsk;
use run_jobs::{FinishEnd, FinishJob, PollerEnd, PollerJob, Watch, WorkerEnd, WorkerJob};
use task_queue::{SendEnd, TakeEnd};

/// What is left of a worker beside its seats: its lane, its ends of the ports' lanes, and how it ended.
#[derive(Drop)]
pub struct WorkerLeft {
    pub jobs: TakeEnd<WorkItem>,
    pub lanes: Vec<SendEnd<Parcel>>,
    pub end: WorkerEnd,
}

/// What is left of the poller beside its seats: what it watched, its ends of the ports' lanes, and how it ended.
#[derive(Drop)]
pub struct PollerLeft<S: PollSet> {
    pub watch: Watch<S>,
    pub lanes: Vec<SendEnd<Parcel>>,
    pub end: PollerEnd,
}

/// What is left of the job that told of the end: its ends, and how it ended.
#[derive(Drop)]
pub struct FinishLeft {
    pub poller: SendEnd<PollAsk>,
    pub workers: Vec<SendEnd<WorkItem>>,
    pub end: FinishEnd,
}

/// What is left of the jobs of a run beside their seats. Processes and workers stand by their numbers.
#[derive(Drop)]
pub struct RunEnds<S: PollSet> {
    pub processes: Vec<ProcessEnd>,
    pub workers: Vec<WorkerLeft>,
    pub poller: PollerLeft<S>,
    pub finish: FinishLeft,
}

/// Empty lists with room for the seats of all jobs but the one that tells of the end, and for what is left of the processes and the workers.
#[derive(Drop)]
pub struct SeatRoom<B: PortBody> {
    pub seats: Vec<JobSeats<B>>,
    pub processes: Vec<ProcessEnd>,
    pub workers: Vec<WorkerLeft>,
}

// The seats of the processes go behind these, and what is left of each is its end.
fn part_processes<B: PortBody>(
    processes: Vec<ProcessJob<B>>,
    seats: &mut Vec<JobSeats<B>>,
    mut ends: Vec<ProcessEnd>,
) -> Vec<ProcessEnd>
    requires ended { All (λ p. IsSome p.end) processes.items }
    requires empty { ends.items ≡ [] }
    requires room { length processes.items ≤ vec_capacity ends }
    requires seats_room { vec_len seats.old + length processes.items ≤ vec_capacity seats.old }
    ensures seats { seats.new.items ≡ seats.old.items ++ map (λ p. p.seats.ports) processes.items }
    ensures capacity { vec_capacity seats.old ≤ vec_capacity seats.new }
    ensures ends { map Some result.items ≡ map (λ p. p.end) processes.items }
{
    'processes: for process in processes {
        let (own, end) = part_process(process);
        add(seats, own);
        add(&mut ends, end);
    }
    ends
}

// The seats of a process, and its end.
fn part_process<B: PortBody>(process: ProcessJob<B>) -> (JobSeats<B>, ProcessEnd)
    requires { IsSome process.end }
    ensures seats { result.0 ≡ process.seats.ports }
    ensures end { Some result.1 ≡ process.end }
{
    let JobEnd { seats, end } = process.into_end();
    let ProcessSeats { ports, .. } = seats;
    (ports, end)
}

// The seats of the workers go behind these.
fn part_workers<B: PortBody>(
    workers: Vec<WorkerJob<B>>,
    seats: &mut Vec<JobSeats<B>>,
    mut ends: Vec<WorkerLeft>,
) -> Vec<WorkerLeft>
    requires ended { All (λ w. IsSome w.end) workers.items }
    requires empty { ends.items ≡ [] }
    requires room { length workers.items ≤ vec_capacity ends }
    requires seats_room { vec_len seats.old + length workers.items ≤ vec_capacity seats.old }
    ensures seats { seats.new.items ≡ seats.old.items ++ map (λ w. w.seats) workers.items }
    ensures capacity { vec_capacity seats.old ≤ vec_capacity seats.new }
    ensures ends { map Some result.items ≡ map worker_left workers.items }
{
    'workers: for worker in workers {
        let (own, left) = part_worker(worker);
        add(seats, own);
        add(&mut ends, left);
    }
    ends
}

// The seats of a worker, and what is left of it.
fn part_worker<B: PortBody>(worker: WorkerJob<B>) -> (JobSeats<B>, WorkerLeft)
    requires { IsSome worker.end }
    ensures seats { result.0 ≡ worker.seats }
    ensures left { Some result.1 ≡ worker_left worker }
{
    let WorkerJob {
        seats,
        jobs,
        lanes,
        end,
        ..
    } = worker;
    let Some(end) = end else {
        unreachable!();
    };
    (seats, WorkerLeft { jobs, lanes, end })
}

// The seats of the poller, and what is left of it.
fn part_poller<B: PortBody, S: PollSet>(poller: PollerJob<B, S>) -> (JobSeats<B>, PollerLeft<S>)
    requires { IsSome poller.end }
    ensures seats { result.0 ≡ poller.seats }
    ensures left { Some result.1 ≡ poller_left poller }
{
    let PollerJob {
        seats,
        watch,
        lanes,
        end,
        ..
    } = poller;
    let Some(end) = end else {
        unreachable!();
    };
    (seats, PollerLeft { watch, lanes, end })
}

// What is left of the job that told of the end.
fn part_finish(finish: FinishJob) -> FinishLeft
    requires { IsSome finish.end }
    ensures { Some result ≡ finish_left finish }
{
    let FinishJob {
        poller,
        workers,
        end,
        ..
    } = finish;
    let Some(end) = end else {
        unreachable!();
    };
    FinishLeft {
        poller,
        workers,
        end,
    }
}

impl<B: PortBody, S: PollSet> RunJobs<B, S> {
    /// The seats of the processes, the workers and the poller of a run that is over, in this order, as `ticket_account::gather` takes them, and what is left of each
    /// job. It takes no memory.
    pub fn part_seats(self, room: SeatRoom<B>) -> (Vec<JobSeats<B>>, RunEnds<S>)
        requires ended { HaveEnded self }
        requires room { HasRoom (length self.processes.items) (length self.workers.items) room }
        ensures seats { result.0.items ≡ seats_of self }
        ensures capacity { vec_capacity room.seats ≤ vec_capacity result.0 }
        ensures ends { AreEndsOf self result.1 }
    {
        let SeatRoom {
            mut seats,
            processes,
            workers,
        } = room;
        let processes = part_processes(self.processes, &mut seats, processes);
        let workers = part_workers(self.workers, &mut seats, workers);
        let (own, poller) = part_poller(self.poller);
        add(&mut seats, own);
        let ends = RunEnds {
            processes,
            workers,
            poller,
            finish: part_finish(self.finish),
        };
        (seats, ends)
    }
}
