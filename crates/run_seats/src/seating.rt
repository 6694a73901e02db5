//! A run is seated: each job and each scheduler gets what it needs, before the run.
ghost use Rattle.std.specs.Prelude.{◌≡◌, ◌<◌, ◌≤◌, ◌+◌, ℕ, [], length, All, IfOk, IfErr};
ghost use Rattle.atomic_table.specs.Seated.{TableId};
ghost use Rattle.run_jobs.specs.Finishing.{CanTellEnd};
ghost use Rattle.run_jobs.specs.Rounds.{CanPoll};
ghost use Rattle.threaded_jobs.specs.Jobs.{CanAllGo};
ghost use Rattle.ticket_account.specs.Opening.{ArePlaces, IsOther, IsReadyJob};
ghost use Rattle.run_seats.specs.Plans.{IsReadyPlan};
ghost use Rattle.run_seats.specs.Seated.{all_seats, AreDealtJobs, AreReadyLanes, IsDealtFinish, IsDealtPoller, IsJobRoom, IsReadyPoller, IsSeated, StaysOfOneRun};

use crate::dealing::{process_jobs, worker_jobs};
use crate::plans::ProcessPlan;
use crate::rooms::{EndRoom, end_room, job_room};
use no_memory::NoMemory;
use outside::PollSet;
use port_sched::{JobSeats, PortBody, Scheduler};
use port_words::over::OverSeat;
use run_jobs::{FinishJob, PollerJob, Watch};
use run_lanes::{FinishEnds, PollerLanes, WorkerLanes, next_of};
use std::alloc::Global;
use threaded_jobs::{JobRoom, RunJobs};
use ticket_account::{Opened, RunSize, open_run};

/// What the jobs beside the processes have of the lanes of a run.
#[derive(Drop)]
pub struct OtherLanes {
    pub workers: Vec<WorkerLanes>,
    pub poller: PollerLanes,
    pub finish: FinishEnds,
}

/// A run that can begin: its schedulers, its jobs, the seats of the job that wakes nobody, and what its end needs of memory.
#[derive(Drop)]
pub struct SeatedRun<B: PortBody, S: PollSet> {
    pub schedulers: Vec<Scheduler<B>>,
    pub jobs: RunJobs<B, S>,
    pub spare: JobSeats<B>,
    pub room: EndRoom<B, S>,
}

// The seats of all jobs, and their seats of OVER.
#[derive(Drop)]
struct JobPlaces<B: PortBody> {
    jobs: Vec<JobSeats<B>>,
    finishing: Vec<OverSeat>,
    others: Vec<OverSeat>,
}

// The job of the poller.
fn poller_job<B: PortBody, S: PollSet>(
    alloc: Global,
    lanes: PollerLanes,
    poll: S,
    seats: JobSeats<B>,
    over: OverSeat,
) -> PollerJob<B, S>
    requires lanes { (many : ℕ) × IsReadyPoller many lanes × IsReadyJob many seats }
    requires over { (word : TableId) × IsOther word over }
    ensures seats { result.seats ≡ seats }
    ensures dealt { IsDealtPoller lanes poll result }
    ensures can { CanPoll result }
{
    let PollerLanes { asks, lanes } = lanes;
    PollerJob {
        alloc,
        seats,
        over,
        watch: Watch::new(alloc, poll, asks),
        lanes,
        end: None,
    }
}

// The job that tells of the end.
fn finish_job(ends: FinishEnds, over: OverSeat) -> FinishJob
    requires { (word : TableId) × IsOther word over }
    ensures dealt { IsDealtFinish ends result }
    ensures can { CanTellEnd result }
{
    let FinishEnds { poller, workers } = ends;
    FinishJob {
        over,
        poller,
        workers,
        end: None,
    }
}

// The jobs of a run, and the seats that are left over.
fn deal_jobs<B: PortBody, S: PollSet + Drop>(
    alloc: Global,
    plans: Vec<ProcessPlan>,
    lanes: OtherLanes,
    poll: S,
    places: JobPlaces<B>,
    room: JobRoom<B>,
) -> (RunJobs<B, S>, JobSeats<B>)
    requires ready { (many : ℕ) × All (IsReadyPlan many) plans.items × AreReadyLanes many lanes × All (IsReadyJob many) places.jobs.items }
    requires many { length places.jobs.items ≡ length plans.items + length lanes.workers.items + 2 }
    requires over { ArePlaces (length plans.items) (length lanes.workers.items + 2) places.finishing.items places.others.items }
    requires room { IsJobRoom (length plans.items) (length lanes.workers.items) room }
    ensures seats { all_seats result.0 result.1 ≡ places.jobs.items }
    ensures can { CanAllGo result.0 }
    ensures dealt { AreDealtJobs plans.items lanes poll result.0 }
{
    let OtherLanes {
        workers: workers_lanes,
        poller: poller_lanes,
        finish: ends,
    } = lanes;
    let mut seats = places.jobs.into_iter();
    let mut others = places.others.into_iter();
    let processes = process_jobs(alloc, plans, &mut seats, places.finishing, room.processes);
    let workers = worker_jobs(alloc, workers_lanes, &mut seats, &mut others, room.workers);
    let own = next_of(&mut seats);
    let over = next_of(&mut others);
    let poller = poller_job(alloc, poller_lanes, poll, own, over);
    let last = next_of(&mut others);
    let finish = finish_job(ends, last);
    let spare = next_of(&mut seats);
    let jobs = RunJobs {
        processes,
        workers,
        poller,
        finish,
    };
    (jobs, spare)
}

/// Seats a run for these bodies: its schedulers, its jobs with what each is to do, and what its end needs of memory. The seats of processes come first, then those of workers, of the poller, and of the job
/// that wakes nobody. Where no memory is found the bodies come back as they were.
pub fn seat_run<B: PortBody, S: PollSet + Drop>(
    alloc: Global,
    bodies: Vec<B>,
    plans: Vec<ProcessPlan>,
    lanes: OtherLanes,
    poll: S,
    schedulers: u32,
) -> Result<SeatedRun<B, S>, (Vec<B>, NoMemory)>
    requires schedulers { (0 < schedulers) × (schedulers ≤ 16) }
    requires few { length bodies.items + schedulers + length plans.items + length lanes.workers.items + 2 ≤ 1024 }
    requires plans { All (IsReadyPlan (length bodies.items)) plans.items }
    requires lanes { AreReadyLanes (length bodies.items) lanes }
    ensures ok { IfOk result (IsSeated bodies.items plans.items lanes poll schedulers) }
    ensures err { IfErr result (λ e. e.0.items ≡ bodies.items) }
{
    let processes = plans.len();
    let workers = lanes.workers.len();
    let Ok(own) = job_room(alloc, processes, workers) else {
        return Err((bodies, NoMemory));
    };
    let Ok(room) = end_room(alloc, bodies.len(), processes, workers) else {
        return Err((bodies, NoMemory));
    };
    let size = RunSize {
        schedulers,
        finishing: processes as u32,
        others: workers as u32 + 2,
    };
    let Opened {
        schedulers,
        jobs,
        finishing,
        others,
    } = open_run(alloc, bodies, size)?;
    let places = JobPlaces {
        jobs,
        finishing,
        others,
    };
    let (jobs, spare) = deal_jobs(alloc, plans, lanes, poll, places, own);
    Ok(SeatedRun {
        schedulers,
        jobs,
        spare,
        room,
    })
}

/// Once the schedulers and the jobs of a run have run, their seats and those of the job that wakes nobody are those of one run, as `bring_home` takes them.
pub fn seats_stay_of_one_run<B: PortBody, S: PollSet>(run: &SeatedRun<B, S>)
    ensures { StaysOfOneRun S.faults S.answered run.now }
{}
