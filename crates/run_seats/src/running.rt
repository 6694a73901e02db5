//! A seated run, from its beginning to its end.
ghost use Rattle.std.specs.Prelude.{◌+◌, ℕ, List};
ghost use Rattle.run_seats.specs.declared.plans.ProcessPlan.{ProcessPlan as Plan};
ghost use Rattle.run_seats.specs.declared.seating.OtherLanes.{OtherLanes as Lanes};
ghost use Rattle.run_seats.specs.Ran.{HasRunSeated, KeepBodies};
ghost use Rattle.run_seats.specs.Seated.{IsSeated};

use crate::adding::add;
use crate::homing::bring_home;
use crate::rooms::EndRoom;
use crate::seating::SeatedRun;
use outside::{Gate, PollSet};
use port_sched::PortBody;
use std::sync::Wait;
use std::thread::Threads;
use threaded_jobs::{RunEnds, run_jobs_beside, take_apart};

/// What a run leaves once all its jobs have ended: the bodies of its ports, in their order, and what is left of its jobs.
#[derive(Drop)]
pub struct RunLeft<B: PortBody, S: PollSet> {
    pub bodies: Vec<B>,
    pub jobs: RunEnds<S>,
}

/// Runs the schedulers of a seated run beside its jobs, and returns once all have ended. Its bodies come home then, also where somebody stopped it: none of this takes memory.
pub fn run_seated<
    B: PortBody + Send,
    S: PollSet + Drop + Send,
    G: Gate + Sync,
    R: Threads + Wait + Sync,
>(rt: &R, gate: &G, run: SeatedRun<B, S>) -> RunLeft<B, S>
    requires { (bodies : List B) × (plans : List Plan) × (lanes : Lanes) × (poll : S) × (schedulers : ℕ) × IsSeated bodies plans lanes poll schedulers run }
    ensures ran { HasRunSeated S.faults S.answered run result }
    ensures bodies { KeepBodies B.name run result }
{
    let SeatedRun {
        mut schedulers,
        jobs,
        spare,
        room,
    } = run;
    let EndRoom {
        list,
        jobs: job_room,
        seats: seat_room,
        homes,
    } = room;
    let mut list = jobs.into_list(list);
    run_jobs_beside(rt, gate, schedulers.as_mut_slice(), list.as_mut_slice());
    let jobs = take_apart(list, job_room);
    let (mut seats, ends) = jobs.part_seats(seat_room);
    add(&mut seats, spare);
    RunLeft {
        bodies: bring_home(rt, schedulers, seats, homes),
        jobs: ends,
    }
}
