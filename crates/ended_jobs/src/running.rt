ghost use Rattle.std.specs.Prelude.{◌≡◌, ◌≤◌, ℕ, [], List, length, map, IfOk, IfErr, vec_capacity};
ghost use Rattle.run_seats.specs.declared.plans.ProcessPlan.{ProcessPlan as Plan};
ghost use Rattle.run_seats.specs.declared.seating.OtherLanes.{OtherLanes as Lanes};
ghost use Rattle.run_seats.specs.Seated.{IsSeated};
ghost use Rattle.ended_jobs.specs.Ended.{HaveEndedFor, StopComes};

use outside::{Gate, PollSet};
use port_sched::PortBody;
use run_seats::{EndedJobs, EndedProcess, RunLeft, SeatedRun, Stop, run_seated};
use std::sync::Wait;
use std::thread::Threads;

/// What a run leaves that is over: its bodies, in the order of ports, and what is left of its jobs, or why somebody stopped it, and the poll set.
#[derive(Drop)]
pub struct RunOver<B: PortBody, S: PollSet> {
    pub bodies: Vec<B>,
    pub jobs: Result<EndedJobs<S>, (Stop, S)>,
}

/// Runs a seated run until all its jobs have ended, for every schedule. It takes no memory for what it answers: the room has a place for each process.
pub fn run_to_end<
    B: PortBody + Send,
    S: PollSet + Drop + Send,
    G: Gate + Sync,
    R: Threads + Wait + Sync,
>(rt: &R, gate: &G, run: SeatedRun<B, S>, room: Vec<EndedProcess>) -> RunOver<B, S>
    requires seated { (bodies : List B) × (plans : List Plan) × (lanes : Lanes) × (poll : S) × (schedulers : ℕ) × IsSeated bodies plans lanes poll schedulers run × (length plans ≤ vec_capacity room) }
    requires empty { room.items ≡ [] }
    ensures bodies { (bodies : List B) (plans : List Plan) (lanes : Lanes) (poll : S) (schedulers : ℕ) → IsSeated bodies plans lanes poll schedulers run
        → map B.name result.bodies.items ≡ map B.name bodies }
    ensures ended { (bodies : List B) (plans : List Plan) (lanes : Lanes) (poll : S) (schedulers : ℕ) → IsSeated bodies plans lanes poll schedulers run
        → IfOk result.jobs (HaveEndedFor S.faults S.answered plans lanes poll) }
    ensures stopped { (bodies : List B) (plans : List Plan) (lanes : Lanes) (poll : S) (schedulers : ℕ) → IsSeated bodies plans lanes poll schedulers run
        → IfErr result.jobs (λ s. StopComes S.faults poll s.0 s.1) }
{
    let RunLeft { bodies, jobs } = run_seated(rt, gate, run);
    RunOver {
        bodies,
        jobs: jobs.all_ended(room),
    }
}
