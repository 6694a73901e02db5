//! The seated run of a script, with the bodies of its ports, is run to its end.
ghost use Rattle.std.specs.Prelude.{◌≡◌, ◌≤◌, ℕ, [], List, length, map, IfOk, IfErr, vec_capacity};
ghost use Rattle.port_body.specs.Body.{BodyView, name_of};
ghost use Rattle.seated_script.specs.run_opening.run_seats.declared.plans.ProcessPlan.{ProcessPlan as Plan};
ghost use Rattle.seated_script.specs.run_opening.run_seats.declared.seating.OtherLanes.{OtherLanes as Lanes};
ghost use Rattle.seated_script.specs.run_opening.run_seats.Seated.{IsSeated};
ghost use Rattle.ended_jobs.specs.Ended.{HaveEndedFor, StopComes};

use driver_hosts::Body;
use ended_jobs::{RunOver, run_to_end};
use outside::{Gate, PollSet};
use seated_script::{Driver, EndedProcess, SeatedRun};
use std::sync::Wait;
use std::thread::Threads;

/// Runs the seated run of these ports until all its jobs have ended.
pub(crate) fn run_ports<
    D: Driver + Send,
    S: PollSet + Drop + Send,
    G: Gate + Sync,
    R: Threads + Wait + Sync,
>(rt: &R, gate: &G, run: SeatedRun<Body<D>, S>, room: Vec<EndedProcess>) -> RunOver<Body<D>, S>
    requires seated { (bodies : List BodyView) × (plans : List Plan) × (lanes : Lanes) × (poll : S) × (schedulers : ℕ) × IsSeated bodies plans lanes poll schedulers run × (length plans ≤ vec_capacity room) }
    requires empty { room.items ≡ [] }
    ensures bodies { (bodies : List BodyView) (plans : List Plan) (lanes : Lanes) (poll : S) (schedulers : ℕ) → IsSeated bodies plans lanes poll schedulers run
        → map name_of result.bodies.items ≡ map name_of bodies }
    ensures ended { (bodies : List BodyView) (plans : List Plan) (lanes : Lanes) (poll : S) (schedulers : ℕ) → IsSeated bodies plans lanes poll schedulers run
        → IfOk result.jobs (HaveEndedFor S.faults S.answered plans lanes poll) }
    ensures stopped { (bodies : List BodyView) (plans : List Plan) (lanes : Lanes) (poll : S) (schedulers : ℕ) → IsSeated bodies plans lanes poll schedulers run
        → IfErr result.jobs (λ s. StopComes S.faults poll s.0 s.1) }
{
    run_to_end(rt, gate, run, room)
}
