//! The lanes of a run and the steps of its processes are dealt to its jobs.
ghost use Rattle.std.specs.Prelude.{◌≡◌, ◌<◌, ◌≤◌, length, IfOk, IfErr};
ghost use Rattle.seated_script.specs.Parts.{AreParts, IsRunOf};

use outside::PollSet;
use port_lanes::each_sender_has_an_end;
use run_opening::{
    Body, Driver, JobLanes, OtherLanes, ProcessSteps, SeatedRun, process_plans, seat_run,
};
use std::alloc::Global;

/// What the jobs of a run are made of: of each port whether its driver takes forced commands while the port is busy, the lanes, and the steps of each process.
#[derive(Drop)]
pub(crate) struct JobParts {
    pub soft: Vec<bool>,
    pub lanes: JobLanes,
    pub process_steps: Vec<ProcessSteps>,
}

/// Seats a run over these bodies. Where memory is wanting they come back as they were.
pub(crate) fn seat_bodies<D: Driver, S: PollSet + Drop>(
    alloc: Global,
    bodies: Vec<Body<D>>,
    parts: JobParts,
    schedulers: u32,
    poll: S,
) -> Result<SeatedRun<Body<D>, S>, Vec<Body<D>>>
    requires parts { AreParts (length bodies.items) parts }
    requires schedulers { (0 < schedulers) × (schedulers ≤ 16) }
    ensures seated { IfOk result (IsRunOf bodies.items parts poll schedulers) }
    ensures back { IfErr result (λ back. back.items ≡ bodies.items) }
{
    each_sender_has_an_end();
    let JobParts {
        soft,
        lanes,
        process_steps,
    } = parts;
    let JobLanes {
        processes,
        workers,
        poller,
        finish,
    } = lanes;
    let Ok(plans) = process_plans(alloc, soft.as_slice(), processes, process_steps) else {
        return Err(bodies);
    };
    let others = OtherLanes {
        workers,
        poller,
        finish,
    };
    match seat_run(alloc, bodies, plans, others, poll, schedulers) {
        Ok(run) => Ok(run),
        Err((bodies, _)) => Err(bodies),
    }
}
