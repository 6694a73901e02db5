//! What each process of a run is made of.
ghost use Rattle.std.specs.Prelude.{◌≡◌, ◌<◌, ◌≤◌, length, IfOk};
ghost use Rattle.run_seats.specs.Plans.{ArePlansOf, IsPlanOf};

use no_memory::NoMemory;
use run_lanes::{ProcessLanes, next_of};
use script_plan::{Piece, Step};
use std::alloc::Global;
use std::collections::VecDeque;
use threaded_jobs::ProcParts;

/// What a process does: its steps in order, and the contents of the files that its `file` steps send, one for each such step, in their order.
#[derive(Drop)]
pub struct ProcessSteps {
    pub steps: VecDeque<Step>,
    pub files: VecDeque<Piece>,
}

/// What a process is made of but for its seats.
#[derive(Drop)]
pub struct ProcessPlan {
    pub parts: ProcParts,
    pub own_steps: ProcessSteps,
}

fn copy_of(alloc: Global, soft: &[bool]) -> Result<Vec<bool>, NoMemory>
    ensures { IfOk result (λ copy. copy.items ≡ soft.now) }
{
    let mut copy = Vec::new(alloc);
    copy.extend_from_slice(soft)?;
    Ok(copy)
}

// The process of this number.
fn plan_of(
    alloc: Global,
    number: usize,
    soft: &[bool],
    lanes: ProcessLanes,
    own_steps: ProcessSteps,
) -> Result<ProcessPlan, NoMemory>
    requires { number < 32 }
    ensures { IfOk result (IsPlanOf soft.now number lanes own_steps) }
{
    let soft = copy_of(alloc, soft)?;
    let parts = ProcParts {
        number: number as u32,
        mailbox: lanes.mailbox,
        lanes: lanes.lanes,
        seats: lanes.seats,
        soft,
    };
    Ok(ProcessPlan { parts, own_steps })
}

/// The processes of a run, by their numbers. `soft` says of each port whether its driver takes forced commands while the port is busy.
pub fn process_plans(
    alloc: Global,
    soft: &[bool],
    processes: Vec<ProcessLanes>,
    process_steps: Vec<ProcessSteps>,
) -> Result<Vec<ProcessPlan>, NoMemory>
    requires many { length process_steps.items ≡ length processes.items }
    requires few { length processes.items ≤ 32 }
    ensures { IfOk result (λ plans. ArePlansOf soft.now processes.items process_steps.items plans.items) }
{
    let many = processes.len();
    let mut processes = processes.into_iter();
    let mut process_steps = process_steps.into_iter();
    let mut plans = Vec::new(alloc);
    'processes: for number in 0..many {
        let lanes = next_of(&mut processes);
        let own_steps = next_of(&mut process_steps);
        let plan = plan_of(alloc, number, soft, lanes, own_steps)?;
        plans.push(plan)?;
    }
    Ok(plans)
}
