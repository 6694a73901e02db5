ghost use Rattle.std.specs.Prelude.{◌≡◌, ◌<◌, IfOk};
ghost use Rattle.std.specs.List.{flat_map};
ghost use Rattle.script_plan.specs.Plan.{IsPlan};
ghost use Rattle.script_load.specs.Load.{load_plan, steps_of, values as all_values, processes as all_processes};

use crate::names::{ports, processes};
use crate::numbers::values;
use crate::steps::put_steps;
use no_memory::NoMemory;
use script_plan::{Script, ScriptParts, Step};
use std::alloc::Global;

/// How many commands all processes have together.
const ALL_COMMANDS: usize = 16_000;

/// How many steps all processes have together: four of them wait behind their commands.
const ALL_STEPS: usize = ALL_COMMANDS + 4;

/// The script of the load generator of this number: the processes a0 to a7, the echo ports q0 to q3 of the first four, and of each
/// process 2,000 commands of 1 to 64 bytes to ports that follow from the number. Behind its commands each of the first four processes waits for
/// as many messages of its own port as commands go to it. Declarations and steps stand in lines of their own, from line 1.
pub fn load_script(alloc: Global, number: u64) -> Result<Script, NoMemory>
    ensures plan { IfOk result (λ s. s ≡ load_plan number) }
    ensures is_plan { IfOk result IsPlan }
{
    Ok(Script::new(ScriptParts {
        processes: processes(alloc)?,
        ports: ports(alloc)?,
        saves: Vec::new(alloc),
        journal: None,
        steps: steps(alloc, number)?,
    }))
}

/// The steps of all processes.
fn steps(alloc: Global, number: u64) -> Result<Vec<Step>, NoMemory>
    ensures { IfOk result (λ v. v.items ≡ flat_map (steps_of (all_values 16000 number)) all_processes) }
{
    let xs = values(alloc, ALL_COMMANDS, number)?;
    let mut steps = Vec::with_capacity(alloc, ALL_STEPS)?;
    for process in 0..8 {
        put_steps(alloc, &mut steps, xs.as_slice(), process)?;
    }
    Ok(steps)
}
