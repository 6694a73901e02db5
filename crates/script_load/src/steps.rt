//! The steps of each process.

ghost use Rattle.std.specs.Prelude.{◌≡◌, ◌+◌, ◌*◌, ◌<◌, ◌++◌, length, min, OnOk};
ghost use Rattle.script_load.specs.Load.{commands, waits, steps_of};

use crate::numbers::{bytes_of, command_count, port_of};
use no_memory::NoMemory;
use script_plan::{Act, Step};
use std::alloc::Global;

/// How many commands each process has.
const COMMANDS: usize = 2_000;

/// Puts the commands of a process, the first of which stands in this line.
fn put_commands(
    alloc: Global,
    steps: &mut Vec<Step>,
    line: u32,
    process: u32,
    xs: &[u64],
) -> Result<(), NoMemory>
    requires process { process < 8 }
    requires lines { line + length xs.now < 4294967296 }
    ensures { OnOk result (steps.new.items ≡ steps.old.items ++ commands line process xs.now) }
{
    for (place, x) in xs.iter().enumerate() {
        let bytes = bytes_of(alloc, process, *x)?;
        steps.push(Step {
            line: line + place as u32,
            process,
            act: Act::Command {
                port: port_of(*x),
                bytes,
                force: false,
                nosuspend: false,
            },
        })?;
    }
    Ok(())
}

/// Puts the wait of a process for what its own port sends, if it has one.
fn put_wait(steps: &mut Vec<Step>, line: u32, process: u32, xs: &[u64]) -> Result<(), NoMemory>
    ensures { OnOk result (steps.new.items ≡ steps.old.items ++ waits line process xs.now) }
{
    if process < 4 {
        steps.push(Step {
            line,
            process,
            act: Act::Expect {
                port: process,
                count: command_count(process, xs) as u64,
            },
        })?;
    }
    Ok(())
}

/// Puts the steps of a process, where these are the numbers of all commands.
pub(crate) fn put_steps(
    alloc: Global,
    steps: &mut Vec<Step>,
    xs: &[u64],
    process: u32,
) -> Result<(), NoMemory>
    requires process { process < 8 }
    requires all { length xs.now ≡ 16000 }
    ensures { OnOk result (steps.new.items ≡ steps.old.items ++ steps_of xs.now process) }
{
    let line = 13 + 2_000 * process + process.min(4);
    let first = COMMANDS * process as usize;
    put_commands(alloc, steps, line, process, &xs[first..first + COMMANDS])?;
    put_wait(steps, line + 2_000, process, xs)
}
