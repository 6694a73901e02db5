//! How many commands each process put, as the rows of the ports tell.
ghost use Rattle.std.specs.Prelude.{◌==◌, ◌&&◌, OnOk, if◌then◌else◌};
ghost use Rattle.port_model.specs.Signals.{is_command};
ghost use Rattle.port_history.specs.Opening.{is_process};
ghost use Rattle.run_report.specs.Processes.{HasMore, is_command_of};

use crate::counts::checked_sum;
use no_memory::NoMemory;
use port_model::{Row, Sender, Signal};

/// Counts the command of a row, if it has one, for the process that put it.
pub(crate) fn count_row(commands: &mut Vec<u64>, row: &Row) -> Result<(), NoMemory>
    ensures { OnOk result (HasMore (λ process. if is_command_of process row.now then 1 else 0) commands.old.items commands.new.items) }
{
    match row {
        Row::Handled { from, task, .. } | Row::Late { from, task, .. } => {
            count_signal(commands, *from, task.signal())
        }
        Row::Listed { .. } | Row::Resumed { .. } | Row::Mark(_) => Ok(()),
    }
}

/// Counts a command for its sender, and nothing for another signal.
fn count_signal(commands: &mut Vec<u64>, from: Sender, signal: &Signal) -> Result<(), NoMemory>
    ensures { OnOk result (HasMore (λ process. if is_command signal.now && is_process process from then 1 else 0) commands.old.items commands.new.items) }
{
    match from {
        Sender::Process(process) if signal.is_command() => count_one(commands, process as usize),
        _ => Ok(()),
    }
}

/// Counts one more at this place, where there is one.
fn count_one(commands: &mut Vec<u64>, place: usize) -> Result<(), NoMemory>
    ensures { OnOk result (HasMore (λ process. if place == process then 1 else 0) commands.old.items commands.new.items) }
{
    if place < commands.len() {
        commands[place] = checked_sum(commands[place], 1)?;
    }
    Ok(())
}
