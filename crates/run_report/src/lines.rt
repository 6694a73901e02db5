//! The lines of the commands that run nothing.
ghost use Rattle.std.specs.Prelude.{◌≡◌, IfOk};
ghost use Rattle.run_report.specs.Lines.{check_text_of, replay_text_of, rows_of};

use crate::counts::checked_sum;
use journal_text::PortReport;
use no_memory::NoMemory;
use script_plan::Script;
use std::alloc::Global;

/// What `check` says of a script: how many processes, ports and steps it has, in one line ended with byte 10.
pub fn check_text(alloc: Global, script: &Script) -> Result<Vec<u8>, NoMemory>
    ensures { IfOk result (λ text. text.items ≡ check_text_of script.now) }
{
    let processes = script.processes().len();
    let ports = script.ports().len();
    let steps = script.steps().len();
    let text = format!(in alloc; "ok processes={processes} ports={ports} steps={steps}\n")?;
    Ok(text.into_bytes())
}

/// What `replay` says of a journal whose ports are all lawful: how many ports it has, and how many rows they have together, in one line
/// ended with byte 10. A number of rows above 2^64 - 1 is answered as want of memory.
pub fn replay_text(alloc: Global, ports: &[PortReport]) -> Result<Vec<u8>, NoMemory>
    ensures { IfOk result (λ text. text.items ≡ replay_text_of ports.now) }
{
    let rows = count_rows(ports)?;
    let ports = ports.len();
    let text = format!(in alloc; "legal ports={ports} rows={rows}\n")?;
    Ok(text.into_bytes())
}

/// How many rows the ports have together.
fn count_rows(ports: &[PortReport]) -> Result<u64, NoMemory>
    ensures { IfOk result (λ rows. rows ≡ rows_of ports.now) }
{
    let mut rows = 0;
    for port in ports {
        rows = checked_sum(rows, port.journal.rows.as_slice().len() as u64)?;
    }
    Ok(rows)
}
