//! What the rows of all ports come to.
ghost use Rattle.std.specs.Prelude.{◌≡◌, ◌≤◌, ℕ, ◌<◌, All, IfOk, OnOk, length, map, get_or, count_by};
ghost use Rattle.port_signal.specs.declared.items.TheConstants.{MAX_ITEMS};
ghost use Rattle.run_report.specs.Ports.{IsOfProcesses, counts_of};
ghost use Rattle.run_report.specs.Processes.{HasMore, commands_of, is_command_of};

use crate::counts::PortCounts;
use crate::senders::count_row;
use crate::walk::PortWalk;
use journal_text::PortReport;
use no_memory::NoMemory;
use std::alloc::Global;

/// What the rows of the ports come to.
#[derive(Drop)]
pub(crate) struct RunCounts {
    /// What those of each port come to.
    pub(crate) ports: Vec<PortCounts>,
    /// How many commands each process put, over the histories of all ports.
    pub(crate) commands: Vec<u64>,
}

/// Goes through the rows of each port once.
pub(crate) fn count_ports(
    alloc: Global,
    processes: usize,
    ports: &[PortReport],
) -> Result<RunCounts, NoMemory>
    requires few { processes ≤ MAX_ITEMS }
    requires known { All (IsOfProcesses processes) ports.now }
    ensures ports { IfOk result (λ counts. counts.ports.items ≡ map (counts_of processes) ports.now) }
    ensures places { IfOk result (λ counts. length counts.commands.items ≡ processes) }
    ensures commands { IfOk result (λ counts. (process : ℕ) → process < processes → get_or counts.commands.items process 0 ≡ commands_of process ports.now) }
{
    let mut commands = vec![in alloc; 0; processes]?;
    let mut counts = Vec::new(alloc);
    for port in ports {
        counts.push(count_port(alloc, processes as u32, port, &mut commands)?)?;
    }
    Ok(RunCounts {
        ports: counts,
        commands,
    })
}

/// Goes through the rows of a port once.
fn count_port(
    alloc: Global,
    processes: u32,
    port: &PortReport,
    commands: &mut Vec<u64>,
) -> Result<PortCounts, NoMemory>
    requires { IsOfProcesses processes port.now }
    ensures counts { IfOk result (λ counts. counts ≡ counts_of processes port.now) }
    ensures commands { OnOk result (HasMore (λ process. count_by (is_command_of process) port.now.journal.rows) commands.old.items commands.new.items) }
{
    let mut walk = PortWalk::new(alloc, port.owner, processes)?;
    for row in port.journal.rows.as_slice() {
        walk.take(row)?;
        count_row(commands, row)?;
    }
    Ok(walk.into_counts())
}
