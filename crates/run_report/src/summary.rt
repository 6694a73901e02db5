ghost use Rattle.std.specs.Prelude.{◌≡◌, ◌++◌, ℕ, All, IfOk, OnOk, length, map, string_bytes};
ghost use Rattle.std.specs.List.{flat_map};
ghost use Rattle.run_report.specs.Ports.{IsOfProcesses, counts_of};
ghost use Rattle.run_report.specs.Report.{load_head, load_line, summary_of, totals_of};

use crate::counting::count_ports;
use crate::counts::{PortCounts, checked_sum};
use crate::report::Report;
use journal_text::PortReport;
use no_memory::NoMemory;
use std::alloc::Global;

/// What the rows of all ports come to.
#[derive(Drop)]
pub struct Totals {
    pub commands: u64,
    pub late: u64,
    pub bytes: u64,
}

/// The summary of a load of this number: a line with the sums over the ports, and a line for each port, each ended with byte 10.
///
/// The rows of each port are gone through once. A sum above 2^64 - 1 is answered as want of memory.
pub fn load_text(alloc: Global, number: u64, report: &Report) -> Result<Vec<u8>, NoMemory>
    requires { All (IsOfProcesses (length report.now.processes)) report.now.ports }
    ensures { IfOk result (λ text. text.items ≡ summary_of number report.now) }
{
    let ports = report.ports.as_slice();
    let counts = count_ports(alloc, report.processes.as_slice().len(), ports)?;
    let mut text = head_text(alloc, number, &add_up(&counts.ports)?)?;
    write_lines(&mut text, ports, &counts.ports)?;
    Ok(text.into_bytes())
}

/// The line with the sums.
fn head_text(alloc: Global, number: u64, totals: &Totals) -> Result<String, NoMemory>
    ensures { IfOk result (λ text. string_bytes text ≡ load_head number totals.now) }
{
    let Totals {
        commands,
        late,
        bytes,
    } = totals;
    Ok(format!(in alloc; "load number={number} commands={commands} late={late} bytes={bytes}\n")?)
}

/// The sums over the ports.
fn add_up(counts: &[PortCounts]) -> Result<Totals, NoMemory>
    ensures { IfOk result (λ totals. totals ≡ totals_of counts.now) }
{
    let mut totals = Totals {
        commands: 0,
        late: 0,
        bytes: 0,
    };
    for port in counts {
        totals.commands = checked_sum(totals.commands, port.commands)?;
        totals.late = checked_sum(totals.late, port.late)?;
        totals.bytes = checked_sum(totals.bytes, port.bytes)?;
    }
    Ok(totals)
}

/// Writes the line of each port, of so many processes, with what its rows come to.
fn write_lines(
    text: &mut String,
    ports: &[PortReport],
    counts: &[PortCounts],
) -> Result<(), NoMemory>
    requires { length counts.now ≡ length ports.now }
    ensures { OnOk result ((processes : ℕ) → counts.now ≡ map (counts_of processes) ports.now → string_bytes text.new ≡ string_bytes text.old ++ flat_map (λ port. load_line port (counts_of processes port)) ports.now) }
{
    for (place, port) in ports.iter().enumerate() {
        write_line(text, port, &counts[place])?;
    }
    Ok(())
}

fn write_line(text: &mut String, port: &PortReport, counts: &PortCounts) -> Result<(), NoMemory>
    ensures { OnOk result (string_bytes text.new ≡ string_bytes text.old ++ load_line port.now counts.now) }
{
    let name = port.name.as_str();
    let PortCounts {
        commands,
        bytes,
        ..
    } = counts;
    writeln!(text, "port {name} commands={commands} bytes={bytes}")?;
    Ok(())
}
