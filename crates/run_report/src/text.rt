ghost use Rattle.std.specs.Prelude.{◌≡◌, ◌<◌, ◌++◌, ℕ, List, All, IfOk, OnOk, IsSome, length, map, get_or, string_bytes};
ghost use Rattle.std.specs.List.{flat_map, enumerate_from};
ghost use Rattle.journal_text.specs.declared.book.PortReport.{PortReport as PortValue};
ghost use Rattle.run_report.specs.Ports.{HasEnded, counts_of};
ghost use Rattle.run_report.specs.Processes.{commands_of};
ghost use Rattle.run_report.specs.Report.{port_line, process_line, text_of};

use crate::counting::count_ports;
use crate::counts::PortCounts;
use crate::data::{DataSummary, data_summary};
use crate::receipts::{dropped_receipts, suspended_receipts};
use crate::report::{ProcessRecord, Report};
use journal_text::PortReport;
use no_memory::NoMemory;
use std::alloc::Global;

/// The text of a report: a line for the whole, a line for each port and a line for each process, each ended with byte 10.
///
/// The digest of a process's line is the SHA-256 of FIPS 180-4, in lowercase hex, of what saves of its data would write, port by
/// port. The rows of each port are gone through once, beside a table of its ties, and the mail of each process once. No data is
/// copied. A sum above 2^64 - 1 is answered as want of memory.
pub fn report_text(alloc: Global, report: &Report) -> Result<Vec<u8>, NoMemory>
    requires { All (HasEnded (length report.now.processes)) report.now.ports }
    ensures { IfOk result (λ text. text.items ≡ text_of report.now) }
{
    let ports = report.ports.as_slice();
    let processes = report.processes.as_slice();
    let counts = count_ports(alloc, processes.len(), ports)?;
    let mut text = String::new(alloc);
    writeln!(
        text,
        "report processes={} ports={}",
        processes.len(),
        ports.len()
    )?;
    write_ports(&mut text, ports, &counts.ports)?;
    write_processes(
        alloc,
        &mut text,
        ports.len() as u32,
        &counts.commands,
        processes,
    )?;
    Ok(text.into_bytes())
}

/// Writes the line of each port, of so many processes, with what its rows come to.
fn write_ports(
    text: &mut String,
    ports: &[PortReport],
    counts: &[PortCounts],
) -> Result<(), NoMemory>
    requires ended { All (λ c. IsSome c.end) counts.now }
    requires counts { length counts.now ≡ length ports.now }
    ensures { OnOk result ((processes : ℕ) → counts.now ≡ map (counts_of processes) ports.now → string_bytes text.new ≡ string_bytes text.old ++ flat_map (λ port. port_line port (counts_of processes port)) ports.now) }
{
    for (place, port) in ports.iter().enumerate() {
        write_port(text, port, &counts[place])?;
    }
    Ok(())
}

fn write_port(text: &mut String, port: &PortReport, counts: &PortCounts) -> Result<(), NoMemory>
    requires { IsSome counts.now.end }
    ensures { OnOk result (string_bytes text.new ≡ string_bytes text.old ++ port_line port.now counts.now) }
{
    let Some(end) = &counts.end else {
        unreachable!();
    };
    let name = port.name.as_str();
    let driver = port.driver.as_str();
    let PortCounts {
        commands,
        late,
        bytes,
        ..
    } = counts;
    let end = end.as_str();
    writeln!(
        text,
        "port {name} driver={driver} commands={commands} late={late} bytes={bytes} end={end}"
    )?;
    Ok(())
}

/// Writes the line of each process, with how many commands each put, among so many ports.
fn write_processes(
    alloc: Global,
    text: &mut String,
    ports: u32,
    commands: &[u64],
    processes: &[ProcessRecord],
) -> Result<(), NoMemory>
    requires { length commands.now ≡ length processes.now }
    ensures { OnOk result ((reports : List PortValue) → ports ≡ length reports → ((place : ℕ) → place < length processes.now → get_or commands.now place 0 ≡ commands_of place reports)
        → string_bytes text.new ≡ string_bytes text.old ++ flat_map (λ p. process_line reports p.0 p.1) (enumerate_from 0 processes.now)) }
{
    for (place, process) in processes.iter().enumerate() {
        write_process(alloc, text, ports, commands[place], process)?;
    }
    Ok(())
}

/// Writes the line of a process that put so many commands, among so many ports.
fn write_process(
    alloc: Global,
    text: &mut String,
    ports: u32,
    commands: u64,
    process: &ProcessRecord,
) -> Result<(), NoMemory>
    ensures { OnOk result ((reports : List PortValue) (place : ℕ) → ports ≡ length reports → commands ≡ commands_of place reports → string_bytes text.new ≡ string_bytes text.old ++ process_line reports place process.now) }
{
    let receipts = process.receipts.as_slice();
    let name = process.name.as_str();
    let dropped = dropped_receipts(receipts);
    let suspended = suspended_receipts(receipts);
    let DataSummary { messages, digest } = data_summary(alloc, ports, process.mails.as_slice())?;
    let sha256 = hex::encode(alloc, digest.as_slice())?;
    writeln!(
        text,
        "process {name} commands={commands} dropped={dropped} suspended={suspended} data={messages} sha256={sha256}"
    )?;
    Ok(())
}
