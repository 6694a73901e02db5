ghost use Rattle.std.specs.Prelude.{◌≡◌, ◌≤◌, length, IfOk};
ghost use Rattle.run_output.specs.Reported.{port_report, port_reports, process_report, process_reports, report_of as reported};

use no_memory::NoMemory;
use port_model::{Items, Reason};
use run_report::{Mails, PortReport, ProcessRecord, Report};
use script_input::{PortName, RunNames};
use script_run::{PortLeft, ProcessLeft, ScriptRan};
use std::alloc::Global;

/// A port as it is declared, with what it left.
fn report_port(name: PortName, left: PortLeft) -> PortReport
    ensures { result ≡ port_report name left }
{
    let PortName {
        name,
        driver,
        owner,
        ..
    } = name;
    let PortLeft {
        config,
        events,
        journal,
    } = left;
    PortReport {
        name,
        driver,
        owner,
        config,
        events,
        journal,
    }
}

/// A process by its name, with what it left.
fn report_process(name: Reason, left: ProcessLeft) -> ProcessRecord
    ensures { result ≡ process_report name left }
{
    let ProcessLeft { receipts, mails } = left;
    ProcessRecord {
        name,
        receipts,
        mails: Mails::of_vec(mails),
    }
}

fn report_ports(
    alloc: Global,
    names: Vec<PortName>,
    lefts: Vec<PortLeft>,
) -> Result<Vec<PortReport>, NoMemory>
    ensures { IfOk result (λ told. told.items ≡ port_reports names.items lefts.items) }
{
    let mut told = Vec::new(alloc);
    for (name, left) in names.into_iter().zip(lefts) {
        told.push(report_port(name, left))?;
    }
    Ok(told)
}

fn report_processes(
    alloc: Global,
    names: Vec<Reason>,
    lefts: Vec<ProcessLeft>,
) -> Result<Vec<ProcessRecord>, NoMemory>
    ensures { IfOk result (λ told. told.items ≡ process_reports names.items lefts.items) }
{
    let mut told = Vec::new(alloc);
    for (name, left) in names.into_iter().zip(lefts) {
        told.push(report_process(name, left))?;
    }
    Ok(told)
}

/// The report of what the ports and the processes of these names left.
pub fn report_of(alloc: Global, names: RunNames, ran: ScriptRan) -> Result<Report, NoMemory>
    requires ports { length names.ports.items ≤ 1048576 }
    requires processes { length names.processes.items ≤ 1048576 }
    ensures { IfOk result (λ report. report ≡ reported names ran) }
{
    let ports = report_ports(alloc, names.ports, ran.ports)?;
    let processes = report_processes(alloc, names.processes, ran.processes)?;
    Ok(Report {
        ports: Items::of_vec(ports),
        processes: Items::of_vec(processes),
    })
}
