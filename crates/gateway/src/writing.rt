ghost use Rattle.std.specs.Prelude.{◌<◌, ◌≤◌, length, All};
ghost use Rattle.run_laws.specs.run_output.Ends.{sink_view};
ghost use Rattle.run_laws.specs.run_output.Reported.{report_of as reported};
ghost use Rattle.run_report.specs.Ports.{HasEnded};
ghost use Rattle.script_input.specs.Files.{files_view};
ghost use Rattle.script_input.specs.Words.{source_of};
ghost use Rattle.gateway.specs.Ran.{PutOut};
ghost use Rattle.gateway.specs.Stages.{WriteEnds};

use outside::{Files, Sink};
use run_laws::{OutputFault, ScriptRan, report_of, write_output, write_summary};
use run_report::{Cause, Report};
use script_input::{RunNames, RunSource, RunWrites};
use std::alloc::Global;

/// By what it is told what a run puts out: where its script comes from, and what the script writes.
#[derive(Drop)]
pub struct Output<'a> {
    pub source: RunSource<'a>,
    pub writes: RunWrites,
}

/// How a run ended that was made: why, and its report where memory was found for it.
pub struct Written {
    pub cause: Cause,
    pub report: Option<Report>,
}

/// Puts out what a run left: of the script of a file its saves, its journal and the report, of a load its summary alone.
fn put_out<F: Files, K: Sink>(
    alloc: Global,
    files: &mut F,
    out: &mut K,
    output: &Output<'_>,
    report: &Report,
) -> Result<(), OutputFault>
    requires saves { All (λ s. s.process < length report.now.processes) output.now.writes.saves.items }
    requires ended { All (HasEnded (length report.now.processes)) report.now.ports }
    ensures { PutOut (source_of output.now.source) output.now.writes report.now (files_view F.told F.answered F.wrote F.reads F.writes files.old)
        (files_view F.told F.answered F.wrote F.reads F.writes files.new) (sink_view K.written K.took K.faults out.old) (sink_view K.written K.took K.faults out.new) result }
{
    match output.source {
        RunSource::File { .. } => write_output(alloc, files, out, &output.writes, report),
        RunSource::Load { number } => write_summary(alloc, out, number, report),
    }
}

/// Reports what a run left, and puts it out.
pub fn write_left<F: Files, K: Sink>(
    alloc: Global,
    files: &mut F,
    out: &mut K,
    names: RunNames,
    output: &Output<'_>,
    left: ScriptRan,
) -> Written
    requires ports { length names.ports.items ≤ 1048576 }
    requires processes { length names.processes.items ≤ 1048576 }
    requires saves { All (λ s. s.process < length (reported names left).processes) output.now.writes.saves.items }
    requires ended { All (HasEnded (length (reported names left).processes)) (reported names left).ports }
    ensures { WriteEnds (source_of output.now.source) output.now.writes (reported names left) (files_view F.told F.answered F.wrote F.reads F.writes files.old)
        (files_view F.told F.answered F.wrote F.reads F.writes files.new) (sink_view K.written K.took K.faults out.old) (sink_view K.written K.took K.faults out.new) result.cause result.report }
{
    let Ok(report) = report_of(alloc, names, left) else {
        return Written {
            cause: Cause::NoMemory,
            report: None,
        };
    };
    match put_out(alloc, files, out, output, &report) {
        Ok(()) => Written {
            cause: Cause::Done,
            report: Some(report),
        },
        Err(OutputFault::WriteFault) => Written {
            cause: Cause::WriteFault,
            report: Some(report),
        },
        Err(OutputFault::NoMemory) => Written {
            cause: Cause::NoMemory,
            report: None,
        },
    }
}
