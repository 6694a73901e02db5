//! The check of a script.
ghost use Rattle.program_io.specs.Files.{files_view, NothingWritten};
ghost use Rattle.program_io.specs.Sink.{sink_view};
ghost use Rattle.run_report.specs.Lines.{check_text_of};
ghost use Rattle.plain_command.specs.Stages.{CheckEnds, PrintEnds};

use crate::printing::put_line;
use outside::{Files, Sink};
use program_io::{Script, input_cause, read_run_script};
use run_report::{Cause, check_text};
use std::alloc::Global;

/// Puts out how many processes, ports and steps a script has.
fn print_counts<K: Sink>(alloc: Global, out: &mut K, script: &Script) -> Cause
    ensures { PrintEnds (check_text_of script.now) (sink_view K.written K.took K.faults out.old) (sink_view K.written K.took K.faults out.new) result }
{
    match check_text(alloc, script) {
        Ok(line) => put_line(out, line.as_slice()),
        Err(_) => Cause::NoMemory,
    }
}

/// Reads the script of this name, and puts out how many processes, ports and steps it has.
pub(crate) fn check_script<F: Files, K: Sink>(
    alloc: Global,
    files: &mut F,
    out: &mut K,
    name: &str,
) -> Cause
    ensures cause { CheckEnds name.now (files_view F.told F.answered F.wrote F.reads F.writes files.old) (files_view F.told F.answered F.wrote F.reads F.writes files.new)
        (sink_view K.written K.took K.faults out.old) (sink_view K.written K.took K.faults out.new) result }
    ensures files { NothingWritten (files_view F.told F.answered F.wrote F.reads F.writes files.old) (files_view F.told F.answered F.wrote F.reads F.writes files.new) }
{
    match read_run_script(alloc, files, name) {
        Ok(script) => print_counts(alloc, out, &script),
        Err(fault) => input_cause(fault),
    }
}
