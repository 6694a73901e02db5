//! The line of a command is put out, and the cause answered.
ghost use Rattle.program_io.specs.Sink.{sink_view};
ghost use Rattle.plain_command.specs.Stages.{PrintEnds};

use outside::Sink;
use run_report::Cause;

/// Puts out the line of a command.
pub(crate) fn put_line<K: Sink>(out: &mut K, line: &[u8]) -> Cause
    ensures { PrintEnds line.now (sink_view K.written K.took K.faults out.old) (sink_view K.written K.took K.faults out.new) result }
{
    match out.put(line) {
        Ok(()) => Cause::Done,
        Err(_) => Cause::WriteFault,
    }
}
