//! The replay of a journal.
ghost use Rattle.std.specs.Prelude.{◌≡◌, true, IfOk, IfErr};
ghost use Rattle.journal_text.specs.Books.{is_book};
ghost use Rattle.program_io.specs.Files.{files_view, NothingWritten};
ghost use Rattle.program_io.specs.Sink.{sink_view};
ghost use Rattle.run_report.specs.Lines.{replay_text_of};
ghost use Rattle.plain_command.specs.Journals.{JournalRead, JournalEnds};
ghost use Rattle.plain_command.specs.Stages.{JudgeEnds, PrintEnds, ReplayEnds};

use crate::printing::put_line;
use history_replay::{Book, PortReport, Verdict, replay};
use journal_text::{JournalFault, read_journal};
use outside::{Files, Sink};
use program_io::{input_cause, read_file};
use run_report::{Cause, replay_text};
use std::alloc::Global;

/// The most bytes of a journal.
const MAX_JOURNAL: u64 = 268_435_456;

/// Reads the journal of this name, and gives back what its text took.
fn read_book<F: Files>(alloc: Global, files: &mut F, name: &str) -> Result<Book, Cause>
    ensures read { IfOk result (JournalRead (files_view F.told F.answered F.wrote F.reads F.writes files.old)
        (files_view F.told F.answered F.wrote F.reads F.writes files.new) name.now) }
    ensures fault { IfErr result (JournalEnds (files_view F.told F.answered F.wrote F.reads F.writes files.old)
        (files_view F.told F.answered F.wrote F.reads F.writes files.new) name.now) }
    ensures files { NothingWritten (files_view F.told F.answered F.wrote F.reads F.writes files.old)
        (files_view F.told F.answered F.wrote F.reads F.writes files.new) }
{
    let bytes = match read_file(alloc, files, name, 0, MAX_JOURNAL) {
        Ok(bytes) => bytes,
        Err(fault) => return Err(input_cause(fault)),
    };
    match read_journal(alloc, bytes.as_slice()) {
        Ok(book) => Ok(book),
        Err(JournalFault::NotAJournal { at }) => Err(Cause::JournalText { at }),
        Err(JournalFault::NoMemory) => Err(Cause::NoMemory),
    }
}

/// Puts out how many ports and how many rows a legal journal has.
fn print_legal<K: Sink>(alloc: Global, out: &mut K, ports: &[PortReport]) -> Cause
    ensures { PrintEnds (replay_text_of ports.now) (sink_view K.written K.took K.faults out.old) (sink_view K.written K.took K.faults out.new) result }
{
    match replay_text(alloc, ports) {
        Ok(line) => put_line(out, line.as_slice()),
        Err(_) => Cause::NoMemory,
    }
}

/// Judges the histories of a journal, and puts out its line if they are legal.
fn judge<K: Sink>(alloc: Global, out: &mut K, book: &Book) -> Cause
    ensures book { is_book book.now ≡ true }
    ensures ends { JudgeEnds book.now (sink_view K.written K.took K.faults out.old) (sink_view K.written K.took K.faults out.new) result }
{
    let ports = book.ports();
    match replay(alloc, book) {
        Ok(Verdict::Legal) => print_legal(alloc, out, ports),
        Ok(Verdict::Illegal { port, row, law }) => Cause::Illegal { port, row, law },
        Err(_) => Cause::NoMemory,
    }
}

/// Reads the journal of this name, judges its histories, and puts out its line if they are legal.
pub(crate) fn replay_journal<F: Files, K: Sink>(
    alloc: Global,
    files: &mut F,
    out: &mut K,
    name: &str,
) -> Cause
    ensures cause { ReplayEnds name.now (files_view F.told F.answered F.wrote F.reads F.writes files.old) (files_view F.told F.answered F.wrote F.reads F.writes files.new)
        (sink_view K.written K.took K.faults out.old) (sink_view K.written K.took K.faults out.new) result }
    ensures files { NothingWritten (files_view F.told F.answered F.wrote F.reads F.writes files.old) (files_view F.told F.answered F.wrote F.reads F.writes files.new) }
{
    match read_book(alloc, files, name) {
        Ok(book) => judge(alloc, out, &book),
        Err(cause) => cause,
    }
}
