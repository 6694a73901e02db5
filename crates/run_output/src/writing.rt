ghost use Rattle.std.specs.Prelude.{◌≡◌, ◌<◌, [], ◌∷◌, map, length, All, IfOk};
ghost use Rattle.std.specs.List.{flat_map};
ghost use Rattle.run_report.specs.Ports.{HasEnded, IsOfProcesses};
ghost use Rattle.run_report.specs.Report.{summary_of, text_of};
ghost use Rattle.run_output.specs.Ends.{sink_view, FilesEnd, OutputEnds, TextEnds};
ghost use Rattle.script_input.specs.Files.{files_view};
ghost use Rattle.run_output.specs.Writes.{journal_write, save_write, writes_of};

use journal_text::print_histories;
use no_memory::NoMemory;
use outside::{FileFault, Files, Sink};
use port_model::Reason;
use run_report::{ProcessRecord, Report, load_text, report_text, saved_parts};
use script_input::RunWrites;
use script_plan::SaveDecl;
use std::alloc::Global;

/// Why what a run left wasn't written whole.
#[derive(Clone, Copy, Debug, PartialEq, Eq)]
pub enum OutputFault {
    /// A file wasn't written, or the sink didn't take the text of the report.
    WriteFault,
    /// An allocation was refused.
    NoMemory,
}

impl From<NoMemory> for OutputFault {
    ghost use Rattle.run_output.specs.declared.writing.OutputFault.TheVariants as fault;

    ghost from_gives = { λ _ f. f ≡ fault.NoMemory };

    fn from(_: NoMemory) -> OutputFault {
        OutputFault::NoMemory
    }
}

/// Makes these parts, joined, the whole file of this name.
fn write_file<F: Files>(
    alloc: Global,
    files: &mut F,
    name: &str,
    parts: &[&[u8]],
) -> Result<(), OutputFault>
    ensures { FilesEnd (record { name = name.now; bytes = flat_map (λ part. part.now) parts.now } ∷ [])
        (files_view F.told F.answered F.wrote F.reads F.writes files.old) (files_view F.told F.answered F.wrote F.reads F.writes files.new) result }
{
    match files.write(alloc, name, parts) {
        Ok(()) => Ok(()),
        Err(FileFault::NoMemory) => Err(OutputFault::NoMemory),
        Err(FileFault::Failed) => Err(OutputFault::WriteFault),
        Err(FileFault::Over | FileFault::Missing) => unreachable!(),
    }
}

/// Writes the data that a process got from a port.
fn write_save<F: Files>(
    alloc: Global,
    files: &mut F,
    report: &Report,
    save: &SaveDecl,
) -> Result<(), OutputFault>
    requires { save.now.process < length report.now.processes }
    ensures { FilesEnd (save_write report.now save.now ∷ [])
        (files_view F.told F.answered F.wrote F.reads F.writes files.old) (files_view F.told F.answered F.wrote F.reads F.writes files.new) result }
{
    let process = &report.processes.as_slice()[save.process as usize];
    let parts = saved_parts(alloc, save.port, &process.mails)?;
    write_file(alloc, files, save.file.as_str(), parts.as_slice())
}

fn write_saves<F: Files>(
    alloc: Global,
    files: &mut F,
    report: &Report,
    saves: &[SaveDecl],
) -> Result<(), OutputFault>
    requires { All (λ s. s.process < length report.now.processes) saves.now }
    ensures { FilesEnd (map (save_write report.now) saves.now)
        (files_view F.told F.answered F.wrote F.reads F.writes files.old) (files_view F.told F.answered F.wrote F.reads F.writes files.new) result }
{
    for save in saves {
        write_save(alloc, files, report, save)?;
    }
    Ok(())
}

/// Writes the journal of all ports to the file of this name.
fn write_journal<F: Files>(
    alloc: Global,
    files: &mut F,
    report: &Report,
    name: &str,
) -> Result<(), OutputFault>
    ensures { FilesEnd (journal_write report.now name.now ∷ [])
        (files_view F.told F.answered F.wrote F.reads F.writes files.old) (files_view F.told F.answered F.wrote F.reads F.writes files.new) result }
{
    let names = process_names(alloc, report.processes.as_slice())?;
    let text = print_histories(alloc, names.as_slice(), report.ports.as_slice())?;
    write_file(alloc, files, name, &[text.as_slice()])
}

/// The names of these processes, in their order.
fn process_names(alloc: Global, processes: &[ProcessRecord]) -> Result<Vec<Reason>, NoMemory>
    ensures { IfOk result (λ names. names.items ≡ map (λ p. p.name) processes.now) }
{
    let mut names = Vec::new(alloc);
    for process in processes {
        names.push(process.name.same())?;
    }
    Ok(names)
}

/// Writes the files: the saves, in the order of the script, and then the journal.
fn write_files<F: Files>(
    alloc: Global,
    files: &mut F,
    writes: &RunWrites,
    report: &Report,
) -> Result<(), OutputFault>
    requires { All (λ s. s.process < length report.now.processes) writes.now.saves.items }
    ensures { FilesEnd (writes_of writes.now report.now)
        (files_view F.told F.answered F.wrote F.reads F.writes files.old) (files_view F.told F.answered F.wrote F.reads F.writes files.new) result }
{
    write_saves(alloc, files, report, writes.saves.as_slice())?;
    match &writes.journal {
        Some(name) => write_journal(alloc, files, report, name.as_str()),
        None => Ok(()),
    }
}

fn put_text<K: Sink>(out: &mut K, text: &[u8]) -> Result<(), OutputFault>
    ensures { TextEnds text.now (sink_view K.written K.took K.faults out.old) (sink_view K.written K.took K.faults out.new) result }
{
    match out.put(text) {
        Ok(()) => Ok(()),
        Err(_) => Err(OutputFault::WriteFault),
    }
}

/// Puts the text of a report.
fn write_report<K: Sink>(alloc: Global, out: &mut K, report: &Report) -> Result<(), OutputFault>
    requires { All (HasEnded (length report.now.processes)) report.now.ports }
    ensures { TextEnds (text_of report.now) (sink_view K.written K.took K.faults out.old) (sink_view K.written K.took K.faults out.new) result }
{
    let text = report_text(alloc, report)?;
    put_text(out, text.as_slice())
}

/// Puts the summary of the load of this number, and touches no file.
pub fn write_summary<K: Sink>(
    alloc: Global,
    out: &mut K,
    number: u64,
    report: &Report,
) -> Result<(), OutputFault>
    requires { All (IsOfProcesses (length report.now.processes)) report.now.ports }
    ensures { TextEnds (summary_of number report.now) (sink_view K.written K.took K.faults out.old) (sink_view K.written K.took K.faults out.new) result }
{
    let text = load_text(alloc, number, report)?;
    put_text(out, text.as_slice())
}

/// Writes what a run left: the data that is saved, in the order of the script, then the journal, and at last the text of the report.
///
/// The first fault ends it. So the report is put out only where each file was written.
pub fn write_output<F: Files, K: Sink>(
    alloc: Global,
    files: &mut F,
    out: &mut K,
    writes: &RunWrites,
    report: &Report,
) -> Result<(), OutputFault>
    requires saves { All (λ s. s.process < length report.now.processes) writes.now.saves.items }
    requires ended { All (HasEnded (length report.now.processes)) report.now.ports }
    ensures { OutputEnds (writes_of writes.now report.now) (text_of report.now)
        (files_view F.told F.answered F.wrote F.reads F.writes files.old) (files_view F.told F.answered F.wrote F.reads F.writes files.new)
        (sink_view K.written K.took K.faults out.old) (sink_view K.written K.took K.faults out.new) result }
{
    write_files(alloc, files, writes, report)?;
    write_report(alloc, out, report)
}
