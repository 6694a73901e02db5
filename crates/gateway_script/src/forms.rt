//! The forms of a line, each read from the front of the bytes that are left.

ghost use Rattle.std.specs.Prelude.{◌≡◌};
ghost use Rattle.std.specs.List.{list_all};
ghost use Rattle.script_text.specs.PartFault.{Reads};
ghost use Rattle.gateway_script.specs.Source.{EndsAt};
ghost use Rattle.gateway_script.specs.Forms.{process_at, port_at, journal_at, save_at, step_behind, step_at, form_at, statement_of, is_printable, is_silent};

use crate::actions::{action, only_name};
use crate::config::all_suit;
use crate::options::options;
use crate::source::LineSource;
use crate::statement::Statement;
use crate::words::{free_name_of, next_file, next_free_name, next_name, next_word, spells, word};
use script_plan::Reason;
use script_text::PartFault;
use std::alloc::Global;

/// What a line says, if it has a form.
#[tactic(auto, unfolding(crate::specs::Forms::statement_of))]
pub(crate) fn statement_of(
    alloc: Global,
    source: LineSource<'_>,
    line: &[u8],
) -> Result<Statement, PartFault>
    requires { EndsAt source.text.now source.end line.now }
    ensures { Reads (λ said. said) result (statement_of line.now) }
{
    if !all_printable(line) {
        return Err(PartFault::Bad);
    }
    if is_silent(line) {
        return Ok(Statement::Nothing);
    }
    let (first, rest) = word(line);
    form(alloc, source, first, rest)
}

/// Whether a line may have each of these bytes. It looks at all of them, many at a time, since few lines have one that isn't.
fn all_printable(line: &[u8]) -> bool
    ensures { result ≡ list_all is_printable line.now }
{
    let mut printable = true;
    for byte in line {
        printable &= is_printable(*byte);
    }
    printable
}

/// Whether a line may have this byte.
fn is_printable(byte: u8) -> bool
    ensures { result ≡ is_printable byte }
{
    matches!(byte, b' '..=b'~')
}

/// Whether a line is empty or a comment.
fn is_silent(line: &[u8]) -> bool
    ensures { result ≡ is_silent line.now }
{
    match line {
        [] => true,
        [first, ..] => *first == b'#',
    }
}

/// A line by its first word.
#[tactic(auto, unfolding(crate::specs::Forms::form_at))]
fn form(
    alloc: Global,
    source: LineSource<'_>,
    first: &[u8],
    rest: &[u8],
) -> Result<Statement, PartFault>
    requires { EndsAt source.text.now source.end rest.now }
    ensures { Reads (λ said. said) result (form_at first.now rest.now) }
{
    if spells(first, "process") {
        process(rest).ok_or(PartFault::Bad)
    } else if spells(first, "port") {
        port(alloc, rest)
    } else if spells(first, "journal") {
        journal(alloc, rest)
    } else if spells(first, "save") {
        save(alloc, rest)
    } else {
        step(alloc, source, first, rest)
    }
}

/// `process NAME`, behind its first word.
#[tactic(auto, unfolding(crate::specs::Forms::process_at))]
fn process(bytes: &[u8]) -> Option<Statement>
    ensures { result ≡ process_at bytes.now }
{
    let (name, rest) = next_free_name(bytes)?;
    let [] = rest else {
        return None;
    };
    Some(Statement::Process(name))
}

/// `port NAME PROCESS DRIVER OPTIONS`, behind its first word.
#[tactic(auto, unfolding(crate::specs::Forms::port_at))]
fn port(alloc: Global, bytes: &[u8]) -> Result<Statement, PartFault>
    ensures { Reads (λ said. said) result (port_at bytes.now) }
{
    let (name, rest) = next_free_name(bytes).ok_or(PartFault::Bad)?;
    let (process, rest) = next_name(rest).ok_or(PartFault::Bad)?;
    let (driver, rest) = next_name(rest).ok_or(PartFault::Bad)?;
    let options = options(alloc, rest)?;
    if !all_suit(&driver, options.as_slice()) {
        return Err(PartFault::Bad);
    }
    Ok(Statement::Port {
        name,
        process,
        driver,
        options,
    })
}

/// `journal TEXT`, behind its first word.
#[tactic(auto, unfolding(crate::specs::Forms::journal_at))]
fn journal(alloc: Global, bytes: &[u8]) -> Result<Statement, PartFault>
    ensures { Reads (λ said. said) result (journal_at bytes.now) }
{
    let (name, rest) = next_file(alloc, bytes)?;
    let [] = rest else {
        return Err(PartFault::Bad);
    };
    Ok(Statement::Journal(name))
}

/// `save PROCESS PORT TEXT`, behind its first word.
#[tactic(auto, unfolding(crate::specs::Forms::save_at))]
fn save(alloc: Global, bytes: &[u8]) -> Result<Statement, PartFault>
    ensures { Reads (λ said. said) result (save_at bytes.now) }
{
    let (process, rest) = next_name(bytes).ok_or(PartFault::Bad)?;
    let (port, rest) = next_name(rest).ok_or(PartFault::Bad)?;
    let (name, rest) = next_file(alloc, rest)?;
    let [] = rest else {
        return Err(PartFault::Bad);
    };
    Ok(Statement::Save {
        process,
        port,
        name,
    })
}

/// A step, behind the name of its process.
#[tactic(auto, unfolding(crate::specs::Forms::step_at))]
fn step(
    alloc: Global,
    source: LineSource<'_>,
    process: &[u8],
    bytes: &[u8],
) -> Result<Statement, PartFault>
    requires { EndsAt source.text.now source.end bytes.now }
    ensures { Reads (λ said. said) result (step_at process.now bytes.now) }
{
    let process = free_name_of(process).ok_or(PartFault::Bad)?;
    let (kind, rest) = next_word(bytes).ok_or(PartFault::Bad)?;
    step_behind(alloc, source, process, kind, rest)
}

/// What a process does, behind the word that says which step it is.
#[tactic(auto, unfolding(crate::specs::Forms::step_behind))]
fn step_behind(
    alloc: Global,
    source: LineSource<'_>,
    process: Reason,
    kind: &[u8],
    bytes: &[u8],
) -> Result<Statement, PartFault>
    requires { EndsAt source.text.now source.end bytes.now }
    ensures { Reads (λ said. said) result (step_behind process kind.now bytes.now) }
{
    if spells(kind, "die") {
        let reason = only_name(bytes).ok_or(PartFault::Bad)?;
        return Ok(Statement::Die { process, reason });
    }
    let (port, rest) = next_name(bytes).ok_or(PartFault::Bad)?;
    let action = action(alloc, source, kind, rest)?;
    Ok(Statement::Step {
        process,
        port,
        action,
    })
}
