//! Journals that are read, line by line.

ghost use Rattle.std.specs.Prelude.{◌≡◌, ◌≤◌, ◌-◌, true, Ok, Err, length, IfOk, IfErr};
ghost use Rattle.journal_text.specs.LinePartFault.{Reads};
ghost use Rattle.journal_text.specs.TextFault.{MissedText, ReadsText};
ghost use Rattle.journal_text.specs.Ports.{with_rows};
ghost use Rattle.journal_text.specs.Books.{BookView, is_book, journal_text};
ghost use Rattle.journal_text.specs.ReadingRows.{row_of};
ghost use Rattle.journal_text.specs.ReadingPorts.{port_line_of};
ghost use Rattle.journal_text.specs.ReadingBooks.{lines_of, or_fault, line_at, rows_at, port_at, ports_at, names_at, names_of, head_of, book_at};
ghost use Rattle.journal_text.specs.Told.{Gives, Tells};

use crate::fault::{JournalFault, LinePartFault, TextFault};
use crate::lines::{bad, fault_at, first_line, is_over};
use crate::port_line::{PortLine, port_line};
use crate::rows::row;
use crate::words::{next_name, spells, word};
use crate::{Book, PortReport};
use port_model::{Journal, Log, Reason, Row};
use std::alloc::Global;

/// The most names of processes.
const MAX_NAMES: usize = 32;

/// The most ports.
const MAX_PORTS: usize = 32;

/// The row of a line, where these bytes stand from it on.
fn row_in(alloc: Global, names: u32, line: &[u8], bytes: &[u8]) -> Result<Row, TextFault>
    ensures { ReadsText (λ row. row) result (or_fault (lines_of bytes.now) (row_of names line.now)) }
{
    match row(alloc, names, line) {
        Ok(row) => Ok(row),
        Err(fault) => Err(fault_at(fault, bytes)),
    }
}

/// Rows up to the line `end`, and what stands behind it.
fn rows(alloc: Global, names: u32, bytes: &[u8]) -> Result<(Vec<Row>, &[u8]), TextFault>
    ensures { ReadsText (λ x. (x.0.items, lines_of x.1.now)) result (rows_at names (lines_of bytes.now)) }
{
    let mut rows = Vec::new(alloc);
    let mut rest = bytes;
    loop {
        let Some((line, behind)) = first_line(rest) else {
            return Err(bad(rest));
        };
        if spells(line, "end") {
            return Ok((rows, behind));
        }
        let row = row_in(alloc, names, line, rest)?;
        rows.push(row)?;
        rest = behind;
    }
}

/// The first line as that of a port, and what stands behind it.
#[tactic(auto, unfolding(crate::specs::ReadingBooks::line_at))]
fn port_head(alloc: Global, names: u32, bytes: &[u8]) -> Result<(PortLine, &[u8]), TextFault>
    ensures { ReadsText (λ x. (x.0, lines_of x.1.now)) result (line_at (port_line_of names) (lines_of bytes.now)) }
{
    let Some((line, rest)) = first_line(bytes) else {
        return Err(bad(bytes));
    };
    match port_line(alloc, names, line) {
        Ok(port) => Ok((port, rest)),
        Err(fault) => Err(fault_at(fault, bytes)),
    }
}

/// The port with this line and these rows.
fn port_with(line: PortLine, rows: Vec<Row>) -> PortReport
    ensures { result ≡ with_rows line rows.items }
{
    PortReport {
        name: line.name,
        driver: line.driver,
        owner: line.owner,
        config: line.config,
        events: line.events,
        journal: Journal {
            rows: Log::of_vec(rows),
        },
    }
}

/// The first port, and what stands behind it.
#[tactic(auto, unfolding(crate::specs::ReadingBooks::port_at))]
fn port(alloc: Global, names: u32, bytes: &[u8]) -> Result<(PortReport, &[u8]), TextFault>
    ensures { ReadsText (λ x. (x.0, lines_of x.1.now)) result (port_at names (lines_of bytes.now)) }
{
    let (line, rest) = port_head(alloc, names, bytes)?;
    let (rows, rest) = rows(alloc, names, rest)?;
    Ok((port_with(line, rows), rest))
}

/// The ports to the end of the text.
fn ports(alloc: Global, names: u32, bytes: &[u8]) -> Result<Vec<PortReport>, TextFault>
    ensures { ReadsText (λ ports. ports.items) result (ports_at MAX_PORTS names (lines_of bytes.now)) }
{
    let mut ports = Vec::new(alloc);
    let mut rest = bytes;
    for _ in 0..MAX_PORTS {
        if is_over(rest) {
            return Ok(ports);
        }
        let (port, behind) = port(alloc, names, rest)?;
        ports.push(port)?;
        rest = behind;
    }
    if !is_over(rest) {
        return Err(bad(rest));
    }
    Ok(ports)
}

/// Names, each behind a space, to the end of a line.
fn more_names(alloc: Global, bytes: &[u8]) -> Result<Vec<Reason>, LinePartFault>
    ensures reads { Reads (λ names. names.items) result (names_at MAX_NAMES bytes.now) }
    ensures few { IfOk result (λ names. length names.items ≤ MAX_NAMES) }
{
    let mut names = Vec::new(alloc);
    let mut rest = bytes;
    for _ in 0..MAX_NAMES {
        if rest.is_empty() {
            return Ok(names);
        }
        let Some((name, behind)) = next_name(rest) else {
            return Err(LinePartFault::Bad);
        };
        names.push(name)?;
        rest = behind;
    }
    if !rest.is_empty() {
        return Err(LinePartFault::Bad);
    }
    Ok(names)
}

/// The names of the line of processes.
#[tactic(auto, unfolding(crate::specs::ReadingBooks::names_of))]
fn names_of(alloc: Global, line: &[u8]) -> Result<Vec<Reason>, LinePartFault>
    ensures reads { Reads (λ names. names.items) result (names_of line.now) }
    ensures few { IfOk result (λ names. length names.items ≤ MAX_NAMES) }
{
    let (word, rest) = word(line);
    if !spells(word, "processes") {
        return Err(LinePartFault::Bad);
    }
    more_names(alloc, rest)
}

/// The names of the first line, and what stands behind it.
#[tactic(auto, unfolding(crate::specs::ReadingBooks::line_at))]
fn names(alloc: Global, bytes: &[u8]) -> Result<(Vec<Reason>, &[u8]), TextFault>
    ensures reads { ReadsText (λ x. (x.0.items, lines_of x.1.now)) result (line_at names_of (lines_of bytes.now)) }
    ensures few { IfOk result (λ x. length x.0.items ≤ MAX_NAMES) }
{
    let Some((line, rest)) = first_line(bytes) else {
        return Err(bad(bytes));
    };
    match names_of(alloc, line) {
        Ok(names) => Ok((names, rest)),
        Err(fault) => Err(fault_at(fault, bytes)),
    }
}

/// What stands behind the first line, `journal 1`.
#[tactic(auto, unfolding(crate::specs::ReadingBooks::line_at))]
fn head(bytes: &[u8]) -> Result<&[u8], TextFault>
    ensures { ReadsText (λ rest. (true, lines_of rest.now)) result (line_at head_of (lines_of bytes.now)) }
{
    let Some((line, rest)) = first_line(bytes) else {
        return Err(bad(bytes));
    };
    if !spells(line, "journal 1") {
        return Err(bad(bytes));
    }
    Ok(rest)
}

/// The names and the ports of a text.
#[tactic(auto, unfolding(crate::specs::ReadingBooks::book_at))]
fn parts(alloc: Global, bytes: &[u8]) -> Result<(Vec<Reason>, Vec<PortReport>), TextFault>
    ensures { ReadsText (λ x. record { names = x.0.items; ports = x.1.items }) result (book_at (lines_of bytes.now)) }
{
    let rest = head(bytes)?;
    let (names, rest) = names(alloc, rest)?;
    let ports = ports(alloc, names.len() as u32, rest)?;
    Ok((names, ports))
}

/// What is told of a text that isn't read.
#[tactic(auto, using(crate::proofs::TopLaws::bad_within, crate::proofs::TopLaws::bad_place))]
fn told(bytes: &[u8], fault: TextFault) -> JournalFault
    requires { MissedText fault (book_at (lines_of bytes.now)) }
    ensures only { (book : BookView) → is_book book ≡ true → bytes.now ≡ journal_text 1 book → Gives (Err result) book }
    ensures place { Tells bytes.now result }
{
    match fault {
        TextFault::Bad { left } => JournalFault::NotAJournal {
            at: (bytes.len() - left) as u64,
        },
        TextFault::NoMemory => JournalFault::NoMemory,
    }
}

/// The book of which these bytes are the text, in version 1 of journals.
///
/// Each line ends with byte 10. The first is `journal 1`, the second `processes` and the names. Then come the ports: for each its line,
/// the lines of its rows, and the line `end`. The grammar of the lines is in specs/: `Signals`, `Effects`, `Rows`, `Ports` and `Books`.
pub fn read_journal(alloc: Global, bytes: &[u8]) -> Result<Book, JournalFault>
    // What is read is the text of that book.
    ensures found { IfOk result (λ book. bytes.now ≡ journal_text 1 book) }
    // The text of a book is read as it, unless memory runs out.
    ensures only { (book : BookView) → is_book book ≡ true → bytes.now ≡ journal_text 1 book → Gives result book }
    // The place of a fault is that of the first line that isn't in the grammar.
    ensures fault { IfErr result (Tells bytes.now) }
{
    match parts(alloc, bytes) {
        Ok((names, ports)) => Ok(Book::new(names, ports)),
        Err(fault) => Err(told(bytes, fault)),
    }
}
