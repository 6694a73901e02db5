//! The ports and the whole of a journal that are printed.

ghost use Rattle.std.specs.Prelude.{◌≡◌, ◌++◌, ◌∷◌, [], true, OnOk, IfOk, decimal, codes};
ghost use Rattle.std.specs.List.{flat_map};
ghost use Rattle.journal_text.specs.Words.{spaced, bytes_text};
ghost use Rattle.journal_text.specs.Ports.{msgq_text, mode_text, eof_text, status_text, program_text, port_line, line_of, port_lines};
ghost use Rattle.journal_text.specs.Rows.{row_text};
ghost use Rattle.journal_text.specs.Books.{is_book, ended, journal_text};

use crate::port_line::is_spawn;
use crate::printing::{put, put_next_number, put_with_bytes, put_with_number, put_word};
use crate::printing_rows::put_rows;
use crate::{Book, PortReport};
use no_memory::NoMemory;
use packet_framing::Mode;
use port_config::Config;
use port_model::{Journal, Reason};
use std::alloc::Global;

fn put_msgq(out: &mut Vec<u8>, config: &Config) -> Result<(), NoMemory>
    ensures { OnOk result (out.new.items ≡ out.old.items ++ msgq_text config.now.msgq_on config.now.msgq_low config.now.msgq_high) }
{
    if !config.msgq_on {
        return put(out, b"msgq off");
    }
    put_with_number(out, b"msgq", u64::from(config.msgq_low))?;
    put_next_number(out, u64::from(config.msgq_high))
}

fn put_mode(out: &mut Vec<u8>, mode: Mode) -> Result<(), NoMemory>
    ensures { OnOk result (out.new.items ≡ out.old.items ++ mode_text mode) }
{
    match mode {
        Mode::Packet1 => put(out, b"packet 1"),
        Mode::Packet2 => put(out, b"packet 2"),
        Mode::Packet4 => put(out, b"packet 4"),
        Mode::Line(limit) => put_with_number(out, b"line", u64::from(limit)),
        Mode::Stream => put(out, b"stream"),
    }
}

fn put_eof(out: &mut Vec<u8>, eof: bool) -> Result<(), NoMemory>
    ensures { OnOk result (out.new.items ≡ out.old.items ++ eof_text eof) }
{
    if eof {
        put(out, b"eof")
    } else {
        put(out, b"noeof")
    }
}

fn put_exit_status(out: &mut Vec<u8>, exit_status: bool) -> Result<(), NoMemory>
    ensures { OnOk result (out.new.items ≡ out.old.items ++ status_text exit_status) }
{
    if exit_status {
        put(out, b"status")
    } else {
        put(out, b"nostatus")
    }
}

/// The busy limits and the events of a program.
fn put_tail(out: &mut Vec<u8>, config: &Config, events: (u32, u32)) -> Result<(), NoMemory>
    ensures { OnOk result (out.new.items ≡ out.old.items ++ spaced (codes "busy" ∷ decimal config.now.busy_low ∷ decimal config.now.busy_high ∷ codes "events" ∷ decimal events.0 ∷ decimal events.1 ∷ [])) }
{
    put_with_number(out, b"busy", u64::from(config.busy_low))?;
    put_next_number(out, u64::from(config.busy_high))?;
    put_with_number(out, b" events", u64::from(events.0))?;
    put_next_number(out, u64::from(events.1))
}

/// The framing of a program, and what is told of its end.
fn put_framing(out: &mut Vec<u8>, config: &Config) -> Result<(), NoMemory>
    ensures { OnOk result (out.new.items ≡ out.old.items ++ spaced (mode_text config.now.mode ∷ eof_text config.now.eof ∷ status_text config.now.exit_status ∷ [])) }
{
    put_mode(out, config.mode)?;
    put(out, b" ")?;
    put_eof(out, config.eof)?;
    put(out, b" ")?;
    put_exit_status(out, config.exit_status)
}

/// The command text of a program, and its framing.
fn put_options(out: &mut Vec<u8>, config: &Config) -> Result<(), NoMemory>
    ensures { OnOk result (out.new.items ≡ out.old.items ++ spaced (codes "run" ∷ bytes_text config.now.run ∷ mode_text config.now.mode ∷ eof_text config.now.eof ∷ status_text config.now.exit_status ∷ [])) }
{
    put_with_bytes(out, b"run", &config.run)?;
    put(out, b" ")?;
    put_framing(out, config)
}

/// The options and the events of a program.
#[tactic(auto, using(crate::proofs::PrintedPorts::program_is))]
fn put_program(out: &mut Vec<u8>, config: &Config, events: (u32, u32)) -> Result<(), NoMemory>
    ensures { OnOk result (out.new.items ≡ out.old.items ++ program_text config.now events) }
{
    put_options(out, config)?;
    put(out, b" ")?;
    put_tail(out, config, events)
}

/// What stands in the line of a port before what is said of a program.
fn put_head(out: &mut Vec<u8>, port: &PortReport) -> Result<(), NoMemory>
    ensures { OnOk result (out.new.items ≡ out.old.items ++ spaced (codes "port" ∷ port.now.name ∷ decimal port.now.owner ∷ port.now.driver ∷ msgq_text port.now.config.msgq_on port.now.config.msgq_low port.now.config.msgq_high ∷ [])) }
{
    put(out, b"port ")?;
    put_with_number(out, port.name.as_bytes(), u64::from(port.owner))?;
    put(out, b" ")?;
    put_word(out, port.driver.as_bytes())?;
    put_msgq(out, &port.config)
}

/// The line of a port.
#[tactic(auto, using(crate::proofs::PrintedPorts::with_program, crate::proofs::PrintedPorts::without_program))]
fn put_port_line(out: &mut Vec<u8>, port: &PortReport) -> Result<(), NoMemory>
    ensures { OnOk result (out.new.items ≡ out.old.items ++ port_line (line_of port.now)) }
{
    put_head(out, port)?;
    if !is_spawn(&port.driver) {
        return Ok(());
    }
    put(out, b" ")?;
    put_program(out, &port.config, port.events)
}

/// The lines of a port's rows, and the line `end`.
fn put_history(out: &mut Vec<u8>, journal: &Journal) -> Result<(), NoMemory>
    ensures { OnOk result (out.new.items ≡ out.old.items ++ (flat_map (λ row. ended (row_text row)) journal.now.rows ++ codes "end\n")) }
{
    put_rows(out, journal.rows.as_slice())?;
    put(out, b"end\n")
}

/// The lines of a port.
fn put_port(out: &mut Vec<u8>, port: &PortReport) -> Result<(), NoMemory>
    ensures { OnOk result (out.new.items ≡ out.old.items ++ flat_map ended (port_lines port.now)) }
{
    put_port_line(out, port)?;
    put(out, b"\n")?;
    put_history(out, &port.journal)?;
    Ok(())
}

/// The lines of ports.
fn put_ports(out: &mut Vec<u8>, ports: &[PortReport]) -> Result<(), NoMemory>
    ensures { OnOk result (out.new.items ≡ out.old.items ++ flat_map (λ port. flat_map ended (port_lines port)) ports.now) }
{
    for port in ports {
        put_port(out, port)?;
    }
    Ok(())
}

/// Names, each behind a space.
fn put_names(out: &mut Vec<u8>, names: &[Reason]) -> Result<(), NoMemory>
    ensures { OnOk result (out.new.items ≡ out.old.items ++ flat_map (λ name. 32 ∷ name) names.now) }
{
    for name in names {
        put(out, b" ")?;
        put(out, name.as_bytes())?;
    }
    Ok(())
}

/// The lines of names and ports.
fn put_book(out: &mut Vec<u8>, names: &[Reason], ports: &[PortReport]) -> Result<(), NoMemory>
    ensures { OnOk result (out.new.items ≡ out.old.items ++ (codes "journal 1\nprocesses" ++ (flat_map (λ name. 32 ∷ name) names.now ++ 10 ∷ flat_map (λ port. flat_map ended (port_lines port)) ports.now))) }
{
    put(out, b"journal 1\nprocesses")?;
    put_names(out, names)?;
    put(out, b"\n")?;
    put_ports(out, ports)?;
    Ok(())
}

/// The text of the journal of these names and ports, in version 1 of journals. It is read again where all of them lie in the ranges of the grammar, as they do in a book.
pub fn print_histories(
    alloc: Global,
    names: &[Reason],
    ports: &[PortReport],
) -> Result<Vec<u8>, NoMemory>
    ensures { IfOk result (λ text. text.items ≡ journal_text 1 (record { names = names.now; ports = ports.now })) }
{
    let mut out = Vec::new(alloc);
    put_book(&mut out, names, ports)?;
    Ok(out)
}

/// The text of a book, in version 1 of journals.
pub fn print_journal(alloc: Global, book: &Book) -> Result<Vec<u8>, NoMemory>
    ensures text { IfOk result (λ text. text.items ≡ journal_text 1 book.now) }
    // A book is in the ranges of the grammar, so that it is read again as it is.
    ensures book { is_book book.now ≡ true }
{
    let names = book.names();
    let ports = book.ports();
    print_histories(alloc, names, ports)
}
