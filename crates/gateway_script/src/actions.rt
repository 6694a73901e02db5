//! What a process does at a port, read from behind the name of the port.

ghost use Rattle.std.specs.Prelude.{◌≡◌, option_map};
ghost use Rattle.script_text.specs.PartFault.{Reads};
ghost use Rattle.port_terms.specs.Written.{external};
ghost use Rattle.gateway_script.specs.Source.{EndsAt};
ghost use Rattle.gateway_script.specs.Forms.{nosuspend_at, how_at, payload_at, op_at, term_at, command_at, file_at, send_at, control_at, call_at, only_number_at, only_name_at, bare_action, bare_at, named_at, action_at};

use crate::source::LineSource;
use crate::statement::{Action, CommandOptions};
use crate::words::{
    gap, next_file, next_name, next_number, next_shared_piece, next_word, number_within, spells,
};
use port_terms::encode;
use script_plan::{Piece, Reason};
use script_text::{PartFault, read_io_bytes, read_term};
use std::alloc::Global;

/// The most bytes of a piece of a file.
const MAX_SIZE: u32 = 262_143;

/// What stands behind the port of a step of this kind.
#[tactic(auto, unfolding(crate::specs::Forms::action_at))]
pub(crate) fn action(
    alloc: Global,
    source: LineSource<'_>,
    kind: &[u8],
    bytes: &[u8],
) -> Result<Action, PartFault>
    requires { EndsAt source.text.now source.end bytes.now }
    ensures { Reads (λ action. action) result (action_at kind.now bytes.now) }
{
    if spells(kind, "command") {
        command(alloc, source, bytes)
    } else if spells(kind, "file") {
        file(alloc, bytes)
    } else if spells(kind, "send") {
        send(alloc, source, bytes)
    } else if spells(kind, "control") {
        control(alloc, source, bytes)
    } else if spells(kind, "call") {
        call(alloc, bytes)
    } else {
        named(kind, bytes).ok_or(PartFault::Bad)
    }
}

/// `IOLIST HOW`, to the end of the line.
#[tactic(auto, unfolding(crate::specs::Forms::command_at))]
fn command(alloc: Global, source: LineSource<'_>, bytes: &[u8]) -> Result<Action, PartFault>
    requires { EndsAt source.text.now source.end bytes.now }
    ensures { Reads (λ action. action) result (command_at bytes.now) }
{
    let (bytes, rest) = payload(alloc, source, bytes)?;
    let how = how(rest).ok_or(PartFault::Bad)?;
    Ok(Action::Command { bytes, how })
}

/// `SIZE TEXT HOW`, to the end of the line.
#[tactic(auto, unfolding(crate::specs::Forms::file_at))]
fn file(alloc: Global, bytes: &[u8]) -> Result<Action, PartFault>
    ensures { Reads (λ action. action) result (file_at bytes.now) }
{
    let (size, rest) = number_within(1, MAX_SIZE, bytes).ok_or(PartFault::Bad)?;
    let (name, rest) = next_file(alloc, rest)?;
    let how = how(rest).ok_or(PartFault::Bad)?;
    Ok(Action::File { size, name, how })
}

/// An IOLIST, to the end of the line.
#[tactic(auto, unfolding(crate::specs::Forms::send_at))]
fn send(alloc: Global, source: LineSource<'_>, bytes: &[u8]) -> Result<Action, PartFault>
    requires { EndsAt source.text.now source.end bytes.now }
    ensures { Reads (λ action. action) result (send_at bytes.now) }
{
    let (bytes, rest) = payload(alloc, source, bytes)?;
    let [] = rest else {
        return Err(PartFault::Bad);
    };
    Ok(Action::Send(bytes))
}

/// `OP TEXT`, to the end of the line.
#[tactic(auto, unfolding(crate::specs::Forms::control_at))]
fn control(alloc: Global, source: LineSource<'_>, bytes: &[u8]) -> Result<Action, PartFault>
    requires { EndsAt source.text.now source.end bytes.now }
    ensures { Reads (λ action. action) result (control_at bytes.now) }
{
    let (op, rest) = op(bytes).ok_or(PartFault::Bad)?;
    let (bytes, rest) = next_shared_piece(alloc, source, rest)?;
    let [] = rest else {
        return Err(PartFault::Bad);
    };
    Ok(Action::Control { op, bytes })
}

/// `OP TERM`, to the end of the line.
#[tactic(auto, unfolding(crate::specs::Forms::call_at))]
fn call(alloc: Global, bytes: &[u8]) -> Result<Action, PartFault>
    ensures { Reads (λ action. action) result (call_at bytes.now) }
{
    let (op, rest) = op(bytes).ok_or(PartFault::Bad)?;
    let (bytes, rest) = term(alloc, rest)?;
    let [] = rest else {
        return Err(PartFault::Bad);
    };
    Ok(Action::Call { op, bytes })
}

/// OP, a NUMBER below 2^32, and what stands behind it.
fn op(bytes: &[u8]) -> Option<(u32, &[u8])>
    ensures { option_map (λ x. (x.0, x.1.now)) result ≡ op_at bytes.now }
{
    number_within(0, u32::MAX, bytes)
}

/// The bytes of the IOLIST behind a gap, and what stands behind it.
#[tactic(auto, unfolding(crate::specs::Forms::payload_at))]
fn payload<'a>(
    alloc: Global,
    source: LineSource<'_>,
    bytes: &'a [u8],
) -> Result<(Piece, &'a [u8]), PartFault>
    requires { EndsAt source.text.now source.end bytes.now }
    ensures { Reads (λ x. (x.0, x.1.now)) result (payload_at bytes.now) }
{
    let inner = gap(bytes).ok_or(PartFault::Bad)?;
    let (content, rest) = read_io_bytes(alloc, inner)?;
    Ok((source.piece_of(inner, content)?, rest))
}

/// The external form of the TERM behind a gap, and what stands behind it.
#[tactic(auto, unfolding(crate::specs::Forms::term_at))]
fn term(alloc: Global, bytes: &[u8]) -> Result<(Piece, &[u8]), PartFault>
    ensures { Reads (λ x. (x.0, x.1.now)) result (term_at bytes.now) }
{
    let inner = gap(bytes).ok_or(PartFault::Bad)?;
    let (term, rest) = read_term(alloc, inner)?;
    let external = encode(alloc, &term)?;
    Ok((Piece::of_vec(external)?, rest))
}

/// HOW, to the end of the line.
#[tactic(auto, unfolding(crate::specs::Forms::how_at))]
fn how(bytes: &[u8]) -> Option<CommandOptions>
    ensures { result ≡ how_at bytes.now }
{
    if bytes.is_empty() {
        return Some(CommandOptions {
            force: false,
            nosuspend: false,
        });
    }
    let (word, rest) = next_word(bytes)?;
    if spells(word, "force") {
        nosuspend(true, rest)
    } else {
        nosuspend(false, bytes)
    }
}

/// `nosuspend` or nothing, to the end of the line.
#[tactic(auto, unfolding(crate::specs::Forms::nosuspend_at))]
fn nosuspend(force: bool, bytes: &[u8]) -> Option<CommandOptions>
    ensures { result ≡ nosuspend_at force bytes.now }
{
    if bytes.is_empty() {
        return Some(CommandOptions {
            force,
            nosuspend: false,
        });
    }
    let (word, rest) = next_word(bytes)?;
    if !spells(word, "nosuspend") || !rest.is_empty() {
        return None;
    }
    Some(CommandOptions {
        force,
        nosuspend: true,
    })
}

/// A step with one NAME or NUMBER behind its port, or with nothing.
#[tactic(auto, unfolding(crate::specs::Forms::named_at))]
fn named(kind: &[u8], bytes: &[u8]) -> Option<Action>
    ensures { result ≡ named_at kind.now bytes.now }
{
    if spells(kind, "connect") {
        Some(Action::Connect(only_name(bytes)?))
    } else if spells(kind, "sendconnect") {
        Some(Action::SendConnect(only_name(bytes)?))
    } else if spells(kind, "exit") {
        Some(Action::Exit(only_name(bytes)?))
    } else if spells(kind, "expect") {
        Some(Action::Expect(only_number(bytes)?))
    } else if spells(kind, "bytes") {
        Some(Action::Bytes(only_number(bytes)?))
    } else {
        bare(kind, bytes)
    }
}

/// A step with nothing behind its port.
fn bare(kind: &[u8], bytes: &[u8]) -> Option<Action>
    ensures { result ≡ bare_at kind.now bytes.now }
{
    let action = bare_action(kind)?;
    let [] = bytes else {
        return None;
    };
    Some(action)
}

/// The step with nothing behind its port that this word says.
fn bare_action(kind: &[u8]) -> Option<Action>
    ensures { result ≡ bare_action kind.now }
{
    if spells(kind, "close") {
        Some(Action::Close)
    } else if spells(kind, "sendclose") {
        Some(Action::SendClose)
    } else if spells(kind, "link") {
        Some(Action::Link)
    } else if spells(kind, "unlink") {
        Some(Action::Unlink)
    } else if spells(kind, "monitor") {
        Some(Action::Monitor)
    } else if spells(kind, "demonitor") {
        Some(Action::Demonitor)
    } else {
        None
    }
}

/// A NAME, to the end of the line.
#[tactic(auto, unfolding(crate::specs::Forms::only_name_at))]
pub(crate) fn only_name(bytes: &[u8]) -> Option<Reason>
    ensures { result ≡ only_name_at bytes.now }
{
    let (name, rest) = next_name(bytes)?;
    let [] = rest else {
        return None;
    };
    Some(name)
}

/// A NUMBER, to the end of the line.
#[tactic(auto, unfolding(crate::specs::Forms::only_number_at))]
fn only_number(bytes: &[u8]) -> Option<u64>
    ensures { result ≡ only_number_at bytes.now }
{
    let (number, rest) = next_number(bytes)?;
    let [] = rest else {
        return None;
    };
    Some(number)
}
