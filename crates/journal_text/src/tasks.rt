//! The senders and the tasks of rows that are read.

ghost use Rattle.std.specs.Prelude.{◌≡◌, ◌^◌, ◌<◌, true, option_map};
ghost use Rattle.port_model.specs.Signals.{is_command};
ghost use Rattle.journal_text.specs.LinePartFault.{Reads};
ghost use Rattle.journal_text.specs.Signals.{task_of};
ghost use Rattle.journal_text.specs.Reading.{spaced_at, pair_at, number_at, bytes_at, payload_of, payload_at, sender_of, sender_at, how_of, how_at, event_by, carrying_by, signal_by, task_by, task_at, made};

use crate::fault::LinePartFault;
use crate::how::CommandFlags;
use crate::words::{
    bytes, next_bytes, next_name, next_number, next_number_32, next_number_below, number_32_of,
    number_below_of, space, spells, word,
};
use io_vector::IoVec;
use port_model::{Dir, Piece, Sender, Signal, Task};
use std::alloc::Global;

/// The sender that a word is.
#[tactic(auto, unfolding(crate::specs::Reading::sender_of))]
fn sender_of(names: u32, word: &[u8]) -> Option<Sender>
    ensures { result ≡ sender_of names word.now }
{
    match word {
        [b'p', digits @ ..] => Some(Sender::Process(number_below_of(names, digits)?)),
        [b'w', digits @ ..] => Some(Sender::Worker(number_32_of(digits)?)),
        [b'e'] => Some(Sender::Poller),
        [b't'] => Some(Sender::Timer),
        _ => None,
    }
}

/// The sender in front.
fn sender(names: u32, bytes: &[u8]) -> Option<(Sender, &[u8])>
    ensures { option_map (λ x. (x.0, x.1.now)) result ≡ sender_at names bytes.now }
{
    let (word, rest) = word(bytes);
    Some((sender_of(names, word)?, rest))
}

/// The sender behind a space.
pub(crate) fn next_sender(names: u32, front: &[u8]) -> Option<(Sender, &[u8])>
    ensures { option_map (λ x. (x.0, x.1.now)) result ≡ spaced_at (sender_at names) front.now }
{
    sender(names, space(front)?)
}

/// The flags that a word is.
#[tactic(auto, unfolding(crate::specs::Reading::how_of))]
fn how_of(word: &[u8]) -> Option<CommandFlags>
    ensures { result ≡ how_of word.now }
{
    if spells(word, "-") {
        Some(CommandFlags::Plain)
    } else if spells(word, "s") {
        Some(CommandFlags::Suspends)
    } else if spells(word, "f") {
        Some(CommandFlags::Forced)
    } else {
        None
    }
}

/// The flags in front.
fn how(bytes: &[u8]) -> Option<(CommandFlags, &[u8])>
    ensures { option_map (λ x. (x.0, x.1.now)) result ≡ how_at bytes.now }
{
    let (word, rest) = word(bytes);
    Some((how_of(word)?, rest))
}

/// The vector of these bytes: one segment, or none for no bytes.
fn payload_of(alloc: Global, piece: Piece) -> IoVec
    ensures { result ≡ payload_of piece }
{
    if piece.is_empty() {
        IoVec::new(alloc)
    } else {
        IoVec::of_piece(alloc, piece)
    }
}

/// The vector in front.
fn payload(alloc: Global, front: &[u8]) -> Result<(IoVec, &[u8]), LinePartFault>
    ensures { Reads (λ x. (x.0, x.1.now)) result (payload_at front.now) }
{
    let (piece, rest) = bytes(alloc, front)?;
    Ok((payload_of(alloc, piece), rest))
}

/// The vector behind a space.
fn next_payload(alloc: Global, front: &[u8]) -> Result<(IoVec, &[u8]), LinePartFault>
    ensures { Reads (λ x. (x.0, x.1.now)) result (spaced_at payload_at front.now) }
{
    payload(alloc, space(front).ok_or(LinePartFault::Bad)?)
}

/// The flags behind a space.
fn next_how(front: &[u8]) -> Option<(CommandFlags, &[u8])>
    ensures { option_map (λ x. (x.0, x.1.now)) result ≡ spaced_at how_at front.now }
{
    how(space(front)?)
}

/// The flags and the vector of a command, behind a space.
fn flags_and_payload(
    alloc: Global,
    front: &[u8],
) -> Result<((CommandFlags, IoVec), &[u8]), LinePartFault>
    ensures { Reads (λ x. (x.0, x.1.now)) result (spaced_at (pair_at how_at payload_at) front.now) }
{
    let (how, rest) = next_how(front).ok_or(LinePartFault::Bad)?;
    let (payload, rest) = next_payload(alloc, rest)?;
    Ok(((how, payload), rest))
}

/// An operation and its bytes, behind a space.
fn operation(alloc: Global, front: &[u8]) -> Result<((u32, Piece), &[u8]), LinePartFault>
    ensures { Reads (λ x. (x.0, x.1.now)) result (spaced_at (pair_at (number_at (2 ^ 32)) bytes_at) front.now) }
{
    let (op, rest) = next_number_32(front).ok_or(LinePartFault::Bad)?;
    let (piece, rest) = next_bytes(alloc, rest)?;
    Ok(((op, piece), rest))
}

/// The number of a job and its output, behind a space.
fn job_output(alloc: Global, front: &[u8]) -> Result<((u64, Piece), &[u8]), LinePartFault>
    ensures { Reads (λ x. (x.0, x.1.now)) result (spaced_at (pair_at (number_at (2 ^ 64)) bytes_at) front.now) }
{
    let (number, rest) = next_number(front).ok_or(LinePartFault::Bad)?;
    let (piece, rest) = next_bytes(alloc, rest)?;
    Ok(((number, piece), rest))
}

/// The signal that an event is ready in this direction, behind its word.
fn ready(dir: Dir, front: &[u8]) -> Option<(Signal, &[u8])>
    ensures { option_map (λ x. (x.0, x.1.now)) result ≡ made (λ event. Signal.Ready event dir) (spaced_at (number_at (2 ^ 32)) front.now) }
{
    let (event, rest) = next_number_32(front)?;
    Some((Signal::Ready { event, dir }, rest))
}

/// A signal of the poller or of a worker, behind its word.
#[tactic(auto, unfolding(crate::specs::Reading::event_by))]
fn event_signal<'a>(
    alloc: Global,
    word: &[u8],
    front: &'a [u8],
) -> Result<(Signal, &'a [u8]), LinePartFault>
    ensures { Reads (λ x. (x.0, x.1.now)) result (event_by word.now front.now) }
{
    if spells(word, "input") {
        ready(Dir::Read, front).ok_or(LinePartFault::Bad)
    } else if spells(word, "output") {
        ready(Dir::Write, front).ok_or(LinePartFault::Bad)
    } else if spells(word, "dropped") {
        let (event, rest) = next_number_32(front).ok_or(LinePartFault::Bad)?;
        Ok((Signal::Dropped(event), rest))
    } else if spells(word, "done") {
        let ((number, output), rest) = job_output(alloc, front)?;
        Ok((Signal::AsyncDone { number, output }, rest))
    } else {
        Err(LinePartFault::Bad)
    }
}

/// A signal of a process that carries a number or a reason, behind its word, or else one of the poller or of a worker.
#[tactic(auto, unfolding(crate::specs::Reading::carrying_by))]
fn carrying_signal<'a>(
    alloc: Global,
    names: u32,
    word: &[u8],
    front: &'a [u8],
) -> Result<(Signal, &'a [u8]), LinePartFault>
    ensures { Reads (λ x. (x.0, x.1.now)) result (carrying_by names word.now front.now) }
{
    if spells(word, "connect") {
        let (process, rest) = next_number_below(names, front).ok_or(LinePartFault::Bad)?;
        Ok((Signal::Connect(process), rest))
    } else if spells(word, "ownerconnect") {
        let (process, rest) = next_number_below(names, front).ok_or(LinePartFault::Bad)?;
        Ok((Signal::OwnerConnect(process), rest))
    } else if spells(word, "monitor") {
        let (number, rest) = next_number(front).ok_or(LinePartFault::Bad)?;
        Ok((Signal::Monitor(number), rest))
    } else if spells(word, "demonitor") {
        let (number, rest) = next_number(front).ok_or(LinePartFault::Bad)?;
        Ok((Signal::Demonitor(number), rest))
    } else if spells(word, "exit") {
        let (reason, rest) = next_name(front).ok_or(LinePartFault::Bad)?;
        Ok((Signal::Exit(reason), rest))
    } else if spells(word, "gone") {
        let (reason, rest) = next_name(front).ok_or(LinePartFault::Bad)?;
        Ok((Signal::Gone(reason), rest))
    } else {
        event_signal(alloc, word, front)
    }
}

/// A signal that is no command, behind its word.
#[tactic(auto, unfolding(crate::specs::Reading::signal_by))]
fn signal<'a>(
    alloc: Global,
    names: u32,
    word: &[u8],
    front: &'a [u8],
) -> Result<(Signal, &'a [u8]), LinePartFault>
    ensures { Reads (λ x. (x.0, x.1.now)) result (signal_by names word.now front.now) }
{
    if spells(word, "control") {
        let ((op, bytes), rest) = operation(alloc, front)?;
        Ok((Signal::Control { op, bytes }, rest))
    } else if spells(word, "call") {
        let ((op, bytes), rest) = operation(alloc, front)?;
        Ok((Signal::Call { op, bytes }, rest))
    } else if spells(word, "close") {
        Ok((Signal::Close, front))
    } else if spells(word, "ownerclose") {
        Ok((Signal::OwnerClose, front))
    } else if spells(word, "link") {
        Ok((Signal::Link, front))
    } else if spells(word, "unlink") {
        Ok((Signal::Unlink, front))
    } else {
        carrying_signal(alloc, names, word, front)
    }
}

/// The task of a command with these flags.
fn task_of(how: CommandFlags, signal: Signal) -> Task
    requires { is_command signal ≡ true }
    ensures { result ≡ task_of how signal }
{
    match how {
        CommandFlags::Plain => Task::new(signal),
        CommandFlags::Suspends => Task::suspending(signal),
        CommandFlags::Forced => Task::forced(signal),
    }
}

/// A task, behind its word.
#[tactic(auto, unfolding(crate::specs::Reading::task_by))]
fn task_behind<'a>(
    alloc: Global,
    names: u32,
    word: &[u8],
    front: &'a [u8],
) -> Result<(Task, &'a [u8]), LinePartFault>
    ensures { Reads (λ x. (x.0, x.1.now)) result (task_by names word.now front.now) }
{
    if spells(word, "command") {
        let ((how, payload), rest) = flags_and_payload(alloc, front)?;
        Ok((task_of(how, Signal::Command(payload)), rest))
    } else if spells(word, "send") {
        let ((how, payload), rest) = flags_and_payload(alloc, front)?;
        Ok((task_of(how, Signal::OwnerCommand(payload)), rest))
    } else {
        let (signal, rest) = signal(alloc, names, word, front)?;
        Ok((Task::new(signal), rest))
    }
}

/// The task in front.
fn task(alloc: Global, names: u32, front: &[u8]) -> Result<(Task, &[u8]), LinePartFault>
    ensures { Reads (λ x. (x.0, x.1.now)) result (task_at names front.now) }
{
    let (word, rest) = word(front);
    task_behind(alloc, names, word, rest)
}

/// The task behind a space.
pub(crate) fn next_task(
    alloc: Global,
    names: u32,
    front: &[u8],
) -> Result<(Task, &[u8]), LinePartFault>
    ensures { Reads (λ x. (x.0, x.1.now)) result (spaced_at (task_at names) front.now) }
{
    task(alloc, names, space(front).ok_or(LinePartFault::Bad)?)
}
