//! The line of a port that is read.

ghost use Rattle.std.specs.Prelude.{◌≡◌, ◌^◌, option_map};
ghost use Rattle.journal_text.specs.LinePartFault.{Reads};
ghost use Rattle.journal_text.specs.Ports.{is_driver, is_spawn};
ghost use Rattle.journal_text.specs.Reading.{spaced_at, field_at};
ghost use Rattle.journal_text.specs.ReadingPorts.{this_at, driver_of, limits_by, limits_at, packet_of, mode_by, mode_at, either, eof_at, exit_status_at, two_at, events_at, tail_at, program_at, no_program, program_after, head_at, line_with, checked, port_behind, port_line_of};

use crate::fault::LinePartFault;
use crate::words::{
    next_bytes, next_name, next_number_32, next_number_below, number_32_of, space, spells, word,
};
use io_vector::Piece;
use packet_framing::Mode;
use port_config::{Config, DEFAULT_HIGH, DEFAULT_LOW};
use port_model::Reason;
use std::alloc::Global;

/// The limits of a message queue, and whether it has any.
#[derive(Clone, Copy)]
pub(crate) struct Limits {
    pub(crate) on: bool,
    pub(crate) low: u32,
    pub(crate) high: u32,
}

/// The options and the events of a program.
#[derive(Drop)]
pub(crate) struct ProgramOptions {
    pub(crate) run: Piece,
    pub(crate) mode: Mode,
    pub(crate) eof: bool,
    pub(crate) exit_status: bool,
    pub(crate) busy_low: u32,
    pub(crate) busy_high: u32,
    pub(crate) events: (u32, u32),
}

/// What the line of a port tells.
#[derive(Drop)]
pub(crate) struct PortLine {
    pub(crate) name: Reason,
    pub(crate) driver: Reason,
    pub(crate) owner: u32,
    pub(crate) config: Config,
    pub(crate) events: (u32, u32),
}

/// What stands behind a space and this word.
fn next_this<'a>(keyword: &str, front: &'a [u8]) -> Option<((), &'a [u8])>
    ensures { option_map (λ x. (x.0, x.1.now)) result ≡ spaced_at (this_at keyword.now) front.now }
{
    let (word, rest) = word(space(front)?);
    if spells(word, keyword) {
        Some(((), rest))
    } else {
        None
    }
}

/// Whether a word is the name of a kind of driver that doesn't refuse its start.
fn is_driver(word: &[u8]) -> bool
    ensures { result ≡ is_driver word.now }
{
    spells(word, "echo")
        || spells(word, "tally")
        || spells(word, "valve")
        || spells(word, "valve_soft")
        || spells(word, "store")
        || spells(word, "digest")
        || spells(word, "spawn")
}

/// The name of a kind of driver that a word is.
#[tactic(auto, unfolding(crate::specs::ReadingPorts::driver_of))]
fn driver_of(word: &[u8]) -> Option<Reason>
    ensures { result ≡ driver_of word.now }
{
    if !is_driver(word) {
        return None;
    }
    Reason::of_bytes(word).ok()
}

/// The name of a kind of driver, behind a space.
fn next_driver(front: &[u8]) -> Option<(Reason, &[u8])>
    ensures { option_map (λ x. (x.0, x.1.now)) result ≡ spaced_at (field_at driver_of) front.now }
{
    let (word, rest) = word(space(front)?);
    Some((driver_of(word)?, rest))
}

/// The limits of a message queue, behind their first word.
#[tactic(auto, unfolding(crate::specs::ReadingPorts::limits_by))]
fn limits_behind<'a>(word: &[u8], front: &'a [u8]) -> Option<(Limits, &'a [u8])>
    ensures { option_map (λ x. (x.0, x.1.now)) result ≡ limits_by word.now front.now }
{
    if spells(word, "off") {
        let limits = Limits {
            on: false,
            low: DEFAULT_LOW,
            high: DEFAULT_HIGH,
        };
        return Some((limits, front));
    }
    let low = number_32_of(word)?;
    let (high, rest) = next_number_32(front)?;
    let limits = Limits {
        on: true,
        low,
        high,
    };
    Some((limits, rest))
}

/// The limits of a message queue, behind a space.
fn next_limits(front: &[u8]) -> Option<(Limits, &[u8])>
    ensures { option_map (λ x. (x.0, x.1.now)) result ≡ spaced_at limits_at front.now }
{
    let (word, rest) = word(space(front)?);
    limits_behind(word, rest)
}

/// The packet mode that a word is.
#[tactic(auto, unfolding(crate::specs::ReadingPorts::packet_of))]
fn packet_of(word: &[u8]) -> Option<Mode>
    ensures { result ≡ packet_of word.now }
{
    if spells(word, "1") {
        Some(Mode::Packet1)
    } else if spells(word, "2") {
        Some(Mode::Packet2)
    } else if spells(word, "4") {
        Some(Mode::Packet4)
    } else {
        None
    }
}

/// A packet mode, behind a space.
fn next_packet(front: &[u8]) -> Option<(Mode, &[u8])>
    ensures { option_map (λ x. (x.0, x.1.now)) result ≡ spaced_at (field_at packet_of) front.now }
{
    let (word, rest) = word(space(front)?);
    Some((packet_of(word)?, rest))
}

/// A framing, behind its first word.
#[tactic(auto, unfolding(crate::specs::ReadingPorts::mode_by))]
fn mode_behind<'a>(word: &[u8], front: &'a [u8]) -> Option<(Mode, &'a [u8])>
    ensures { option_map (λ x. (x.0, x.1.now)) result ≡ mode_by word.now front.now }
{
    if spells(word, "stream") {
        Some((Mode::Stream, front))
    } else if spells(word, "packet") {
        next_packet(front)
    } else if spells(word, "line") {
        let (limit, rest) = next_number_32(front)?;
        Some((Mode::Line(limit), rest))
    } else {
        None
    }
}

/// A framing, behind a space.
fn next_mode(front: &[u8]) -> Option<(Mode, &[u8])>
    ensures { option_map (λ x. (x.0, x.1.now)) result ≡ spaced_at mode_at front.now }
{
    let (word, rest) = word(space(front)?);
    mode_behind(word, rest)
}

/// Which of two words this is.
fn either(yes: &str, no: &str, word: &[u8]) -> Option<bool>
    ensures { result ≡ either yes.now no.now word.now }
{
    if spells(word, yes) {
        Some(true)
    } else if spells(word, no) {
        Some(false)
    } else {
        None
    }
}

/// Whether the end of the output is told, behind a space.
fn next_eof(front: &[u8]) -> Option<(bool, &[u8])>
    ensures { option_map (λ x. (x.0, x.1.now)) result ≡ spaced_at eof_at front.now }
{
    let (word, rest) = word(space(front)?);
    Some((either("eof", "noeof", word)?, rest))
}

/// Whether the status is told, behind a space.
fn next_exit_status(front: &[u8]) -> Option<(bool, &[u8])>
    ensures { option_map (λ x. (x.0, x.1.now)) result ≡ spaced_at exit_status_at front.now }
{
    let (word, rest) = word(space(front)?);
    Some((either("status", "nostatus", word)?, rest))
}

/// Two numbers, behind a space.
fn next_two(front: &[u8]) -> Option<((u32, u32), &[u8])>
    ensures { option_map (λ x. (x.0, x.1.now)) result ≡ spaced_at two_at front.now }
{
    let (first, rest) = next_number_32(front)?;
    let (second, rest) = next_number_32(rest)?;
    Some(((first, second), rest))
}

/// `events` and two events, behind a space.
fn next_events(front: &[u8]) -> Option<(((), (u32, u32)), &[u8])>
    ensures { option_map (λ x. (x.0, x.1.now)) result ≡ spaced_at events_at front.now }
{
    let (this, rest) = next_this("events", front)?;
    let (events, rest) = next_two(rest)?;
    Some(((this, events), rest))
}

/// `busy`, two limits and the events of a program, as they stand in a line.
type Tail = ((), (u32, (u32, ((), (u32, u32)))));

/// `busy`, two limits and the events of a program, behind a space.
fn next_tail(front: &[u8]) -> Option<(Tail, &[u8])>
    ensures { option_map (λ x. (x.0, x.1.now)) result ≡ spaced_at tail_at front.now }
{
    let (this, rest) = next_this("busy", front)?;
    let (low, rest) = next_number_32(rest)?;
    let (high, rest) = next_number_32(rest)?;
    let (events, rest) = next_events(rest)?;
    Some(((this, (low, (high, events))), rest))
}

/// The options and the events of a program, behind a space.
fn next_program(alloc: Global, front: &[u8]) -> Result<(ProgramOptions, &[u8]), LinePartFault>
    ensures { Reads (λ x. (x.0, x.1.now)) result (spaced_at program_at front.now) }
{
    let (_, rest) = next_this("run", front).ok_or(LinePartFault::Bad)?;
    let (run, rest) = next_bytes(alloc, rest)?;
    let (mode, rest) = next_mode(rest).ok_or(LinePartFault::Bad)?;
    let (eof, rest) = next_eof(rest).ok_or(LinePartFault::Bad)?;
    let (exit_status, rest) = next_exit_status(rest).ok_or(LinePartFault::Bad)?;
    let (tail, rest) = next_tail(rest).ok_or(LinePartFault::Bad)?;
    let (_, (busy_low, (busy_high, (_, events)))) = tail;
    let program = ProgramOptions {
        run,
        mode,
        eof,
        exit_status,
        busy_low,
        busy_high,
        events,
    };
    Ok((program, rest))
}

/// A program of which nothing is said.
fn no_program() -> ProgramOptions
    ensures { result ≡ no_program }
{
    ProgramOptions {
        run: Piece::empty(),
        mode: Mode::Stream,
        eof: false,
        exit_status: false,
        busy_low: DEFAULT_LOW,
        busy_high: DEFAULT_HIGH,
        events: (0, 0),
    }
}

/// Whether this is the name of the driver of programs.
pub(crate) fn is_spawn(driver: &Reason) -> bool
    ensures { result ≡ is_spawn driver.now }
{
    spells(driver.as_bytes(), "spawn")
}

/// What stands behind the limits of a port of this driver, to the end of its line.
#[tactic(auto, unfolding(crate::specs::ReadingPorts::program_after))]
fn program_after(
    alloc: Global,
    driver: &Reason,
    front: &[u8],
) -> Result<ProgramOptions, LinePartFault>
    ensures { Reads (λ program. program) result (program_after driver.now front.now) }
{
    if !is_spawn(driver) {
        return match front {
            [] => Ok(no_program()),
            [_, ..] => Err(LinePartFault::Bad),
        };
    }
    let (program, rest) = next_program(alloc, front)?;
    let [] = rest else {
        return Err(LinePartFault::Bad);
    };
    Ok(program)
}

/// What stands in the line of a port before what is said of a program.
type PortHead = (Reason, (u32, (Reason, ((), Limits))));

/// A name, an owner, a driver and the limits of the message queue, behind a space.
fn next_head(names: u32, front: &[u8]) -> Option<(PortHead, &[u8])>
    ensures { option_map (λ x. (x.0, x.1.now)) result ≡ spaced_at (head_at names) front.now }
{
    let (name, rest) = next_name(front)?;
    let (owner, rest) = next_number_below(names, rest)?;
    let (driver, rest) = next_driver(rest)?;
    let (this, rest) = next_this("msgq", rest)?;
    let (limits, rest) = next_limits(rest)?;
    Some(((name, (owner, (driver, (this, limits)))), rest))
}

/// The line of these parts.
fn line_with(head: PortHead, program: ProgramOptions) -> PortLine
    ensures { result ≡ line_with head program }
{
    let (name, (owner, (driver, (_, limits)))) = head;
    let config = Config {
        run: program.run,
        mode: program.mode,
        eof: program.eof,
        exit_status: program.exit_status,
        busy_low: program.busy_low,
        busy_high: program.busy_high,
        msgq_on: limits.on,
        msgq_low: limits.low,
        msgq_high: limits.high,
    };
    PortLine {
        name,
        driver,
        owner,
        config,
        events: program.events,
    }
}

/// The line, if its limits and its mode are in their ranges.
fn checked(line: PortLine) -> Option<PortLine>
    ensures { result ≡ checked line }
{
    if line.config.is_within_ranges() {
        Some(line)
    } else {
        None
    }
}

/// The line of a port, behind its first word.
#[tactic(auto, unfolding(crate::specs::ReadingPorts::port_behind))]
fn port_behind(alloc: Global, names: u32, front: &[u8]) -> Result<PortLine, LinePartFault>
    ensures { Reads (λ line. line) result (port_behind names front.now) }
{
    let (head, rest) = next_head(names, front).ok_or(LinePartFault::Bad)?;
    let program = program_after(alloc, &head.1.1.0, rest)?;
    checked(line_with(head, program)).ok_or(LinePartFault::Bad)
}

/// The line of a port, among so many processes.
#[tactic(auto, unfolding(crate::specs::ReadingPorts::port_line_of))]
pub(crate) fn port_line(alloc: Global, names: u32, line: &[u8]) -> Result<PortLine, LinePartFault>
    ensures { Reads (λ line. line) result (port_line_of names line.now) }
{
    let (word, rest) = word(line);
    if !spells(word, "port") {
        return Err(LinePartFault::Bad);
    }
    port_behind(alloc, names, rest)
}
