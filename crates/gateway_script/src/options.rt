//! The options of a port, each read from behind the word for it.

ghost use Rattle.std.specs.Prelude.{◌≡◌, option_map};
ghost use Rattle.script_text.specs.PartFault.{Reads};
ghost use Rattle.gateway_script.specs.Forms.{limits_at, msgq_at, packet_of, packet_at, line_at, run_at, busy_at, flag_of, option_behind, option_at, options_at};

use crate::words::{next_number, next_piece, next_word, number_within, spells};
use script_plan::{Mode, Piece};
use script_text::PartFault;
use std::alloc::Global;
use std::marker::Model;

/// The greatest limit of a queue, in bytes.
const MAX_LIMIT: u32 = 1_073_741_824;

/// The most bytes of a line's piece.
const MAX_LINE: u32 = 262_143;

/// A pair of limits of a queue, in bytes. The low one may be above the high one.
#[derive(Clone, Copy, Debug)]
pub(crate) struct LimitPair {
    pub low: u32,
    pub high: u32,
}

/// An option of a port, as a line has it.
#[derive(Drop)]
pub(crate) enum PortOption {
    /// `msgq LOW HIGH`
    Msgq(LimitPair),
    /// `msgq off`
    MsgqOff,
    /// `run TEXT`
    Run(Piece),
    /// `stream`, `packet N` or `line L`
    Framing(Mode),
    /// `eof`
    Eof,
    /// `exit_status`
    ExitStatus,
    /// `busy LOW HIGH`
    Busy(LimitPair),
}

/// The options of a port, as a line lists them.
#[derive(Drop)]
pub(crate) struct PortOptions {
    list: Vec<PortOption>,
}

impl Model for PortOptions {
    ghost use Rattle.std.specs.Prelude.{List};
    ghost use Rattle.gateway_script.specs.declared.options.PortOption.{PortOption};

    ghost Value = { List PortOption };

    ghost view = { λ options. options.list.items };
}

impl PortOptions {
    ghost use Rattle.std.specs.Prelude.{◌≡◌};

    /// These options, in their order.
    pub(crate) fn new(list: Vec<PortOption>) -> PortOptions
        ensures { result ≡ list.items }
    {
        PortOptions { list }
    }

    pub(crate) fn as_slice(&self) -> &[PortOption]
        ensures { result.now ≡ self.now }
    {
        self.list.as_slice()
    }
}

/// The options up to the end of the line.
pub(crate) fn options(alloc: Global, bytes: &[u8]) -> Result<PortOptions, PartFault>
    ensures { Reads (λ options. options) result (options_at bytes.now) }
{
    let mut options = Vec::new(alloc);
    let mut rest = bytes;
    while !rest.is_empty() {
        let (option, behind) = option(alloc, rest)?;
        options.push(option)?;
        rest = behind;
    }
    Ok(PortOptions::new(options))
}

/// The option behind a gap.
#[tactic(auto, unfolding(crate::specs::Forms::option_at))]
fn option(alloc: Global, bytes: &[u8]) -> Result<(PortOption, &[u8]), PartFault>
    ensures { Reads (λ x. (x.0, x.1.now)) result (option_at bytes.now) }
{
    let (kind, rest) = next_word(bytes).ok_or(PartFault::Bad)?;
    option_behind(alloc, kind, rest)
}

/// What stands behind the word that says which option it is.
#[tactic(auto, unfolding(crate::specs::Forms::option_behind))]
fn option_behind<'a>(
    alloc: Global,
    kind: &[u8],
    bytes: &'a [u8],
) -> Result<(PortOption, &'a [u8]), PartFault>
    ensures { Reads (λ x. (x.0, x.1.now)) result (option_behind kind.now bytes.now) }
{
    if spells(kind, "msgq") {
        msgq(bytes).ok_or(PartFault::Bad)
    } else if spells(kind, "run") {
        run(alloc, bytes)
    } else if spells(kind, "packet") {
        packet(bytes).ok_or(PartFault::Bad)
    } else if spells(kind, "line") {
        line(bytes).ok_or(PartFault::Bad)
    } else if spells(kind, "busy") {
        busy(bytes).ok_or(PartFault::Bad)
    } else {
        Ok((flag_of(kind).ok_or(PartFault::Bad)?, bytes))
    }
}

/// `LOW HIGH`.
#[tactic(auto, unfolding(crate::specs::Forms::limits_at))]
fn limits(bytes: &[u8]) -> Option<(LimitPair, &[u8])>
    ensures { option_map (λ x. (x.0, x.1.now)) result ≡ limits_at bytes.now }
{
    let (low, rest) = number_within(1, MAX_LIMIT, bytes)?;
    let (high, rest) = number_within(1, MAX_LIMIT, rest)?;
    Some((LimitPair { low, high }, rest))
}

/// `off` or `LOW HIGH`.
#[tactic(auto, unfolding(crate::specs::Forms::msgq_at))]
fn msgq(bytes: &[u8]) -> Option<(PortOption, &[u8])>
    ensures { option_map (λ x. (x.0, x.1.now)) result ≡ msgq_at bytes.now }
{
    let (word, rest) = next_word(bytes)?;
    if spells(word, "off") {
        return Some((PortOption::MsgqOff, rest));
    }
    let (limits, rest) = limits(bytes)?;
    Some((PortOption::Msgq(limits), rest))
}

/// The framing with so many bytes of length.
fn packet_of(number: u64) -> Option<Mode>
    ensures { result ≡ packet_of number }
{
    match number {
        1 => Some(Mode::Packet1),
        2 => Some(Mode::Packet2),
        4 => Some(Mode::Packet4),
        _ => None,
    }
}

/// N, which is 1, 2 or 4.
#[tactic(auto, unfolding(crate::specs::Forms::packet_at))]
fn packet(bytes: &[u8]) -> Option<(PortOption, &[u8])>
    ensures { option_map (λ x. (x.0, x.1.now)) result ≡ packet_at bytes.now }
{
    let (number, rest) = next_number(bytes)?;
    Some((PortOption::Framing(packet_of(number)?), rest))
}

/// L, from 1 to 262,143.
#[tactic(auto, unfolding(crate::specs::Forms::line_at))]
fn line(bytes: &[u8]) -> Option<(PortOption, &[u8])>
    ensures { option_map (λ x. (x.0, x.1.now)) result ≡ line_at bytes.now }
{
    let (limit, rest) = number_within(1, MAX_LINE, bytes)?;
    Some((PortOption::Framing(Mode::Line(limit)), rest))
}

/// A TEXT.
#[tactic(auto, unfolding(crate::specs::Forms::run_at))]
fn run(alloc: Global, bytes: &[u8]) -> Result<(PortOption, &[u8]), PartFault>
    ensures { Reads (λ x. (x.0, x.1.now)) result (run_at bytes.now) }
{
    let (command, rest) = next_piece(alloc, bytes)?;
    Ok((PortOption::Run(command), rest))
}

/// `LOW HIGH`.
#[tactic(auto, unfolding(crate::specs::Forms::busy_at))]
fn busy(bytes: &[u8]) -> Option<(PortOption, &[u8])>
    ensures { option_map (λ x. (x.0, x.1.now)) result ≡ busy_at bytes.now }
{
    let (limits, rest) = limits(bytes)?;
    Some((PortOption::Busy(limits), rest))
}

/// The option that this word alone says.
fn flag_of(kind: &[u8]) -> Option<PortOption>
    ensures { result ≡ flag_of kind.now }
{
    if spells(kind, "stream") {
        Some(PortOption::Framing(Mode::Stream))
    } else if spells(kind, "eof") {
        Some(PortOption::Eof)
    } else if spells(kind, "exit_status") {
        Some(PortOption::ExitStatus)
    } else {
        None
    }
}
