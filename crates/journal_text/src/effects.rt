//! The outside's answers and the driver's effects of rows that are read.

ghost use Rattle.std.specs.Prelude.{◌≡◌, ◌^◌, option_map};
ghost use Rattle.journal_text.specs.LinePartFault.{Reads};
ghost use Rattle.journal_text.specs.Reading.{field_at, made, spaced_at, pair_at, number_at, bytes_at, answer_by, answer_at, flag_of, dir_of, bit_of, reply_of, asking_by, effect_by, effect_at};

use crate::fault::LinePartFault;
use crate::words::{
    bytes_of, next_bytes, next_name, next_number, next_number_8, next_number_32, next_number_below,
    next_status, space, spells, word,
};
use port_model::{Dir, Effect, Flag, Outside, Piece};
use std::alloc::Global;

/// An answer, behind its word.
#[tactic(auto, unfolding(crate::specs::Reading::answer_by))]
fn answer_behind<'a>(
    alloc: Global,
    word: &[u8],
    front: &'a [u8],
) -> Result<(Outside, &'a [u8]), LinePartFault>
    ensures { Reads (λ x. (x.0, x.1.now)) result (answer_by word.now front.now) }
{
    if spells(word, "took") {
        let (count, rest) = next_number_32(front).ok_or(LinePartFault::Bad)?;
        Ok((Outside::Took(count), rest))
    } else if spells(word, "got") {
        let (bytes, rest) = next_bytes(alloc, front)?;
        Ok((Outside::Got(bytes), rest))
    } else if spells(word, "again") {
        Ok((Outside::Again, front))
    } else if spells(word, "end") {
        Ok((Outside::End, front))
    } else if spells(word, "failed") {
        Ok((Outside::Failed, front))
    } else if spells(word, "status") {
        let (status, rest) = next_status(front).ok_or(LinePartFault::Bad)?;
        Ok((Outside::Status(status), rest))
    } else {
        Err(LinePartFault::Bad)
    }
}

/// The answer in front.
pub(crate) fn answer(alloc: Global, front: &[u8]) -> Result<(Outside, &[u8]), LinePartFault>
    ensures { Reads (λ x. (x.0, x.1.now)) result (answer_at front.now) }
{
    let (word, rest) = word(front);
    answer_behind(alloc, word, rest)
}

#[tactic(auto, unfolding(crate::specs::Reading::flag_of))]
fn flag_of(word: &[u8]) -> Option<Flag>
    ensures { result ≡ flag_of word.now }
{
    if spells(word, "plain") {
        Some(Flag::Plain)
    } else if spells(word, "eol") {
        Some(Flag::Eol)
    } else if spells(word, "noeol") {
        Some(Flag::Noeol)
    } else {
        None
    }
}

#[tactic(auto, unfolding(crate::specs::Reading::dir_of))]
fn dir_of(word: &[u8]) -> Option<Dir>
    ensures { result ≡ dir_of word.now }
{
    if spells(word, "r") {
        Some(Dir::Read)
    } else if spells(word, "w") {
        Some(Dir::Write)
    } else {
        None
    }
}

#[tactic(auto, unfolding(crate::specs::Reading::bit_of))]
fn bit_of(word: &[u8]) -> Option<bool>
    ensures { result ≡ bit_of word.now }
{
    if spells(word, "0") {
        Some(false)
    } else if spells(word, "1") {
        Some(true)
    } else {
        None
    }
}

/// The flag of a message, behind a space.
fn next_flag(front: &[u8]) -> Option<(Flag, &[u8])>
    ensures { option_map (λ x. (x.0, x.1.now)) result ≡ spaced_at (field_at flag_of) front.now }
{
    let (word, rest) = word(space(front)?);
    Some((flag_of(word)?, rest))
}

/// A direction, behind a space.
fn next_dir(front: &[u8]) -> Option<(Dir, &[u8])>
    ensures { option_map (λ x. (x.0, x.1.now)) result ≡ spaced_at (field_at dir_of) front.now }
{
    let (word, rest) = word(space(front)?);
    Some((dir_of(word)?, rest))
}

/// Whether something is set, behind a space.
fn next_bit(front: &[u8]) -> Option<(bool, &[u8])>
    ensures { option_map (λ x. (x.0, x.1.now)) result ≡ spaced_at (field_at bit_of) front.now }
{
    let (word, rest) = word(space(front)?);
    Some((bit_of(word)?, rest))
}

/// The reply that a word is.
#[tactic(auto, unfolding(crate::specs::Reading::reply_of))]
fn reply_of(alloc: Global, word: &[u8]) -> Result<Effect, LinePartFault>
    ensures { Reads (λ x. x) result (reply_of word.now) }
{
    if spells(word, "badarg") {
        return Ok(Effect::ReplyBadarg);
    }
    Ok(Effect::Reply(bytes_of(alloc, word)?))
}

/// A reply, behind a space.
fn next_reply(alloc: Global, front: &[u8]) -> Result<(Effect, &[u8]), LinePartFault>
    ensures { Reads (λ x. (x.0, x.1.now)) result (spaced_at (field_at reply_of) front.now) }
{
    let (word, rest) = word(space(front).ok_or(LinePartFault::Bad)?);
    Ok((reply_of(alloc, word)?, rest))
}

/// A message, behind its word.
fn message(alloc: Global, front: &[u8]) -> Result<(Effect, &[u8]), LinePartFault>
    ensures { Reads (λ x. (x.0, x.1.now)) result (made (λ p. Effect.Message p.0 p.1) (spaced_at (pair_at (field_at flag_of) bytes_at) front.now)) }
{
    let (flag, rest) = next_flag(front).ok_or(LinePartFault::Bad)?;
    let (bytes, rest) = next_bytes(alloc, rest)?;
    Ok((Effect::Message { flag, bytes }, rest))
}

/// A selection, behind its word.
fn selection(front: &[u8]) -> Option<(Effect, &[u8])>
    ensures { option_map (λ x. (x.0, x.1.now)) result ≡ made (λ p. Effect.Select p.0 p.1.0 p.1.1) (spaced_at (pair_at (number_at (2 ^ 32)) (pair_at (field_at dir_of) (field_at bit_of))) front.now) }
{
    let (event, rest) = next_number_32(front)?;
    let (dir, rest) = next_dir(rest)?;
    let (on, rest) = next_bit(rest)?;
    Some((Effect::Select { event, dir, on }, rest))
}

/// A job, behind its word.
fn job(alloc: Global, front: &[u8]) -> Result<(Effect, &[u8]), LinePartFault>
    ensures { Reads (λ x. (x.0, x.1.now)) result (made (λ p. Effect.Async p.0 p.1.0 p.1.1.0 p.1.1.1) (spaced_at (pair_at (number_at (2 ^ 64)) (pair_at (number_at (2 ^ 32)) (pair_at (number_at 256) bytes_at))) front.now)) }
{
    let (number, rest) = next_number(front).ok_or(LinePartFault::Bad)?;
    let (key, rest) = next_number_32(rest).ok_or(LinePartFault::Bad)?;
    let (code, rest) = next_number_8(rest).ok_or(LinePartFault::Bad)?;
    let (input, rest) = next_bytes(alloc, rest)?;
    let effect = Effect::Async {
        number,
        key,
        code,
        input,
    };
    Ok((effect, rest))
}

/// An effect on events, jobs and processes, behind its word.
#[tactic(auto, unfolding(crate::specs::Reading::asking_by))]
fn asking<'a>(
    alloc: Global,
    names: u32,
    word: &[u8],
    front: &'a [u8],
) -> Result<(Effect, &'a [u8]), LinePartFault>
    ensures { Reads (λ x. (x.0, x.1.now)) result (asking_by names word.now front.now) }
{
    if spells(word, "select") {
        selection(front).ok_or(LinePartFault::Bad)
    } else if spells(word, "unuse") {
        let (event, rest) = next_number_32(front).ok_or(LinePartFault::Bad)?;
        Ok((Effect::Unuse(event), rest))
    } else if spells(word, "async") {
        job(alloc, front)
    } else if spells(word, "watch") {
        let (process, rest) = next_number_below(names, front).ok_or(LinePartFault::Bad)?;
        Ok((Effect::Watch(process), rest))
    } else {
        Err(LinePartFault::Bad)
    }
}

/// An effect, behind its word.
#[tactic(auto, unfolding(crate::specs::Reading::effect_by))]
fn effect_behind<'a>(
    alloc: Global,
    names: u32,
    word: &[u8],
    front: &'a [u8],
) -> Result<(Effect, &'a [u8]), LinePartFault>
    ensures { Reads (λ x. (x.0, x.1.now)) result (effect_by names word.now front.now) }
{
    if spells(word, "data") {
        message(alloc, front)
    } else if spells(word, "eof") {
        Ok((Effect::Eof, front))
    } else if spells(word, "xstatus") {
        let (status, rest) = next_status(front).ok_or(LinePartFault::Bad)?;
        Ok((Effect::Status(status), rest))
    } else if spells(word, "busy") {
        let (busy, rest) = next_bit(front).ok_or(LinePartFault::Bad)?;
        Ok((Effect::Busy(busy), rest))
    } else if spells(word, "reply") {
        next_reply(alloc, front)
    } else if spells(word, "fail") {
        let (reason, rest) = next_name(front).ok_or(LinePartFault::Bad)?;
        Ok((Effect::Fail(reason), rest))
    } else {
        asking(alloc, names, word, front)
    }
}

/// The effect in front.
pub(crate) fn effect(
    alloc: Global,
    names: u32,
    front: &[u8],
) -> Result<(Effect, &[u8]), LinePartFault>
    ensures { Reads (λ x. (x.0, x.1.now)) result (effect_at names front.now) }
{
    let (word, rest) = word(front);
    effect_behind(alloc, names, word, rest)
}
