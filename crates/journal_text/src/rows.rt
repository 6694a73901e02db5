//! The rows of a port that are read, each from a whole line.

ghost use Rattle.std.specs.Prelude.{◌≡◌, ◌^◌, ◌≤◌, ◌<◌, vec_len, option_map, IfOk};
ghost use Rattle.port_signal.specs.declared.items.TheConstants.{MAX_ITEMS};
ghost use Rattle.journal_text.specs.LinePartFault.{Reads};
ghost use Rattle.journal_text.specs.Reading.{field_at, made, spaced_at, pair_at, number_at, sender_at, answer_at, effect_at};
ghost use Rattle.journal_text.specs.ReadingRows.{some_at, list_at, semicolon_at, calls_at, sent_at, handled_at, mark_of, row_by, row_of};

use crate::effects::{answer, effect};
use crate::fault::LinePartFault;
use crate::tasks::{next_sender, next_task};
use crate::words::{after, next_number, space, spells, word};
use port_model::{Effect, Items, MarkKind, Outside, Row, Sender, Task};
use port_signal::MAX_ITEMS;
use std::alloc::Global;

/// One or more answers.
fn some_answers(alloc: Global, front: &[u8]) -> Result<(Vec<Outside>, &[u8]), LinePartFault>
    ensures reads { Reads (λ x. (x.0.items, x.1.now)) result (some_at answer_at MAX_ITEMS front.now) }
    ensures few { IfOk result (λ x. vec_len x.0 ≤ MAX_ITEMS) }
{
    let mut items = Vec::new(alloc);
    let mut rest = front;
    for _ in 0..MAX_ITEMS {
        let (item, behind) = answer(alloc, rest)?;
        items.push(item)?;
        let Some(next) = after(b',', behind) else {
            return Ok((items, behind));
        };
        let Some(inner) = space(next) else {
            return Err(LinePartFault::Bad);
        };
        rest = inner;
    }
    Err(LinePartFault::Bad)
}

/// One or more effects.
fn some_effects(
    alloc: Global,
    names: u32,
    front: &[u8],
) -> Result<(Vec<Effect>, &[u8]), LinePartFault>
    ensures reads { Reads (λ x. (x.0.items, x.1.now)) result (some_at (effect_at names) MAX_ITEMS front.now) }
    ensures few { IfOk result (λ x. vec_len x.0 ≤ MAX_ITEMS) }
{
    let mut items = Vec::new(alloc);
    let mut rest = front;
    for _ in 0..MAX_ITEMS {
        let (item, behind) = effect(alloc, names, rest)?;
        items.push(item)?;
        let Some(next) = after(b',', behind) else {
            return Ok((items, behind));
        };
        let Some(inner) = space(next) else {
            return Err(LinePartFault::Bad);
        };
        rest = inner;
    }
    Err(LinePartFault::Bad)
}

/// The answers of a row, of which there may be none.
#[tactic(auto, unfolding(crate::specs::ReadingRows::list_at))]
fn answers(alloc: Global, front: &[u8]) -> Result<(Items<Outside>, &[u8]), LinePartFault>
    ensures { Reads (λ x. (x.0, x.1.now)) result (list_at answer_at front.now) }
{
    match front {
        [] | [_, b';', ..] => Ok((Items::new(alloc), front)),
        [_] => Err(LinePartFault::Bad),
        [_, _, ..] => {
            let (items, rest) = some_answers(alloc, space(front).ok_or(LinePartFault::Bad)?)?;
            Ok((Items::of_vec(items), rest))
        }
    }
}

/// The effects of a row, of which there may be none.
#[tactic(auto, unfolding(crate::specs::ReadingRows::list_at))]
fn effects(alloc: Global, names: u32, front: &[u8]) -> Result<(Items<Effect>, &[u8]), LinePartFault>
    ensures { Reads (λ x. (x.0, x.1.now)) result (list_at (effect_at names) front.now) }
{
    match front {
        [] | [_, b';', ..] => Ok((Items::new(alloc), front)),
        [_] => Err(LinePartFault::Bad),
        [_, _, ..] => {
            let (items, rest) = some_effects(
                alloc,
                names,
                space(front).ok_or(LinePartFault::Bad)?,
            )?;
            Ok((Items::of_vec(items), rest))
        }
    }
}

/// What stands behind ` ;`.
fn semicolon(front: &[u8]) -> Option<&[u8]>
    ensures { option_map (λ rest. rest.now) result ≡ semicolon_at front.now }
{
    after(b';', space(front)?)
}

/// The answers and the effects of a row.
#[tactic(auto, unfolding(crate::specs::ReadingRows::calls_at))]
fn calls(
    alloc: Global,
    names: u32,
    front: &[u8],
) -> Result<((Items<Outside>, Items<Effect>), &[u8]), LinePartFault>
    ensures { Reads (λ x. (x.0, x.1.now)) result (calls_at names front.now) }
{
    let (outside, rest) = answers(alloc, semicolon(front).ok_or(LinePartFault::Bad)?)?;
    let (effects, rest) = effects(alloc, names, semicolon(rest).ok_or(LinePartFault::Bad)?)?;
    Ok(((outside, effects), rest))
}

/// The sender of a task and its place in the sender's order, behind a space.
fn next_place(names: u32, front: &[u8]) -> Option<((Sender, u64), &[u8])>
    ensures { option_map (λ x. (x.0, x.1.now)) result ≡ spaced_at (pair_at (sender_at names) (number_at (2 ^ 64))) front.now }
{
    let (from, rest) = next_sender(names, front)?;
    let (seq, rest) = next_number(rest)?;
    Some(((from, seq), rest))
}

/// A sender, a place and a task, behind a space.
fn next_sent(
    alloc: Global,
    names: u32,
    front: &[u8],
) -> Result<((Sender, (u64, Task)), &[u8]), LinePartFault>
    ensures { Reads (λ x. (x.0, x.1.now)) result (spaced_at (sent_at names) front.now) }
{
    let (from, rest) = next_sender(names, front).ok_or(LinePartFault::Bad)?;
    let (seq, rest) = next_number(rest).ok_or(LinePartFault::Bad)?;
    let (task, rest) = next_task(alloc, names, rest)?;
    Ok(((from, (seq, task)), rest))
}

/// A handled task, behind its word.
#[tactic(auto, unfolding(crate::specs::ReadingRows::handled_at))]
fn handled(alloc: Global, names: u32, front: &[u8]) -> Result<(Row, &[u8]), LinePartFault>
    ensures { Reads (λ x. (x.0, x.1.now)) result (handled_at names front.now) }
{
    let ((from, (seq, task)), rest) = next_sent(alloc, names, front)?;
    let ((outside, effects), rest) = calls(alloc, names, rest)?;
    let row = Row::Handled {
        from,
        seq,
        task,
        outside,
        effects,
    };
    Ok((row, rest))
}

/// A late task, behind its word.
fn late(alloc: Global, names: u32, front: &[u8]) -> Result<(Row, &[u8]), LinePartFault>
    ensures { Reads (λ x. (x.0, x.1.now)) result (made (λ p. Row.Late p.0 p.1.0 p.1.1) (spaced_at (sent_at names) front.now)) }
{
    let ((from, (seq, task)), rest) = next_sent(alloc, names, front)?;
    Ok((Row::Late { from, seq, task }, rest))
}

/// A resume, behind its word.
fn resumed(names: u32, front: &[u8]) -> Option<(Row, &[u8])>
    ensures { option_map (λ x. (x.0, x.1.now)) result ≡ made (λ p. Row.Resumed p.0 p.1.0 p.1.1) (spaced_at (pair_at (sender_at names) (pair_at (number_at (2 ^ 64)) (number_at (2 ^ 64)))) front.now) }
{
    let (from, rest) = next_sender(names, front)?;
    let (seq, rest) = next_number(rest)?;
    let (word, rest) = next_number(rest)?;
    Some((Row::Resumed { from, seq, word }, rest))
}

#[tactic(auto, unfolding(crate::specs::ReadingRows::mark_of))]
fn mark_of(word: &[u8]) -> Option<MarkKind>
    ensures { result ≡ mark_of word.now }
{
    if spells(word, "busy") {
        Some(MarkKind::Busy)
    } else if spells(word, "free") {
        Some(MarkKind::Free)
    } else if spells(word, "closed") {
        Some(MarkKind::Closed)
    } else {
        None
    }
}

/// A mark, behind a space.
fn next_mark(front: &[u8]) -> Option<(MarkKind, &[u8])>
    ensures { option_map (λ x. (x.0, x.1.now)) result ≡ spaced_at (field_at mark_of) front.now }
{
    let (word, rest) = word(space(front)?);
    Some((mark_of(word)?, rest))
}

/// A row, behind its word.
#[tactic(auto, unfolding(crate::specs::ReadingRows::row_by))]
fn row_behind<'a>(
    alloc: Global,
    names: u32,
    word: &[u8],
    front: &'a [u8],
) -> Result<(Row, &'a [u8]), LinePartFault>
    ensures { Reads (λ x. (x.0, x.1.now)) result (row_by names word.now front.now) }
{
    if spells(word, "h") {
        handled(alloc, names, front)
    } else if spells(word, "l") {
        late(alloc, names, front)
    } else if spells(word, "s") {
        let ((from, seq), rest) = next_place(names, front).ok_or(LinePartFault::Bad)?;
        Ok((Row::Listed { from, seq }, rest))
    } else if spells(word, "r") {
        resumed(names, front).ok_or(LinePartFault::Bad)
    } else if spells(word, "m") {
        let (kind, rest) = next_mark(front).ok_or(LinePartFault::Bad)?;
        Ok((Row::Mark(kind), rest))
    } else {
        Err(LinePartFault::Bad)
    }
}

/// The row of a line, among so many processes.
#[tactic(auto, unfolding(crate::specs::ReadingRows::row_of))]
pub(crate) fn row(alloc: Global, names: u32, line: &[u8]) -> Result<Row, LinePartFault>
    ensures { Reads (λ row. row) result (row_of names line.now) }
{
    let (word, rest) = word(line);
    let (row, rest) = row_behind(alloc, names, word, rest)?;
    let [] = rest else {
        return Err(LinePartFault::Bad);
    };
    Ok(row)
}
