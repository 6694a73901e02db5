//! The outside's answers and the driver's effects of rows that are printed.

ghost use Rattle.std.specs.Prelude.{◌≡◌, ◌++◌, ◌∷◌, OnOk};
ghost use Rattle.std.specs.List.{flat_map};
ghost use Rattle.journal_text.specs.Words.{listed};
ghost use Rattle.journal_text.specs.Effects.{answer_text, dir_text, bit_text, effect_text};

use crate::printing::{
    put, put_next_number, put_numbered, put_with_bytes, put_with_name, put_with_number,
    put_with_status, put_word,
};
use no_memory::NoMemory;
use port_model::{Dir, Effect, Flag, Outside, Piece};

fn put_answer(out: &mut Vec<u8>, answer: &Outside) -> Result<(), NoMemory>
    ensures { OnOk result (out.new.items ≡ out.old.items ++ answer_text answer.now) }
{
    match answer {
        Outside::Took(count) => put_with_number(out, b"took", u64::from(*count)),
        Outside::Got(bytes) => put_with_bytes(out, b"got", bytes),
        Outside::Again => put(out, b"again"),
        Outside::End => put(out, b"end"),
        Outside::Failed => put(out, b"failed"),
        Outside::Status(status) => put_with_status(out, b"status", *status),
    }
}

fn put_message(out: &mut Vec<u8>, flag: Flag, bytes: &Piece) -> Result<(), NoMemory>
    ensures { OnOk result (out.new.items ≡ out.old.items ++ effect_text (Effect.Message flag bytes.now)) }
{
    match flag {
        Flag::Plain => put_with_bytes(out, b"data plain", bytes),
        Flag::Eol => put_with_bytes(out, b"data eol", bytes),
        Flag::Noeol => put_with_bytes(out, b"data noeol", bytes),
    }
}

fn put_bit(out: &mut Vec<u8>, bit: bool) -> Result<(), NoMemory>
    ensures { OnOk result (out.new.items ≡ out.old.items ++ bit_text bit) }
{
    if bit { put(out, b"1") } else { put(out, b"0") }
}

fn put_dir(out: &mut Vec<u8>, dir: Dir) -> Result<(), NoMemory>
    ensures { OnOk result (out.new.items ≡ out.old.items ++ dir_text dir) }
{
    match dir {
        Dir::Read => put(out, b"r"),
        Dir::Write => put(out, b"w"),
    }
}

fn put_busy(out: &mut Vec<u8>, busy: bool) -> Result<(), NoMemory>
    ensures { OnOk result (out.new.items ≡ out.old.items ++ effect_text (Effect.Busy busy)) }
{
    put_word(out, b"busy")?;
    put_bit(out, busy)
}

fn put_selection(out: &mut Vec<u8>, event: u32, dir: Dir, on: bool) -> Result<(), NoMemory>
    ensures { OnOk result (out.new.items ≡ out.old.items ++ effect_text (Effect.Select event dir on)) }
{
    put_with_number(out, b"select", u64::from(event))?;
    put(out, b" ")?;
    put_dir(out, dir)?;
    put(out, b" ")?;
    put_bit(out, on)
}

fn put_job(
    out: &mut Vec<u8>,
    number: u64,
    key: u32,
    code: u8,
    input: &Piece,
) -> Result<(), NoMemory>
    ensures { OnOk result (out.new.items ≡ out.old.items ++ effect_text (Effect.Async number key code input.now)) }
{
    put_with_number(out, b"async", number)?;
    put_next_number(out, u64::from(key))?;
    put_numbered(out, b"", u64::from(code), input)
}

fn put_effect(out: &mut Vec<u8>, effect: &Effect) -> Result<(), NoMemory>
    ensures { OnOk result (out.new.items ≡ out.old.items ++ effect_text effect.now) }
{
    match effect {
        Effect::Message { flag, bytes } => put_message(out, *flag, bytes),
        Effect::Eof => put(out, b"eof"),
        Effect::Status(status) => put_with_status(out, b"xstatus", *status),
        Effect::Busy(busy) => put_busy(out, *busy),
        Effect::Select { event, dir, on } => put_selection(out, *event, *dir, *on),
        Effect::Unuse(event) => put_with_number(out, b"unuse", u64::from(*event)),
        Effect::Async {
            number,
            key,
            code,
            input,
        } => put_job(out, *number, *key, *code, input),
        Effect::Watch(process) => put_with_number(out, b"watch", u64::from(*process)),
        Effect::Reply(bytes) => put_with_bytes(out, b"reply", bytes),
        Effect::ReplyBadarg => put(out, b"reply badarg"),
        Effect::Fail(reason) => put_with_name(out, b"fail", reason),
    }
}

/// Answers behind the first one.
fn put_more_answers(out: &mut Vec<u8>, answers: &[Outside]) -> Result<(), NoMemory>
    ensures { OnOk result (out.new.items ≡ out.old.items ++ flat_map (λ other. 44 ∷ 32 ∷ answer_text other) answers.now) }
{
    for answer in answers {
        put(out, b", ")?;
        put_answer(out, answer)?;
    }
    Ok(())
}

/// The answers of a row.
pub(crate) fn put_answers(out: &mut Vec<u8>, answers: &[Outside]) -> Result<(), NoMemory>
    ensures { OnOk result (out.new.items ≡ out.old.items ++ listed answer_text answers.now) }
{
    let [first, others @ ..] = answers else {
        return Ok(());
    };
    put(out, b" ")?;
    put_answer(out, first)?;
    put_more_answers(out, others)
}

/// Effects behind the first one.
fn put_more_effects(out: &mut Vec<u8>, effects: &[Effect]) -> Result<(), NoMemory>
    ensures { OnOk result (out.new.items ≡ out.old.items ++ flat_map (λ other. 44 ∷ 32 ∷ effect_text other) effects.now) }
{
    for effect in effects {
        put(out, b", ")?;
        put_effect(out, effect)?;
    }
    Ok(())
}

/// The effects of a row.
pub(crate) fn put_effects(out: &mut Vec<u8>, effects: &[Effect]) -> Result<(), NoMemory>
    ensures { OnOk result (out.new.items ≡ out.old.items ++ listed effect_text effects.now) }
{
    let [first, others @ ..] = effects else {
        return Ok(());
    };
    put(out, b" ")?;
    put_effect(out, first)?;
    put_more_effects(out, others)
}
