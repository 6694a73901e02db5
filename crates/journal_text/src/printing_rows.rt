//! The rows of a port that are printed, each as a line.

ghost use Rattle.std.specs.Prelude.{◌≡◌, ◌++◌, ◌∷◌, [], OnOk, codes, decimal};
ghost use Rattle.std.specs.List.{flat_map};
ghost use Rattle.journal_text.specs.Words.{spaced, listed};
ghost use Rattle.journal_text.specs.Effects.{answer_text, effect_text};
ghost use Rattle.journal_text.specs.Signals.{sender_text, task_text};
ghost use Rattle.journal_text.specs.Rows.{row_text};
ghost use Rattle.journal_text.specs.Books.{ended};

use crate::printing::{put, put_next_number, put_word};
use crate::printing_effects::{put_answers, put_effects};
use crate::printing_tasks::{put_sender, put_task};
use no_memory::NoMemory;
use port_model::{Effect, MarkKind, Outside, Row, Sender, Task};

/// A word, a sender and a place in the sender's order.
fn put_place(out: &mut Vec<u8>, word: &[u8], from: Sender, seq: u64) -> Result<(), NoMemory>
    ensures { OnOk result (out.new.items ≡ out.old.items ++ spaced (word.now ∷ sender_text from ∷ decimal seq ∷ [])) }
{
    put_word(out, word)?;
    put_sender(out, from)?;
    put_next_number(out, seq)
}

/// A word, a sender, a place and a task.
fn put_sent(
    out: &mut Vec<u8>,
    word: &[u8],
    from: Sender,
    seq: u64,
    task: &Task,
) -> Result<(), NoMemory>
    ensures { OnOk result (out.new.items ≡ out.old.items ++ spaced (word.now ∷ sender_text from ∷ decimal seq ∷ task_text task.now ∷ [])) }
{
    put_place(out, word, from, seq)?;
    put(out, b" ")?;
    put_task(out, task)
}

fn put_mark(out: &mut Vec<u8>, kind: MarkKind) -> Result<(), NoMemory>
    ensures { OnOk result (out.new.items ≡ out.old.items ++ row_text (Row.Mark kind)) }
{
    match kind {
        MarkKind::Busy => put(out, b"m busy"),
        MarkKind::Free => put(out, b"m free"),
        MarkKind::Closed => put(out, b"m closed"),
    }
}

/// The answers and the effects of a row.
fn put_calls(out: &mut Vec<u8>, outside: &[Outside], effects: &[Effect]) -> Result<(), NoMemory>
    ensures { OnOk result (out.new.items ≡ out.old.items ++ (codes " ;" ++ (listed answer_text outside.now ++ (codes " ;" ++ listed effect_text effects.now)))) }
{
    put(out, b" ;")?;
    put_answers(out, outside)?;
    put(out, b" ;")?;
    put_effects(out, effects)
}

fn put_row(out: &mut Vec<u8>, row: &Row) -> Result<(), NoMemory>
    ensures { OnOk result (out.new.items ≡ out.old.items ++ row_text row.now) }
{
    match row {
        Row::Handled {
            from,
            seq,
            task,
            outside,
            effects,
        } => {
            put_sent(out, b"h", *from, *seq, task)?;
            put_calls(out, outside.as_slice(), effects.as_slice())
        }
        Row::Late { from, seq, task } => put_sent(out, b"l", *from, *seq, task),
        Row::Listed { from, seq } => put_place(out, b"s", *from, *seq),
        Row::Resumed { from, seq, word } => {
            put_place(out, b"r", *from, *seq)?;
            put_next_number(out, *word)
        }
        Row::Mark(kind) => put_mark(out, *kind),
    }
}

/// The lines of rows.
pub(crate) fn put_rows(out: &mut Vec<u8>, rows: &[Row]) -> Result<(), NoMemory>
    ensures { OnOk result (out.new.items ≡ out.old.items ++ flat_map (λ row. ended (row_text row)) rows.now) }
{
    for row in rows {
        put_row(out, row)?;
        put(out, b"\n")?;
    }
    Ok(())
}
