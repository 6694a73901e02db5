//! Whether two effects are the same.
ghost use Rattle.std.specs.Prelude.{◌≡◌};
ghost use Rattle.port_model.specs.declared.effect.Effect.TheVariants.{Async};
ghost use Rattle.driver_model.specs.Same.{same_bytes, same_dir, same_effect, same_effects, same_flag};

use port_model::{Dir, Effect, Flag, Piece};

/// Whether two messages ended alike.
fn same_flag(flag: Flag, other: Flag) -> bool
    ensures { result ≡ same_flag flag other }
{
    match flag {
        Flag::Plain => matches!(other, Flag::Plain),
        Flag::Eol => matches!(other, Flag::Eol),
        Flag::Noeol => matches!(other, Flag::Noeol),
    }
}

/// Whether two directions are the same.
fn same_dir(dir: Dir, other: Dir) -> bool
    ensures { result ≡ same_dir dir other }
{
    match dir {
        Dir::Read => matches!(other, Dir::Read),
        Dir::Write => matches!(other, Dir::Write),
    }
}

/// Whether two pieces have the same bytes.
fn same_bytes(bytes: &Piece, others: &Piece) -> bool
    ensures { result ≡ same_bytes bytes.now others.now }
{
    bytes.as_slice() == others.as_slice()
}

/// Whether an effect submits this job.
fn submits(effect: &Effect, number: u64, key: u32, code: u8, input: &Piece) -> bool
    ensures { result ≡ same_effect (Async number key code input.now) effect.now }
{
    match effect {
        Effect::Async {
            number: other,
            key: line,
            code: work,
            input: bytes,
        } => number == *other && key == *line && code == *work && same_bytes(input, bytes),
        _ => false,
    }
}

/// Whether two effects are the same.
fn same_effect(effect: &Effect, other: &Effect) -> bool
    ensures { result ≡ same_effect effect.now other.now }
{
    match (effect, other) {
        (
            Effect::Message { flag, bytes },
            Effect::Message {
                flag: ended,
                bytes: others,
            },
        ) => { same_flag(*flag, *ended) && same_bytes(bytes, others) }
        (Effect::Eof, Effect::Eof) | (Effect::ReplyBadarg, Effect::ReplyBadarg) => true,
        (Effect::Status(status), Effect::Status(other)) => *status == *other,
        (Effect::Busy(busy), Effect::Busy(other)) => *busy == *other,
        (
            Effect::Select { event, dir, on },
            Effect::Select {
                event: other,
                dir: way,
                on: set,
            },
        ) => *event == *other && same_dir(*dir, *way) && *on == *set,
        (Effect::Unuse(event), Effect::Unuse(other)) => *event == *other,
        (
            Effect::Async {
                number,
                key,
                code,
                input,
            },
            _,
        ) => { submits(other, *number, *key, *code, input) }
        (Effect::Watch(process), Effect::Watch(other)) => *process == *other,
        (Effect::Reply(bytes), Effect::Reply(others)) => same_bytes(bytes, others),
        (Effect::Fail(reason), Effect::Fail(other)) => reason.as_bytes() == other.as_bytes(),
        _ => false,
    }
}

/// Whether these are the same effects, in the same order.
pub(crate) fn same_effects(effects: &[Effect], others: &[Effect]) -> bool
    ensures { result ≡ same_effects effects.now others.now }
{
    if effects.len() != others.len() {
        return false;
    }
    for (place, effect) in effects.iter().enumerate() {
        if !same_effect(effect, &others[place]) {
            return false;
        }
    }
    true
}
