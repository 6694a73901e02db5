//! Effects as a table tells them.

use port_model::{Dir, Effect, Flag};

/// An effect.
#[derive(Clone, Copy)]
pub(crate) enum ShownEffect {
    /// A message of these bytes, which is no line.
    Sent(&'static [u8]),
    /// A message of these bytes, a line's part.
    Part(&'static [u8]),
    Eof,
    Status(i32),
    Busy(bool),
    /// An event is selected for reading.
    SelectsRead(u32),
    Unuse(u32),
    /// A job of this number, key, code and input.
    Job(u64, u32, u8, &'static [u8]),
    Watch(u32),
    Reply(&'static [u8]),
    ReplyBadarg,
    FailsNormally,
    Fails(&'static [u8]),
}

impl ShownEffect {
    /// Whether this effect is told.
    fn is(self, effect: &Effect) -> bool {
        match self {
            ShownEffect::Sent(_)
            | ShownEffect::Part(_)
            | ShownEffect::Reply(_)
            | ShownEffect::Fails(_) => { self.has_bytes_of(effect) }
            ShownEffect::Job(number, key, code, input) => is_job(
                effect,
                (number, key, code),
                input,
            ),
            ShownEffect::SelectsRead(wanted) => is_read(effect, wanted),
            ShownEffect::Status(wanted) =>
                matches!(effect, Effect::Status(status) if *status == wanted),
            ShownEffect::Busy(wanted) => matches!(effect, Effect::Busy(busy) if *busy == wanted),
            ShownEffect::Unuse(wanted) =>
                matches!(effect, Effect::Unuse(event) if *event == wanted),
            ShownEffect::Watch(wanted) =>
                matches!(effect, Effect::Watch(process) if *process == wanted),
            ShownEffect::Eof => matches!(effect, Effect::Eof),
            ShownEffect::ReplyBadarg => matches!(effect, Effect::ReplyBadarg),
            ShownEffect::FailsNormally => {
                matches!(effect, Effect::Fail(reason) if reason.is_normal())
            }
        }
    }

    /// Whether this effect is told, of those that are told by their bytes.
    fn has_bytes_of(self, effect: &Effect) -> bool {
        match (self, effect) {
            (
                ShownEffect::Sent(wanted),
                Effect::Message {
                    flag: Flag::Plain,
                    bytes,
                },
            ) => bytes.as_slice() == wanted,
            (
                ShownEffect::Part(wanted),
                Effect::Message {
                    flag: Flag::Noeol,
                    bytes,
                },
            ) => bytes.as_slice() == wanted,
            (ShownEffect::Reply(wanted), Effect::Reply(bytes)) => bytes.as_slice() == wanted,
            (ShownEffect::Fails(wanted), Effect::Fail(reason)) => reason.as_bytes() == wanted,
            _ => false,
        }
    }
}

/// Whether an effect is a job of this number, key and code, and of this input.
fn is_job(effect: &Effect, wanted: (u64, u32, u8), wanted_input: &[u8]) -> bool {
    match effect {
        Effect::Async {
            number,
            key,
            code,
            input,
        } => (*number, *key, *code) == wanted && input.as_slice() == wanted_input,
        _ => false,
    }
}

/// Whether an effect is that this event is selected for reading.
fn is_read(effect: &Effect, wanted: u32) -> bool {
    match effect {
        Effect::Select {
            event,
            dir: Dir::Read,
            on: true,
        } => *event == wanted,
        _ => false,
    }
}

/// Whether these effects, and no others, are told in their order.
pub(crate) fn are_shown(effects: &[Effect], wanted: &[ShownEffect]) -> bool {
    if effects.len() != wanted.len() {
        return false;
    }
    for (effect, shown) in effects.iter().zip(wanted.iter()) {
        if !shown.is(effect) {
            return false;
        }
    }
    true
}
