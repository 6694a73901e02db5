//! What a callback recorded, as text: each answer of the program, then each effect of the driver, and behind each a `;`.
use port_model::{Dir, Effect, Flag, Outside};
use std::alloc::{AllocError, Global};

/// Puts these words behind the text, and the bytes behind them.
fn put(text: &mut Vec<u8>, words: &[u8], bytes: &[u8]) -> Result<(), AllocError> {
    text.extend_from_slice(words)?;
    text.extend_from_slice(bytes)?;
    text.push(b';')?;
    Ok(())
}

/// A number below ten, and `?` for any other.
fn digit(number: u32) -> u8 {
    if number < 10 {
        b'0' + number as u8
    } else {
        b'?'
    }
}

fn status_digit(status: i32) -> u8 {
    match u32::try_from(status) {
        Ok(number) => digit(number),
        Err(_) => b'?',
    }
}

fn flag_words(flag: Flag) -> &'static [u8] {
    match flag {
        Flag::Plain => b"plain ",
        Flag::Eol => b"eol ",
        Flag::Noeol => b"noeol ",
    }
}

fn select_words(dir: Dir, on: bool) -> &'static [u8] {
    match dir {
        Dir::Read if on => b"read on",
        Dir::Read => b"read off",
        Dir::Write if on => b"write on",
        Dir::Write => b"write off",
    }
}

fn put_effect(text: &mut Vec<u8>, effect: &Effect) -> Result<(), AllocError> {
    match effect {
        Effect::Message { flag, bytes } => put(text, flag_words(*flag), bytes.as_slice()),
        Effect::Eof => put(text, b"eof", b""),
        Effect::Status(status) => put(text, b"status ", &[status_digit(*status)]),
        Effect::Busy(true) => put(text, b"busy", b""),
        Effect::Busy(false) => put(text, b"free", b""),
        Effect::Select { dir, on, .. } => put(text, select_words(*dir, *on), b""),
        Effect::Fail(reason) => put(text, b"fail ", reason.as_bytes()),
        _ => put(text, b"another effect", b""),
    }
}

fn put_answer(text: &mut Vec<u8>, answer: &Outside) -> Result<(), AllocError> {
    match answer {
        Outside::Took(count) => put(text, b"took ", &[digit(*count)]),
        Outside::Got(bytes) => put(text, b"got ", bytes.as_slice()),
        Outside::Again => put(text, b"again", b""),
        Outside::End => put(text, b"end", b""),
        Outside::Failed => put(text, b"failed", b""),
        Outside::Status(status) => put(text, b"ended ", &[status_digit(*status)]),
    }
}

/// The text of these answers and effects.
fn text_of(alloc: Global, answers: &[Outside], effects: &[Effect]) -> Result<Vec<u8>, AllocError> {
    let mut text = Vec::new(alloc);
    for answer in answers {
        put_answer(&mut text, answer)?;
    }
    for effect in effects {
        put_effect(&mut text, effect)?;
    }
    Ok(text)
}

/// Whether these answers and effects have this text.
pub(crate) fn shows(alloc: Global, answers: &[Outside], effects: &[Effect], wanted: &[u8]) -> bool {
    matches!(&text_of(alloc, answers, effects), Ok(text) if text.as_slice() == wanted)
}
