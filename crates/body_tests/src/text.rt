//! What was seen, as lines of text.
use port_model::{Answer, Flag, Mail};
use process_end::{Outcome, Receipt, SendRefusal};
use std::alloc::{AllocError, Global};
use std::test::Fail;

/// Puts words and the numbers behind them, each behind a space.
pub(crate) fn put(text: &mut String, words: &str, numbers: &[u64]) -> Result<(), AllocError> {
    text.push_str(words)?;
    for number in numbers {
        write!(text, " {number}")?;
    }
    Ok(())
}

/// Puts a line: a process, words and numbers.
pub(crate) fn put_line(
    text: &mut String,
    process: u32,
    words: &str,
    numbers: &[u64],
) -> Result<(), AllocError> {
    write!(text, "p{process} ")?;
    put(text, words, numbers)?;
    text.push_str("\n")
}

/// Puts two lower-case hexadecimal digits for each byte.
pub(crate) fn put_bytes(text: &mut String, bytes: &[u8]) -> Result<(), AllocError> {
    for byte in bytes {
        write!(text, "{byte:02x}")?;
    }
    Ok(())
}

/// Puts a line: a process, words and the bytes behind them.
fn put_data(text: &mut String, process: u32, words: &str, bytes: &[u8]) -> Result<(), AllocError> {
    write!(text, "p{process} {words} ")?;
    put_bytes(text, bytes)?;
    text.push_str("\n")
}

/// Puts a line: the reason of an exit signal that came to a process.
fn put_exit(text: &mut String, process: u32, reason: &str) -> Result<(), AllocError> {
    write!(text, "p{process} exit {reason}\n")
}

/// Puts a line: the monitor of a process, and the reason for which what it looked at has ended.
fn put_down(text: &mut String, process: u32, monitor: u64, reason: &str) -> Result<(), AllocError> {
    write!(text, "p{process} down {monitor} {reason}\n")
}

fn flag_words(flag: Flag) -> &'static str {
    match flag {
        Flag::Plain => "data",
        Flag::Eol => "eol",
        Flag::Noeol => "noeol",
    }
}

/// Puts an answer.
fn put_answer(text: &mut String, answer: &Answer) -> Result<(), AllocError> {
    match answer {
        Answer::Bytes(bytes) if bytes.is_empty() => text.push_str("-"),
        Answer::Bytes(bytes) => put_bytes(text, bytes.as_slice()),
        Answer::True => text.push_str("true"),
        Answer::Badarg => text.push_str("badarg"),
    }
}

/// Puts a line: the answer to a signal of a process.
fn put_reply(text: &mut String, process: u32, seq: u64, answer: &Answer) -> Result<(), AllocError> {
    write!(text, "p{process} reply {seq} ")?;
    put_answer(text, answer)?;
    text.push_str("\n")
}

fn resume_words(closed: bool) -> &'static str {
    if closed { "resume closed" } else { "resume" }
}

/// Puts the line of a mail that came to a process.
pub(crate) fn put_mail(text: &mut String, process: u32, mail: &Mail) -> Result<(), AllocError> {
    match mail {
        Mail::Message { flag, bytes, .. } => {
            put_data(text, process, flag_words(*flag), bytes.as_slice())
        }
        Mail::Eof(_) => put_line(text, process, "eof", &[]),
        Mail::Status { status, .. } => {
            put_line(text, process, "status", &[u64::from(status.unsigned_abs())])
        }
        Mail::Closed(_) => put_line(text, process, "closed", &[]),
        Mail::Connected(_) => put_line(text, process, "connected", &[]),
        Mail::Exit { reason, .. } => put_exit(text, process, reason.as_str()),
        Mail::Down {
            monitor,
            reason,
            ..
        } => put_down(text, process, *monitor, reason.as_str()),
        Mail::Reply { seq, answer, .. } => put_reply(text, process, *seq, answer),
        Mail::Resume {
            seq,
            word,
            closed,
            ..
        } => put_line(text, process, resume_words(*closed), &[*seq, *word]),
    }
}

/// Puts the line of a refusal that a process got.
pub(crate) fn put_refusal(
    text: &mut String,
    process: u32,
    refusal: SendRefusal,
) -> Result<(), AllocError> {
    match refusal {
        SendRefusal::Closed { mark } => put_line(text, process, "refused closed", &[mark]),
        SendRefusal::NotSupported => put_line(text, process, "refused force", &[]),
        SendRefusal::TooLong { len } => put_line(text, process, "refused length", &[len]),
        SendRefusal::SentOut => put_line(text, process, "refused calls", &[]),
        SendRefusal::NoMemory => Err(AllocError),
    }
}

fn outcome_words(outcome: Outcome) -> &'static str {
    match outcome {
        Outcome::Accepted => "accepted",
        Outcome::Suspended => "suspended",
        Outcome::Dropped => "dropped",
        Outcome::Closed => "closed",
        Outcome::NotSupported => "not supported",
        Outcome::TooLong => "too long",
        Outcome::SentOut => "sent out",
    }
}

/// Puts a word and the number behind it, if there is one.
fn put_some(text: &mut String, word: &str, number: Option<u64>) -> Result<(), AllocError> {
    match number {
        Some(number) => write!(text, " {word} {number}"),
        None => Ok(()),
    }
}

/// Puts the numbers of a receipt.
fn put_words(text: &mut String, receipt: &Receipt) -> Result<(), AllocError> {
    put_some(text, "seq", receipt.seq)?;
    put_some(text, "stat", receipt.stat)?;
    put_some(text, "msgq", receipt.msgq)
}

/// Puts the line of a receipt of a process.
fn put_receipt(text: &mut String, process: u32, receipt: &Receipt) -> Result<(), AllocError> {
    let words = outcome_words(receipt.outcome);
    write!(text, "p{process} {words}")?;
    put_words(text, receipt)?;
    text.push_str("\n")
}

/// Puts the lines of the receipts of a process.
pub(crate) fn put_receipts(
    text: &mut String,
    process: u32,
    receipts: &[Receipt],
) -> Result<(), AllocError> {
    for receipt in receipts {
        put_receipt(text, process, receipt)?;
    }
    Ok(())
}

/// A text of these bytes.
pub(crate) fn text_of(bytes: Vec<u8>) -> Result<String, Fail> {
    match String::from_utf8(bytes) {
        Ok(text) => Ok(text),
        Err(_) => Err("no text".into()),
    }
}

/// So many times the same text.
pub(crate) fn times(alloc: Global, text: &str, count: usize) -> Result<String, AllocError> {
    let mut all = String::new(alloc);
    for _ in 0..count {
        all.push_str(text)?;
    }
    Ok(all)
}
