use crate::showing::{fault_text, term_text};
use anyhow::{Context, Result, anyhow};
use port_terms::{decode, encode};
use std::alloc::Global;

/// How a line fared.
#[derive(Debug, Drop)]
pub enum LineVerdict {
    /// The bytes are read, and are what is written of their term.
    Written,
    /// The bytes are read, and another spelling of their term is written.
    Read,
    /// The bytes are refused with their fault.
    Refused,
    /// Anything else, with what was found in place of what the line says.
    Wrong(String),
}

/// How many lines fared so.
#[derive(Clone, Copy, Debug, Default)]
pub struct LineCounts {
    pub written: u64,
    pub read: u64,
    pub refused: u64,
    pub wrong: u64,
}

impl LineCounts {
    pub fn count(&mut self, verdict: &LineVerdict) {
        let number = match verdict {
            LineVerdict::Written => &mut self.written,
            LineVerdict::Read => &mut self.read,
            LineVerdict::Refused => &mut self.refused,
            LineVerdict::Wrong(_) => &mut self.wrong,
        };
        *number = number.saturating_add(1);
    }
}

/// Checks one line.
pub fn check(alloc: Global, line: &str) -> Result<LineVerdict> {
    let (digits, rest) = line.split_once('\t').context("a line of one column")?;
    let bytes = hex::decode(alloc, digits).context("bytes in hexadecimal")?;
    match rest.split_once('\t') {
        Some((text, kind)) => check_accepted(alloc, &bytes, text, kind == "read"),
        None => check_refused(alloc, &bytes, rest),
    }
}

/// Checks that the bytes are read as the term with that text, and that the writer chooses them or another spelling.
fn check_accepted(
    alloc: Global,
    bytes: &[u8],
    text: &str,
    is_read_only: bool,
) -> Result<LineVerdict> {
    let term = match decode(alloc, bytes) {
        Ok(term) => term,
        Err(fault) => return Ok(LineVerdict::Wrong(fault_text(alloc, fault)?)),
    };
    let found = term_text(alloc, &term)?;
    if found.as_str() != text {
        return Ok(LineVerdict::Wrong(found));
    }
    let written = encode(alloc, &term)?;
    if (written.as_slice() == bytes) == is_read_only {
        return Ok(LineVerdict::Wrong(hex::encode(alloc, written)?));
    }
    Ok(if is_read_only {
        LineVerdict::Read
    } else {
        LineVerdict::Written
    })
}

/// Checks that the bytes are refused with the fault of that text.
fn check_refused(alloc: Global, bytes: &[u8], text: &str) -> Result<LineVerdict> {
    let found = match decode(alloc, bytes) {
        Ok(term) => term_text(alloc, &term)?,
        Err(fault) => fault_text(alloc, fault)?,
    };
    if found.as_str() == text {
        Ok(LineVerdict::Refused)
    } else {
        Ok(LineVerdict::Wrong(found))
    }
}
