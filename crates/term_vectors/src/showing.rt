//! The texts of terms and faults, as the vectors have them.

use port_terms::{MAX_DEPTH, Term, TermFault};
use std::alloc::{AllocError, Global};

/// The text of a term: numbers, names, `"TEXT"` for a list of bytes, `<<"TEXT">>` for a binary, and items between
/// brackets. A text has the escapes of a script, and a name that is none of a script has Erlang's quotes.
pub fn term_text(alloc: Global, term: &Term) -> Result<String, AllocError> {
    let mut out = String::new(alloc);
    put_term(&mut out, MAX_DEPTH, term)?;
    Ok(out)
}

/// Appends the text of a term, down to so many levels.
#[cycle(show)]
fn put_term(out: &mut String, levels: u32, term: &Term) -> Result<(), AllocError> {
    match term {
        Term::Int(number) => write!(out, "{number}")?,
        Term::Atom(name) => put_name(out, name.as_str())?,
        Term::Bin(octets) => {
            out.push_str("<<")?;
            put_text(out, octets.as_slice())?;
            out.push_str(">>")?;
        }
        Term::Tuple(items) => {
            out.push('{')?;
            put_items(out, levels, items.as_slice())?;
            out.push('}')?;
        }
        Term::List(items) => put_list(out, levels, items.as_slice())?,
    }
    Ok(())
}

#[cycle(show)]
fn put_list(out: &mut String, levels: u32, items: &[Term]) -> Result<(), AllocError> {
    let mut bytes = Vec::new(*out.allocator());
    for item in items {
        if let Some(byte) = byte_of(item) {
            bytes.push(byte)?;
        }
    }
    if !items.is_empty() && bytes.len() == items.len() {
        return put_text(out, &bytes);
    }
    out.push('[')?;
    put_items(out, levels, items)?;
    out.push(']')?;
    Ok(())
}

#[cycle(show)]
fn put_items(out: &mut String, levels: u32, items: &[Term]) -> Result<(), AllocError> {
    if levels == 0 {
        return Ok(());
    }
    for (i, item) in items.iter().enumerate() {
        if i > 0 {
            out.push(',')?;
        }
        put_term(out, levels - 1, item)?;
    }
    Ok(())
}

fn byte_of(term: &Term) -> Option<u8> {
    match term {
        Term::Int(number) => u8::try_from(*number).ok(),
        _ => None,
    }
}

/// Appends bytes between double quotes.
fn put_text(out: &mut String, bytes: &[u8]) -> Result<(), AllocError> {
    out.push('"')?;
    for byte in bytes {
        match *byte {
            b'\n' => out.push_str("\\n")?,
            b'\r' => out.push_str("\\r")?,
            b'\t' => out.push_str("\\t")?,
            b'"' => out.push_str("\\\"")?,
            b'\\' => out.push_str("\\\\")?,
            b' '..=b'~' => out.push(char::from(*byte))?,
            other => write!(out, "\\x{other:02x}")?,
        }
    }
    out.push('"')?;
    Ok(())
}

/// Appends the name of an atom, quoted unless it is a name of a script.
fn put_name(out: &mut String, name: &str) -> Result<(), AllocError> {
    if is_script_name(name) {
        out.push_str(name)?;
        return Ok(());
    }
    out.push('\'')?;
    for c in name.chars() {
        match c {
            '\'' => out.push_str("\\'")?,
            '\\' => out.push_str("\\\\")?,
            ' '..='~' => out.push(c)?,
            other => write!(out, "\\x{{{:x}}}", u32::from(other))?,
        }
    }
    out.push('\'')?;
    Ok(())
}

/// A letter, and up to 15 letters, digits or `_`.
fn is_script_name(name: &str) -> bool {
    match name.as_bytes() {
        [b'a'..=b'z', rest @ ..] => {
            rest.len() <= 15
                && rest
                    .iter()
                    .all(|b| matches!(*b, b'a'..=b'z' | b'0'..=b'9' | b'_'))
        }
        _ => false,
    }
}

/// The text of a fault, with its place and its tag.
pub fn fault_text(alloc: Global, fault: TermFault) -> Result<String, AllocError> {
    match fault {
        TermFault::Cut { at } => format!(in alloc; "Cut{{{at}}}"),
        TermFault::BadTag { at, tag } => format!(in alloc; "BadTag{{{at}, {tag}}}"),
        TermFault::NotServed { at, tag } => format!(in alloc; "NotServed{{{at}, {tag}}}"),
        TermFault::TooBig { at } => format!(in alloc; "TooBig{{{at}}}"),
        TermFault::BadText { at } => format!(in alloc; "BadText{{{at}}}"),
        TermFault::Trailing { at } => format!(in alloc; "Trailing{{{at}}}"),
        TermFault::TooDeep { at } => format!(in alloc; "TooDeep{{{at}}}"),
        TermFault::NoMemory => String::from_str(alloc, "NoMemory"),
    }
}
