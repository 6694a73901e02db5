//! What the terms of an input are made of: bytes, numbers, and names.

ghost use Rattle.std.specs.Prelude.{◌≡◌, ◌-◌, ◌≤◌, length, IfOk};
ghost use Rattle.std.specs.Int.{w16, w32};
ghost use Rattle.std.specs.Str.{chars};
ghost use Rattle.std.specs.String.{string_bytes};
ghost use Rattle.port_terms.specs.declared.values.TheConstants.{MAX_ITEMS};
ghost use Rattle.port_terms.specs.Spelling.{ints};
ghost use Rattle.port_terms.specs.Reading.{Gives, byte_at, number_at, front_at, count_at, tail_at, utf8_name as name_of_utf8, latin1_name as name_of_latin1};

use crate::faults::{AtomFault, TermFault};
use crate::makers::atom;
use crate::tags::NIL_EXT;
use crate::values::{AtomName, MAX_ITEMS, MAX_NAME_CHARS, Term, Terms};
use std::alloc::{AllocError, Global};

/// An input of `size` bytes. Each reader takes the bytes that are left of it, and gives a value and what is left then.
#[derive(Clone, Copy)]
pub(crate) struct Input {
    pub(crate) alloc: Global,
    pub(crate) size: usize,
}

impl Input {
    /// The place of the first byte that is left.
    pub(crate) fn place(self, rest: &[u8]) -> u64
        ensures { result ≡ self.size - length rest.now }
    {
        self.size.saturating_sub(rest.len()) as u64
    }

    fn cut(self) -> TermFault
        ensures { result ≡ TermFault.Cut self.size }
    {
        TermFault::Cut {
            at: self.size as u64,
        }
    }

    pub(crate) fn byte(self, bytes: &[u8]) -> Result<(u8, &[u8]), TermFault>
        ensures { Gives (λ x. (x.0, x.1.now)) result (byte_at self.size bytes.now) }
    {
        match bytes {
            [first, rest @ ..] => Ok((*first, rest)),
            [] => Err(self.cut()),
        }
    }

    pub(crate) fn number16(self, bytes: &[u8]) -> Result<(u16, &[u8]), TermFault>
        ensures { Gives (λ x. (x.0, x.1.now)) result (number_at w16 self.size bytes.now) }
    {
        if bytes.len() < 2 {
            return Err(self.cut());
        }
        let (front, rest) = bytes.split_at(2);
        Ok((u16::from_be_bytes([front[0], front[1]]), rest))
    }

    pub(crate) fn number32(self, bytes: &[u8]) -> Result<(u32, &[u8]), TermFault>
        ensures { Gives (λ x. (x.0, x.1.now)) result (number_at w32 self.size bytes.now) }
    {
        if bytes.len() < 4 {
            return Err(self.cut());
        }
        let (front, rest) = bytes.split_at(4);
        let number = u32::from_be_bytes([front[0], front[1], front[2], front[3]]);
        Ok((number, rest))
    }

    /// So many bytes.
    pub(crate) fn front(self, n: usize, bytes: &[u8]) -> Result<(&[u8], &[u8]), TermFault>
        ensures gives { Gives (λ x. (x.0.now, x.1.now)) result (front_at n self.size bytes.now) }
        ensures len { IfOk result (λ x. length x.0.now ≡ n) }
    {
        if bytes.len() < n {
            return Err(self.cut());
        }
        Ok(bytes.split_at(n))
    }

    /// A number of items or bytes, of the term at `at`.
    pub(crate) fn count(self, at: u64, bytes: &[u8]) -> Result<(usize, &[u8]), TermFault>
        ensures gives { Gives (λ x. (x.0, x.1.now)) result (count_at at self.size bytes.now) }
        ensures few { IfOk result (λ x. x.0 ≤ MAX_ITEMS) }
    {
        let (n, rest) = self.number32(bytes)?;
        if n as usize > MAX_ITEMS {
            return Err(TermFault::TooBig { at });
        }
        Ok((n as usize, rest))
    }

    /// The tail of a list, which is to be the empty list.
    pub(crate) fn tail(self, bytes: &[u8]) -> Result<(u8, &[u8]), TermFault>
        ensures { Gives (λ x. (x.0, x.1.now)) result (tail_at self.size bytes.now) }
    {
        let (tag, rest) = self.byte(bytes)?;
        if tag != NIL_EXT {
            return Err(TermFault::NotServed {
                at: self.place(bytes),
                tag,
            });
        }
        Ok((tag, rest))
    }
}

/// The name that UTF-8 spells, of the atom at `at`.
pub(crate) fn utf8_name(alloc: Global, at: u64, text: &[u8]) -> Result<AtomName, TermFault>
    ensures { Gives (λ name. name) result (name_of_utf8 at text.now) }
{
    let Ok(text) = str::from_utf8(text) else {
        return Err(TermFault::BadText { at });
    };
    match atom(alloc, text) {
        Ok(name) => Ok(name),
        Err(AtomFault::TooLong { .. }) => Err(TermFault::BadText { at }),
        Err(AtomFault::NoMemory) => Err(TermFault::NoMemory),
    }
}

/// The name that Latin-1 spells, a character a byte, of the atom at `at`.
pub(crate) fn latin1_name(alloc: Global, at: u64, text: &[u8]) -> Result<AtomName, TermFault>
    ensures { Gives (λ name. name) result (name_of_latin1 at text.now) }
{
    if text.len() > MAX_NAME_CHARS {
        return Err(TermFault::BadText { at });
    }
    Ok(AtomName::new(latin1_text(alloc, text)?))
}

fn latin1_text(alloc: Global, text: &[u8]) -> Result<String, AllocError>
    ensures { IfOk result (λ s. chars (string_bytes s) ≡ text.now) }
{
    let mut name = String::new(alloc);
    for byte in text {
        name.push(char::from(*byte))?;
    }
    Ok(name)
}

/// The bytes, each as an integer.
pub(crate) fn integers(alloc: Global, bytes: &[u8]) -> Result<Terms, AllocError>
    requires { length bytes.now ≤ MAX_ITEMS }
    ensures { IfOk result (λ ts. ts ≡ ints bytes.now) }
{
    let mut items = Vec::new(alloc);
    for byte in bytes {
        items.push(Term::Int(i64::from(*byte)))?;
    }
    Ok(Terms::new(items))
}
