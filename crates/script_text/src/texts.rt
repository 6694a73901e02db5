//! TEXTs: bytes in double quotes, some of them escaped.

ghost use Rattle.std.specs.Prelude.{◌≡◌, ◌<◌, ◌≤◌, ◌+◌, ◌*◌, ◌-◌, ℕ, List, Some, None, false, All, length, take, option_map, IfOk, IfErr, IfSome};
ghost use Rattle.port_terms.specs.declared.values.TheConstants.{MAX_ITEMS};
ghost use Rattle.std.specs.Cow.{cow_slice_items};
ghost use Rattle.script_text.specs.Texts.{SpellsText};
ghost use Rattle.script_text.specs.InFront.{InFront};
ghost use Rattle.script_text.specs.PartFault.{Reads, Gives};
ghost use Rattle.script_text.specs.Borrowed.{Borrows, IsFrontOf};
ghost use Rattle.script_text.specs.declared.fault.PartFault.TheVariants.{NoMemory};
ghost use Rattle.memchr.specs.Find.{is_byte2};
ghost use Rattle.script_text.specs.Reading.{hex_value, hexadecimal_at, escape_at, byte_at, content_at, text_at};

use crate::fault::PartFault;
use crate::tokens::after;
use memchr::memchr2;
use port_terms::{MAX_ITEMS, Octets, octets};
use std::alloc::Global;
use std::borrow::CowSlice;

/// The TEXT in front of the bytes, and what stands behind it. Bytes of a TEXT stand for themselves, or are escaped as `\n`, `\r`,
/// `\t`, `\\`, `\"` or `\xHH` with two digits from `0` to `9` and from `a` to `f`. It has at most 262,143 bytes.
pub fn read_text(alloc: Global, bytes: &[u8]) -> Result<(Octets, &[u8]), PartFault>
    // What is read is spelled so.
    ensures found { IfOk result (λ x. InFront SpellsText x.0 bytes.now x.1.now) }
    // What is spelled so is read, unless memory runs out.
    ensures only { (content rest : List ℕ) → InFront SpellsText content bytes.now rest → Gives (λ x. x.0) (λ x. x.1.now) result content rest }
    // It is what the definition reads there.
    ensures reads { Reads (λ x. (x.0, x.1.now)) result (text_at bytes.now) }
{
    text(alloc, bytes)
}

/// The bytes of the TEXT in front, as `read_text` reads it, in a `Vec` that the caller may grow or hand on.
pub fn read_text_bytes(alloc: Global, bytes: &[u8]) -> Result<(Vec<u8>, &[u8]), PartFault>
    // What is read is spelled so.
    ensures found { IfOk result (λ x. InFront SpellsText x.0.items bytes.now x.1.now) }
    // What is spelled so is read, unless memory runs out.
    ensures only { (content rest : List ℕ) → InFront SpellsText content bytes.now rest → Gives (λ x. x.0.items) (λ x. x.1.now) result content rest }
    // It is what the definition reads there.
    ensures reads { Reads (λ x. (x.0.items, x.1.now)) result (text_at bytes.now) }
{
    text_bytes(alloc, bytes)
}

/// The bytes of the TEXT in front, as `read_text` reads it. Where it has no escapes none is copied: they are borrowed from where they
/// stand, behind the opening quote.
pub fn read_text_content(
    alloc: Global,
    bytes: &[u8],
) -> Result<(CowSlice<'_, u8>, &[u8]), PartFault>
    // It is what the definition reads there.
    ensures reads { Reads (λ x. (cow_slice_items x.0, x.1.now)) result (text_at bytes.now) }
    // Where it is borrowed, it stands behind the first byte.
    ensures borrowed { IfOk result (λ x. Borrows x.0 bytes.now) }
{
    text_content(alloc, bytes)
}

/// The TEXT in front, and what stands behind it.
pub(crate) fn text(alloc: Global, bytes: &[u8]) -> Result<(Octets, &[u8]), PartFault>
    ensures reads { Reads (λ x. (x.0, x.1.now)) result (text_at bytes.now) }
    ensures few { IfOk result (λ x. length x.0 ≤ MAX_ITEMS) }
{
    let (content, rest) = text_bytes(alloc, bytes)?;
    Ok((octets(content), rest))
}

/// The bytes of the TEXT in front, and what stands behind it.
pub(crate) fn text_bytes(alloc: Global, bytes: &[u8]) -> Result<(Vec<u8>, &[u8]), PartFault>
    ensures reads { Reads (λ x. (x.0.items, x.1.now)) result (text_at bytes.now) }
    ensures few { IfOk result (λ x. length x.0.items ≤ MAX_ITEMS) }
{
    let (content, rest) = text_content(alloc, bytes)?;
    Ok((owned(alloc, content)?, rest))
}

/// The bytes, copied where they are borrowed.
fn owned(alloc: Global, bytes: CowSlice<'_, u8>) -> Result<Vec<u8>, PartFault>
    ensures owned { IfOk result (λ owned. owned.items ≡ cow_slice_items bytes.entry) }
    ensures memory { IfErr result (λ fault. fault ≡ NoMemory) }
{
    match bytes {
        CowSlice::Borrowed(bytes) => Ok(Vec::from_slice(alloc, bytes)?),
        CowSlice::Owned(bytes) => Ok(bytes),
    }
}

/// The bytes of the TEXT in front, and what stands behind it. Those of a text without escapes are borrowed from where they stand.
#[tactic(auto, unfolding(crate::specs::Reading::text_at))]
pub(crate) fn text_content(
    alloc: Global,
    bytes: &[u8],
) -> Result<(CowSlice<'_, u8>, &[u8]), PartFault>
    ensures reads { Reads (λ x. (cow_slice_items x.0, x.1.now)) result (text_at bytes.now) }
    ensures few { IfOk result (λ x. length (cow_slice_items x.0) ≤ MAX_ITEMS) }
    ensures borrowed { IfOk result (λ x. Borrows x.0 bytes.now) }
{
    let inner = after(b'"', bytes).ok_or(PartFault::Bad)?;
    content(alloc, inner)
}

/// The bytes that a text spells up to its closing quote, and what stands behind that. Those of a text without escapes are borrowed
/// from where they stand.
fn content(alloc: Global, bytes: &[u8]) -> Result<(CowSlice<'_, u8>, &[u8]), PartFault>
    ensures reads { Reads (λ x. (cow_slice_items x.0, x.1.now)) result (content_at (MAX_ITEMS + 1) bytes.now) }
    ensures few { IfOk result (λ x. length (cow_slice_items x.0) ≤ MAX_ITEMS) }
    ensures front { IfOk result (λ x. IsFrontOf x.0 bytes.now) }
{
    let (plain, behind) = bytes.split_at(plain_len(bytes));
    if plain.len() <= MAX_ITEMS
        && let Some(rest) = after(b'"', behind)
    {
        return Ok((CowSlice::Borrowed(plain), rest));
    }
    let (content, rest) = content_with_escapes(alloc, bytes)?;
    Ok((CowSlice::Owned(content), rest))
}

/// The bytes that a text spells up to its closing quote, and what stands behind that. Those that stand for themselves are taken
/// run by run, each run up to a quote or an escape.
fn content_with_escapes(alloc: Global, bytes: &[u8]) -> Result<(Vec<u8>, &[u8]), PartFault>
    ensures reads { Reads (λ x. (x.0.items, x.1.now)) result (content_at (MAX_ITEMS + 1) bytes.now) }
    ensures few { IfOk result (λ x. length x.0.items ≤ MAX_ITEMS) }
{
    let mut content = Vec::new(alloc);
    let mut rest = bytes;
    for _ in 0..MAX_ITEMS + 1 {
        let (plain, behind) = rest.split_at(plain_len(rest));
        if content.len() + plain.len() > MAX_ITEMS {
            return Err(PartFault::Bad);
        }
        content.extend_from_slice(plain)?;
        if let Some(behind) = after(b'"', behind) {
            return Ok((content, behind));
        }
        let Some((byte, behind)) = byte(behind) else {
            return Err(PartFault::Bad);
        };
        content.push(byte)?;
        rest = behind;
    }
    Err(PartFault::Bad)
}

/// How many bytes stand before the first quote or backslash.
fn plain_len(bytes: &[u8]) -> usize
    ensures within { result ≤ length bytes.now }
    ensures plain { All (λ byte. is_byte2 34 92 byte ≡ false) (take result bytes.now) }
{
    match memchr2(b'"', b'\\', bytes) {
        Some(at) => at,
        None => bytes.len(),
    }
}

/// The byte that the content of a text spells in front, and what stands behind it.
#[tactic(auto, unfolding(crate::specs::Reading::byte_at))]
fn byte(content: &[u8]) -> Option<(u8, &[u8])>
    ensures { option_map (λ x. (x.0, x.1.now)) result ≡ byte_at content.now }
{
    match content {
        [] | [b'"', ..] => None,
        [b'\\', rest @ ..] => escape(rest),
        [byte, rest @ ..] => Some((*byte, rest)),
    }
}

/// The byte of an escape, behind its backslash.
fn escape(bytes: &[u8]) -> Option<(u8, &[u8])>
    ensures { option_map (λ x. (x.0, x.1.now)) result ≡ escape_at bytes.now }
{
    let [kind, rest @ ..] = bytes else {
        return None;
    };
    match kind {
        b'n' => Some((b'\n', rest)),
        b'r' => Some((b'\r', rest)),
        b't' => Some((b'\t', rest)),
        b'\\' => Some((b'\\', rest)),
        b'"' => Some((b'"', rest)),
        b'x' => hexadecimal(rest),
        _ => None,
    }
}

/// The byte of two hexadecimal digits.
fn hexadecimal(bytes: &[u8]) -> Option<(u8, &[u8])>
    ensures { option_map (λ x. (x.0, x.1.now)) result ≡ hexadecimal_at bytes.now }
{
    let [high, low, rest @ ..] = bytes else {
        return None;
    };
    Some((16 * hex_value(*high)? + hex_value(*low)?, rest))
}

/// The number below 16 that a hexadecimal digit stands for.
fn hex_value(digit: u8) -> Option<u8>
    ensures value { result ≡ hex_value digit }
    ensures small { IfSome result (λ value. value < 16) }
{
    match digit {
        b'0'..=b'9' => Some(digit - b'0'),
        b'a'..=b'f' => Some(digit - b'a' + 10),
        _ => None,
    }
}
