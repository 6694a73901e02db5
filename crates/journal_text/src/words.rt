//! The words of a line that are read, each from the front of the bytes that are left.

ghost use Rattle.std.specs.Prelude.{◌≡◌, if◌then◌else◌, nat_lt, None, ◌≤◌, ◌<◌, ◌^◌, ◌+◌, length, option_map};
ghost use Rattle.std.specs.List.{list_all, take_while, prefix_len};
ghost use Rattle.std.specs.Str.{bytes_eq};
ghost use Rattle.journal_text.specs.LinePartFault.{Reads};
ghost use Rattle.journal_text.specs.Words.{is_word_byte};
ghost use Rattle.journal_text.specs.Reading.{after, behind, is_digit, is_numeral, number_of, number_at, negative, status_of, status_at, name_of, name_at, is_lower_digit, bytes_of, bytes_at, spaced_at};

use crate::fault::LinePartFault;
use hex::FromHexError;
use port_model::{Piece, Reason};
use std::alloc::Global;

/// Whether a word may have this byte.
fn is_word_byte(byte: u8) -> bool
    ensures { result ≡ is_word_byte byte }
{
    !matches!(byte, b' ' | b',' | b'\n')
}

/// How many bytes the word in front has.
fn word_len(bytes: &[u8]) -> usize
    ensures count { result ≡ prefix_len is_word_byte bytes.now }
    ensures within { result ≤ length bytes.now }
{
    bytes.iter().take_while(|byte| is_word_byte(**byte)).count()
}

/// The word in front, which may be empty, and what stands behind it.
pub(crate) fn word(bytes: &[u8]) -> (&[u8], &[u8])
    ensures word { result.0.now ≡ take_while is_word_byte bytes.now }
    ensures rest { result.1.now ≡ behind is_word_byte bytes.now }
{
    bytes.split_at(word_len(bytes))
}

/// What stands behind this byte, if it is the first one.
pub(crate) fn after(byte: u8, bytes: &[u8]) -> Option<&[u8]>
    ensures { option_map (λ rest. rest.now) result ≡ after byte bytes.now }
{
    match bytes {
        [first, rest @ ..] if *first == byte => Some(rest),
        _ => None,
    }
}

/// What stands behind a space, if it is the first byte.
pub(crate) fn space(bytes: &[u8]) -> Option<&[u8]>
    ensures { option_map (λ rest. rest.now) result ≡ after 32 bytes.now }
{
    after(b' ', bytes)
}

/// Whether the word is this one.
pub(crate) fn spells(word: &[u8], this: &str) -> bool
    ensures { result ≡ bytes_eq word.now this.now }
{
    word == this.as_bytes()
}

fn is_digit(byte: u8) -> bool
    ensures { result ≡ is_digit byte }
{
    byte.is_ascii_digit()
}

fn all_digits(word: &[u8]) -> bool
    ensures { result ≡ list_all is_digit word.now }
{
    word.iter().all(|byte| is_digit(*byte))
}

/// Whether a word is decimal digits without leading zeros.
fn is_numeral(word: &[u8]) -> bool
    ensures { result ≡ is_numeral word.now }
{
    match word {
        [] => false,
        [first, digits @ ..] => all_digits(word) && (*first != b'0' || digits.is_empty()),
    }
}

/// The number of 64 bits that a word spells.
#[tactic(auto, unfolding(crate::specs::Reading::number_of))]
pub(crate) fn number_of(word: &[u8]) -> Option<u64>
    ensures { result ≡ number_of (2 ^ 64) word.now }
{
    if !is_numeral(word) {
        return None;
    }
    match str::from_utf8(word) {
        Ok(text) => text.parse().ok(),
        Err(_) => None,
    }
}

/// The number of 32 bits that a word spells.
#[tactic(auto, unfolding(crate::specs::Reading::number_of))]
pub(crate) fn number_32_of(word: &[u8]) -> Option<u32>
    ensures { result ≡ number_of (2 ^ 32) word.now }
{
    u32::try_from(number_of(word)?).ok()
}

/// The number below `limit` that a word spells.
#[tactic(auto, unfolding(crate::specs::Reading::number_of))]
pub(crate) fn number_below_of(limit: u32, word: &[u8]) -> Option<u32>
    ensures { result ≡ number_of limit word.now }
{
    let number = number_32_of(word)?;
    if number < limit { Some(number) } else { None }
}

/// The number of 8 bits that a word spells.
#[tactic(auto, unfolding(crate::specs::Reading::number_of))]
fn number_8_of(word: &[u8]) -> Option<u8>
    ensures { result ≡ number_of 256 word.now }
{
    u8::try_from(number_of(word)?).ok()
}

/// The number of 64 bits in front.
pub(crate) fn number(bytes: &[u8]) -> Option<(u64, &[u8])>
    ensures { option_map (λ x. (x.0, x.1.now)) result ≡ number_at (2 ^ 64) bytes.now }
{
    let (word, rest) = word(bytes);
    Some((number_of(word)?, rest))
}

/// The number of 32 bits in front.
pub(crate) fn number_32(bytes: &[u8]) -> Option<(u32, &[u8])>
    ensures { option_map (λ x. (x.0, x.1.now)) result ≡ number_at (2 ^ 32) bytes.now }
{
    let (word, rest) = word(bytes);
    Some((number_32_of(word)?, rest))
}

/// The number below `limit` in front.
pub(crate) fn number_below(limit: u32, bytes: &[u8]) -> Option<(u32, &[u8])>
    ensures { option_map (λ x. (x.0, x.1.now)) result ≡ number_at limit bytes.now }
{
    let (word, rest) = word(bytes);
    Some((number_below_of(limit, word)?, rest))
}

/// The number of 8 bits in front.
pub(crate) fn number_8(bytes: &[u8]) -> Option<(u8, &[u8])>
    ensures { option_map (λ x. (x.0, x.1.now)) result ≡ number_at 256 bytes.now }
{
    let (word, rest) = word(bytes);
    Some((number_8_of(word)?, rest))
}

/// The negative number with this absolute value, of 32 bits.
fn negative(number: u64) -> Option<i32>
    ensures { result ≡ (if nat_lt number (2 ^ 31 + 1) then negative number else None) }
{
    let below = i32::try_from(number.checked_sub(1)?).ok()?;
    Some(-1 - below)
}

/// The whole number of 32 bits that a word spells, with `-` before it where it is negative.
#[tactic(auto, unfolding(crate::specs::Reading::status_of, crate::specs::Reading::number_of))]
fn status_of(word: &[u8]) -> Option<i32>
    ensures { result ≡ status_of word.now }
{
    match word {
        [b'-', digits @ ..] => negative(number_of(digits)?),
        _ => i32::try_from(number_of(word)?).ok(),
    }
}

/// The whole number of 32 bits in front.
pub(crate) fn status(bytes: &[u8]) -> Option<(i32, &[u8])>
    ensures { option_map (λ x. (x.0, x.1.now)) result ≡ status_at bytes.now }
{
    let (word, rest) = word(bytes);
    Some((status_of(word)?, rest))
}

/// The name that a word is.
#[tactic(auto, unfolding(crate::specs::Reading::name_of))]
pub(crate) fn name_of(word: &[u8]) -> Option<Reason>
    ensures { result ≡ name_of word.now }
{
    Reason::of_bytes(word).ok()
}

/// The name in front.
pub(crate) fn name(bytes: &[u8]) -> Option<(Reason, &[u8])>
    ensures { option_map (λ x. (x.0, x.1.now)) result ≡ name_at bytes.now }
{
    let (word, rest) = word(bytes);
    Some((name_of(word)?, rest))
}

fn is_lower_digit(byte: u8) -> bool
    ensures { result ≡ is_lower_digit byte }
{
    matches!(byte, b'0'..=b'9' | b'a'..=b'f')
}

fn all_lower_digits(word: &[u8]) -> bool
    ensures { result ≡ list_all is_lower_digit word.now }
{
    word.iter().all(|byte| is_lower_digit(*byte))
}

/// The bytes that a word spells.
#[tactic(auto, unfolding(crate::specs::Reading::bytes_of))]
pub(crate) fn bytes_of(alloc: Global, word: &[u8]) -> Result<Piece, LinePartFault>
    ensures { Reads (λ piece. piece) result (bytes_of word.now) }
{
    if spells(word, "-") {
        return Ok(Piece::empty());
    }
    if !all_lower_digits(word) || word.is_empty() {
        return Err(LinePartFault::Bad);
    }
    match hex::decode(alloc, word) {
        Ok(bytes) => Ok(Piece::of_vec(bytes)?),
        Err(FromHexError::OutOfMemory) => Err(LinePartFault::NoMemory),
        Err(_) => Err(LinePartFault::Bad),
    }
}

/// The bytes in front.
pub(crate) fn bytes(alloc: Global, bytes: &[u8]) -> Result<(Piece, &[u8]), LinePartFault>
    ensures { Reads (λ x. (x.0, x.1.now)) result (bytes_at bytes.now) }
{
    let (word, rest) = word(bytes);
    Ok((bytes_of(alloc, word)?, rest))
}

/// The number of 64 bits behind a space.
pub(crate) fn next_number(bytes: &[u8]) -> Option<(u64, &[u8])>
    ensures { option_map (λ x. (x.0, x.1.now)) result ≡ spaced_at (number_at (2 ^ 64)) bytes.now }
{
    number(space(bytes)?)
}

/// The number of 32 bits behind a space.
pub(crate) fn next_number_32(bytes: &[u8]) -> Option<(u32, &[u8])>
    ensures { option_map (λ x. (x.0, x.1.now)) result ≡ spaced_at (number_at (2 ^ 32)) bytes.now }
{
    number_32(space(bytes)?)
}

/// The number of 8 bits behind a space.
pub(crate) fn next_number_8(bytes: &[u8]) -> Option<(u8, &[u8])>
    ensures { option_map (λ x. (x.0, x.1.now)) result ≡ spaced_at (number_at 256) bytes.now }
{
    number_8(space(bytes)?)
}

/// The number below `limit` behind a space.
pub(crate) fn next_number_below(limit: u32, bytes: &[u8]) -> Option<(u32, &[u8])>
    ensures { option_map (λ x. (x.0, x.1.now)) result ≡ spaced_at (number_at limit) bytes.now }
{
    number_below(limit, space(bytes)?)
}

/// The whole number of 32 bits behind a space.
pub(crate) fn next_status(bytes: &[u8]) -> Option<(i32, &[u8])>
    ensures { option_map (λ x. (x.0, x.1.now)) result ≡ spaced_at status_at bytes.now }
{
    status(space(bytes)?)
}

/// The name behind a space.
pub(crate) fn next_name(bytes: &[u8]) -> Option<(Reason, &[u8])>
    ensures { option_map (λ x. (x.0, x.1.now)) result ≡ spaced_at name_at bytes.now }
{
    name(space(bytes)?)
}

/// The bytes behind a space.
pub(crate) fn next_bytes(alloc: Global, front: &[u8]) -> Result<(Piece, &[u8]), LinePartFault>
    ensures { Reads (λ x. (x.0, x.1.now)) result (spaced_at bytes_at front.now) }
{
    bytes(alloc, space(front).ok_or(LinePartFault::Bad)?)
}
