//! The words of a line, each read from the front of the bytes that are left.

ghost use Rattle.std.specs.Prelude.{◌≡◌, ◌≤◌, length, drop, option_map};
ghost use Rattle.std.specs.List.{take_while, prefix_len};
ghost use Rattle.std.specs.Str.{bytes_eq};
ghost use Rattle.script_text.specs.PartFault.{Reads};
ghost use Rattle.gateway_script.specs.Source.{EndsAt};
ghost use Rattle.gateway_script.specs.Words.{is_word_byte, gap_at, next_word_at, name_of, next_name_at, is_reserved, free_name_of, next_free_name_at, next_number_at, number_within, next_text_at, next_file_at, utf8_name_of};

use crate::source::LineSource;
use script_plan::{FileName, Piece, Reason};
use script_text::{PartFault, read_number, read_text_bytes, read_text_content, skip_gap};
use std::alloc::Global;

/// Whether a word has this byte.
fn is_word_byte(byte: u8) -> bool
    ensures { result ≡ is_word_byte byte }
{
    byte != b' '
}

/// How many bytes the word in front has.
fn word_len(bytes: &[u8]) -> usize
    ensures count { result ≡ prefix_len is_word_byte bytes.now }
    ensures within { result ≤ length bytes.now }
{
    bytes.iter().take_while(|byte| is_word_byte(**byte)).count()
}

/// The word in front, which may be empty, and what stands behind it.
pub(crate) fn word(bytes: &[u8]) -> (&[u8], &[u8])
    ensures word { result.0.now ≡ take_while is_word_byte bytes.now }
    ensures rest { result.1.now ≡ drop (prefix_len is_word_byte bytes.now) bytes.now }
{
    bytes.split_at(word_len(bytes))
}

/// What stands behind one or more spaces.
pub(crate) fn gap(bytes: &[u8]) -> Option<&[u8]>
    ensures { option_map (λ rest. rest.now) result ≡ gap_at bytes.now }
{
    match bytes {
        [b' ', rest @ ..] => Some(skip_gap(rest)),
        _ => None,
    }
}

/// The word behind a gap.
#[tactic(auto, unfolding(crate::specs::Words::next_word_at))]
pub(crate) fn next_word(bytes: &[u8]) -> Option<(&[u8], &[u8])>
    ensures { option_map (λ x. (x.0.now, x.1.now)) result ≡ next_word_at bytes.now }
{
    Some(word(gap(bytes)?))
}

/// The NAME that a word is.
fn name_of(word: &[u8]) -> Option<Reason>
    ensures { result ≡ name_of word.now }
{
    Reason::of_bytes(word).ok()
}

/// The NAME behind a gap.
#[tactic(auto, unfolding(crate::specs::Words::next_name_at))]
pub(crate) fn next_name(bytes: &[u8]) -> Option<(Reason, &[u8])>
    ensures { option_map (λ x. (x.0, x.1.now)) result ≡ next_name_at bytes.now }
{
    let (word, rest) = next_word(bytes)?;
    Some((name_of(word)?, rest))
}

/// Whether no process and no port can have this name.
fn is_reserved(name: &Reason) -> bool
    ensures { result ≡ is_reserved name.now }
{
    let name = name.as_bytes();
    spells(name, "process")
        || spells(name, "port")
        || spells(name, "journal")
        || spells(name, "save")
}

/// The NAME that a word is, if a process or a port can have it.
pub(crate) fn free_name_of(word: &[u8]) -> Option<Reason>
    ensures { result ≡ free_name_of word.now }
{
    let name = name_of(word)?;
    if is_reserved(&name) {
        return None;
    }
    Some(name)
}

/// The NAME behind a gap, if a process or a port can have it.
#[tactic(auto, unfolding(crate::specs::Words::next_free_name_at))]
pub(crate) fn next_free_name(bytes: &[u8]) -> Option<(Reason, &[u8])>
    ensures { option_map (λ x. (x.0, x.1.now)) result ≡ next_free_name_at bytes.now }
{
    let (word, rest) = next_word(bytes)?;
    Some((free_name_of(word)?, rest))
}

/// Whether the word is this one.
pub(crate) fn spells(word: &[u8], this: &str) -> bool
    ensures { result ≡ bytes_eq word.now this.now }
{
    is_same(word, this.as_bytes())
}

/// Whether the two are the same. They are compared from the end, since most names of a script that differ do so there.
#[inline(always)]
pub(crate) fn is_same(left: &[u8], right: &[u8]) -> bool
    ensures { result ≡ bytes_eq left.now right.now }
{
    if left.len() != right.len() {
        return false;
    }
    let mut place = left.len();
    while place > 0 {
        place -= 1;
        if left[place] != right[place] {
            return false;
        }
    }
    true
}

/// The NUMBER behind a gap.
#[tactic(auto, unfolding(crate::specs::Words::next_number_at))]
pub(crate) fn next_number(bytes: &[u8]) -> Option<(u64, &[u8])>
    ensures { option_map (λ x. (x.0, x.1.now)) result ≡ next_number_at bytes.now }
{
    read_number(gap(bytes)?)
}

/// The NUMBER behind a gap, if it lies between these.
#[tactic(auto, unfolding(crate::specs::Words::number_within))]
pub(crate) fn number_within(low: u32, high: u32, bytes: &[u8]) -> Option<(u32, &[u8])>
    ensures { option_map (λ x. (x.0, x.1.now)) result ≡ number_within low high bytes.now }
{
    let (number, rest) = next_number(bytes)?;
    match u32::try_from(number) {
        Ok(number) if low <= number && number <= high => Some((number, rest)),
        _ => None,
    }
}

/// The bytes of the TEXT behind a gap.
#[tactic(auto, unfolding(crate::specs::Words::next_text_at))]
fn next_text(alloc: Global, bytes: &[u8]) -> Result<(Vec<u8>, &[u8]), PartFault>
    ensures { Reads (λ x. (x.0.items, x.1.now)) result (next_text_at bytes.now) }
{
    let inner = gap(bytes).ok_or(PartFault::Bad)?;
    read_text_bytes(alloc, inner)
}

/// The TEXT behind a gap, as bytes that can be shared.
pub(crate) fn next_piece(alloc: Global, bytes: &[u8]) -> Result<(Piece, &[u8]), PartFault>
    ensures { Reads (λ x. (x.0, x.1.now)) result (next_text_at bytes.now) }
{
    let (text, rest) = next_text(alloc, bytes)?;
    Ok((Piece::of_vec(text)?, rest))
}

/// The TEXT behind a gap, which shares the bytes of the script where it has no escapes.
#[tactic(auto, unfolding(crate::specs::Words::next_text_at))]
pub(crate) fn next_shared_piece<'a>(
    alloc: Global,
    source: LineSource<'_>,
    bytes: &'a [u8],
) -> Result<(Piece, &'a [u8]), PartFault>
    requires { EndsAt source.text.now source.end bytes.now }
    ensures { Reads (λ x. (x.0, x.1.now)) result (next_text_at bytes.now) }
{
    let inner = gap(bytes).ok_or(PartFault::Bad)?;
    let (content, rest) = read_text_content(alloc, inner)?;
    Ok((source.piece_of(inner, content)?, rest))
}

/// The name of a file of these bytes, if they are UTF-8.
fn utf8_name_of(text: Vec<u8>) -> Option<FileName>
    ensures { result ≡ utf8_name_of text.items }
{
    match String::from_utf8(text) {
        Ok(text) => Some(FileName::new(text)),
        Err(_) => None,
    }
}

/// The TEXT behind a gap, if it can name a file.
#[tactic(auto, unfolding(crate::specs::Words::next_file_at))]
pub(crate) fn next_file(alloc: Global, bytes: &[u8]) -> Result<(FileName, &[u8]), PartFault>
    ensures { Reads (λ x. (x.0, x.1.now)) result (next_file_at bytes.now) }
{
    let (text, rest) = next_text(alloc, bytes)?;
    let name = utf8_name_of(text).ok_or(PartFault::Bad)?;
    Ok((name, rest))
}
