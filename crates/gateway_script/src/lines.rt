//! The lines of a text, one after another.

ghost use Rattle.std.specs.Prelude.{◌≡◌, ◌+◌, ◌≤◌, ◌∷◌, true, false, Some, length, take, drop, All, IfOk, IfSome, option_map};
ghost use Rattle.gateway_script.specs.Lines.{is_line_end, parts_left};

use memchr::memchr;
use no_memory::NoMemory;

/// The number of the line behind the one of this number. It has 32 bits: a text with more lines finds no memory.
pub(crate) fn number_behind(number: u32) -> Result<u32, NoMemory>
    ensures { IfOk result (λ behind. behind ≡ number + 1) }
{
    number.checked_add(1).ok_or(NoMemory)
}

/// The first line of a text, without its end, and what stands behind that, if it has one.
pub(crate) fn first_line(text: &[u8]) -> (&[u8], Option<&[u8]>)
    ensures lines { parts_left (Some text.now) ≡ result.0.now ∷ parts_left (option_map (λ rest. rest.now) result.1) }
    ensures front { result.0.now ≡ take (length result.0.now) text.now }
    ensures rest { IfSome result.1 (λ rest. rest.now ≡ drop (length result.0.now + 1) text.now) }
{
    let (line, behind) = text.split_at(line_len(text));
    match behind {
        [_, rest @ ..] => (line, Some(rest)),
        [] => (line, None),
    }
}

/// How many bytes stand before the first line end.
fn line_len(text: &[u8]) -> usize
    ensures within { result ≤ length text.now }
    ensures before { All (λ byte. is_line_end byte ≡ false) (take result text.now) }
    ensures behind { All (λ byte. is_line_end byte ≡ true) (take 1 (drop result text.now)) }
{
    match memchr(b'\n', text) {
        Some(at) => at,
        None => text.len(),
    }
}
