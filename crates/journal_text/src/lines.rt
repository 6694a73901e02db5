//! The lines of a text.

ghost use Rattle.std.specs.Prelude.{◌≡◌, ◌≤◌, ◌<◌, length, option_map, IfSome};
ghost use Rattle.std.specs.List.{take_while, prefix_len};
ghost use Rattle.journal_text.specs.Words.{is_line_byte};
ghost use Rattle.journal_text.specs.Reading.{behind};
ghost use Rattle.journal_text.specs.ReadingBooks.{lines_of, size_of, first_line, is_over};
ghost use Rattle.journal_text.specs.TextFault.{fault_of};

use crate::fault::{LinePartFault, TextFault};

/// Whether a line may have this byte.
fn is_line_byte(byte: u8) -> bool
    ensures { result ≡ is_line_byte byte }
{
    byte != b'\n'
}

/// How many bytes the first line has.
fn line_len(bytes: &[u8]) -> usize
    ensures count { result ≡ prefix_len is_line_byte bytes.now }
    ensures within { result ≤ length bytes.now }
{
    bytes.iter().take_while(|byte| is_line_byte(**byte)).count()
}

/// The bytes before the first byte 10, and the others.
fn split_line(bytes: &[u8]) -> (&[u8], &[u8])
    ensures line { result.0.now ≡ take_while is_line_byte bytes.now }
    ensures rest { result.1.now ≡ behind is_line_byte bytes.now }
    ensures within { length result.1.now ≤ length bytes.now }
{
    bytes.split_at(line_len(bytes))
}

/// The first line, without the byte 10 that ends it, and what stands behind it.
#[tactic(auto, using(crate::proofs::LineSteps::first_line_is))]
pub(crate) fn first_line(bytes: &[u8]) -> Option<(&[u8], &[u8])>
    ensures line { option_map (λ x. (x.0.now, lines_of x.1.now)) result ≡ first_line (lines_of bytes.now) }
    ensures shorter { IfSome result (λ x. length x.1.now < length bytes.now) }
{
    let (line, rest) = split_line(bytes);
    match rest {
        [] => None,
        [_, rest @ ..] => Some((line, rest)),
    }
}

/// Whether no line is left.
#[tactic(auto, using(crate::proofs::LineSteps::over_some))]
pub(crate) fn is_over(bytes: &[u8]) -> bool
    ensures { result ≡ is_over (lines_of bytes.now) }
{
    bytes.len() == 0
}

/// The fault of a line that isn't in the grammar, where these bytes stand from it on.
#[tactic(auto, using(crate::proofs::LineSteps::size_is))]
pub(crate) fn bad(bytes: &[u8]) -> TextFault
    ensures { result ≡ TextFault.Bad (size_of (lines_of bytes.now)) }
{
    TextFault::Bad { left: bytes.len() }
}

/// The fault of a line, where these bytes stand from it on.
pub(crate) fn fault_at(fault: LinePartFault, bytes: &[u8]) -> TextFault
    ensures { result ≡ fault_of fault (size_of (lines_of bytes.now)) }
{
    match fault {
        LinePartFault::Bad => bad(bytes),
        LinePartFault::NoMemory => TextFault::NoMemory,
    }
}
