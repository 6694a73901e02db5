ghost use Rattle.std.specs.Prelude.{◌≡◌, slice_index};
ghost use Rattle.script_text.specs.Reading.{opening_of};

use crate::tokens::is_letter;

/// What a part begins with.
#[derive(Clone, Copy, Debug, PartialEq, Eq)]
pub enum Opening {
    Quote,
    Bracket,
    Brace,
    Angle,
    Letter,
    Other,
}

/// What a part begins with.
pub(crate) fn opening_of(bytes: &[u8]) -> Opening
    ensures { result ≡ opening_of (slice_index bytes.now 0) }
{
    match bytes {
        [b'"', ..] => Opening::Quote,
        [b'[', ..] => Opening::Bracket,
        [b'{', ..] => Opening::Brace,
        [b'<', ..] => Opening::Angle,
        [first, ..] if is_letter(*first) => Opening::Letter,
        _ => Opening::Other,
    }
}
