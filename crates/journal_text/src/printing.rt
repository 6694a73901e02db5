//! The parts of a line that are printed, each at the end of a text.

ghost use Rattle.std.specs.Prelude.{◌≡◌, ◌++◌, ◌∷◌, [], OnOk, decimal};
ghost use Rattle.std.specs.Fmt.{signed_decimal};
ghost use Rattle.journal_text.specs.Words.{bytes_text};
ghost use Rattle.hex.specs.Hex.{encode_lower};

use io_vector::Piece;
use itoa::Buffer;
use no_memory::NoMemory;
use port_model::Reason;

/// A text.
pub(crate) fn put(out: &mut Vec<u8>, text: &[u8]) -> Result<(), NoMemory>
    ensures { OnOk result (out.new.items ≡ out.old.items ++ text.now) }
{
    out.extend_from_slice(text)?;
    Ok(())
}

/// A number.
pub(crate) fn put_number(out: &mut Vec<u8>, number: u64) -> Result<(), NoMemory>
    ensures { OnOk result (out.new.items ≡ out.old.items ++ decimal number) }
{
    let mut buffer = Buffer::new();
    put(out, buffer.format(number).as_bytes())
}

/// A whole number.
pub(crate) fn put_status(out: &mut Vec<u8>, status: i32) -> Result<(), NoMemory>
    ensures { OnOk result (out.new.items ≡ out.old.items ++ signed_decimal status) }
{
    let mut buffer = Buffer::new();
    put(out, buffer.format(status).as_bytes())
}

/// Two lower-case hexadecimal digits for each byte.
fn put_hex(out: &mut Vec<u8>, bytes: &[u8]) -> Result<(), NoMemory>
    ensures { OnOk result (out.new.items ≡ out.old.items ++ encode_lower bytes.now) }
{
    let start = out.len();
    let digits = bytes.len().checked_mul(2).ok_or(NoMemory)?;
    let end = start.checked_add(digits).ok_or(NoMemory)?;
    out.resize(end, 0)?;
    match hex::encode_to_slice(bytes, &mut out.as_mut_slice()[start..]) {
        Ok(()) => Ok(()),
        Err(_) => Err(NoMemory),
    }
}

/// Bytes: two lower-case hexadecimal digits each, or `-` for none.
pub(crate) fn put_bytes(out: &mut Vec<u8>, bytes: &[u8]) -> Result<(), NoMemory>
    ensures { OnOk result (out.new.items ≡ out.old.items ++ bytes_text bytes.now) }
{
    match bytes {
        [] => put(out, b"-"),
        [_, ..] => put_hex(out, bytes),
    }
}

/// A word, and a space behind it.
pub(crate) fn put_word(out: &mut Vec<u8>, word: &[u8]) -> Result<(), NoMemory>
    ensures { OnOk result (out.new.items ≡ out.old.items ++ (word.now ++ 32 ∷ [])) }
{
    put(out, word)?;
    put(out, b" ")
}

/// A word and a number.
pub(crate) fn put_with_number(out: &mut Vec<u8>, word: &[u8], number: u64) -> Result<(), NoMemory>
    ensures { OnOk result (out.new.items ≡ out.old.items ++ (word.now ++ 32 ∷ decimal number)) }
{
    put_word(out, word)?;
    put_number(out, number)
}

/// A space, and a number behind it.
pub(crate) fn put_next_number(out: &mut Vec<u8>, number: u64) -> Result<(), NoMemory>
    ensures { OnOk result (out.new.items ≡ out.old.items ++ 32 ∷ decimal number) }
{
    put(out, b" ")?;
    put_number(out, number)
}

/// A word and a whole number.
pub(crate) fn put_with_status(out: &mut Vec<u8>, word: &[u8], status: i32) -> Result<(), NoMemory>
    ensures { OnOk result (out.new.items ≡ out.old.items ++ (word.now ++ 32 ∷ signed_decimal status)) }
{
    put_word(out, word)?;
    put_status(out, status)
}

/// A word and a name.
pub(crate) fn put_with_name(out: &mut Vec<u8>, word: &[u8], name: &Reason) -> Result<(), NoMemory>
    ensures { OnOk result (out.new.items ≡ out.old.items ++ (word.now ++ 32 ∷ name.now)) }
{
    put_word(out, word)?;
    put(out, name.as_bytes())
}

/// A word and bytes.
pub(crate) fn put_with_bytes(out: &mut Vec<u8>, word: &[u8], bytes: &Piece) -> Result<(), NoMemory>
    ensures { OnOk result (out.new.items ≡ out.old.items ++ (word.now ++ 32 ∷ bytes_text bytes.now)) }
{
    put_word(out, word)?;
    put_bytes(out, bytes.as_slice())
}

/// A word, a number and bytes.
pub(crate) fn put_numbered(
    out: &mut Vec<u8>,
    word: &[u8],
    number: u64,
    bytes: &Piece,
) -> Result<(), NoMemory>
    ensures { OnOk result (out.new.items ≡ out.old.items ++ (word.now ++ 32 ∷ decimal number ++ 32 ∷ bytes_text bytes.now)) }
{
    put_with_number(out, word, number)?;
    put_with_bytes(out, b"", bytes)
}
