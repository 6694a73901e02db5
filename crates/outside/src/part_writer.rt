ghost use Rattle.std.specs.Prelude.{◌≡◌, [], IfOk, OnOk};
ghost use Rattle.std.specs.Io.KnownBytes.{Appends, append_known};
ghost use Rattle.std.specs.List.{flat_map};

use crate::real_sink::write_out;
use std::alloc::{AllocError, Global};
use std::io;
use std::io::Write;

/// For how many bytes the buffer has room in which small parts are gathered.
const ROOM: usize = 64 * 1024;

/// A part of so many bytes is written from where it lies.
const LARGE: usize = 16 * 1024;

/// A buffer in which small parts are gathered.
pub(crate) fn part_buffer(alloc: Global) -> Result<Vec<u8>, AllocError>
    ensures { IfOk result (λ buffer. buffer.items ≡ []) }
{
    Vec::with_capacity(alloc, ROOM)
}

/// Writes the parts in their order, and leaves none in a buffer. Parts that are small are gathered in the buffer, so that
/// each isn't a call of the system, and a part of 16,384 bytes or more is written from where it lies, so that it isn't copied.
pub(crate) fn write_parts<W: Write>(
    output: &mut W,
    buffer: &mut Vec<u8>,
    parts: &[&[u8]],
) -> io::Result<()>
    requires { buffer.old.items ≡ [] }
    ensures { OnOk result (Appends (W.contents output.old) (W.contents output.new) (flat_map (λ part. part.now) parts.now)) }
{
    for part in parts {
        write_part(output, buffer, *part)?;
    }
    write_out(output, buffer.as_slice())
}

/// Writes one more part, or gathers it in the buffer.
fn write_part<W: Write>(output: &mut W, buffer: &mut Vec<u8>, part: &[u8]) -> io::Result<()>
    ensures { OnOk result (Appends (append_known (W.contents output.old) buffer.old.items) (append_known (W.contents output.new) buffer.new.items) part.now) }
{
    let is_large = part.len() >= LARGE;
    if is_large || part.len() > buffer.capacity() - buffer.len() {
        output.write_all(buffer.as_slice())?;
        buffer.clear();
    }
    if is_large {
        return output.write_all(part);
    }
    buffer.extend_from_slice(part)?;
    Ok(())
}
