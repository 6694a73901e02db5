ghost use Rattle.std.specs.Prelude.{◌≡◌, IfOk};
ghost use Rattle.std.specs.List.{concat};

use port_model::{IoVec, NoMemory, Piece};

/// All bytes of a vector as one piece, which shares them where the vector has one segment.
#[inline(always)]
pub(crate) fn joined(payload: &IoVec) -> Result<Piece, NoMemory>
    ensures { IfOk result (λ piece. piece ≡ concat payload.now) }
{
    match payload.as_slice() {
        [] => Ok(Piece::empty()),
        [only] => only.share(),
        _ => Ok(Piece::of_vec(payload.to_vec()?)?),
    }
}
