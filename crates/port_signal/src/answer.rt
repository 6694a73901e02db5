use io_vector::Piece;

/// What a port replies.
#[derive(Drop)]
pub enum Answer {
    /// What a driver answered to a control or a call.
    Bytes(Piece),
    True,
    Badarg,
}
