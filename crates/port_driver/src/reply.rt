use driver_model::Piece;

/// What a driver answers to a control or a call.
#[derive(Drop)]
pub enum ReplyTo {
    Bytes(Piece),
    /// The operation isn't served, or its bytes are wrong: the caller gets `badarg`.
    Badarg,
}
