use io_vector::Piece;

/// What the outside answered to a call that a driver made.
#[derive(Drop)]
pub enum Outside {
    /// It took this many of the bytes that were offered.
    Took(u32),
    /// It gave these bytes, 1 to 65,536.
    Got(Piece),
    /// It has nothing to give now.
    Again,
    /// It has nothing to give any more.
    End,
    Failed,
    /// The status with which it ended.
    Status(i32),
}
