use io_vector::{Flag, Piece};

/// One message of a port: the bytes of `{data, Bytes}`, and the flag of line mode.
#[derive(Clone, Drop, PartialEq, Eq)]
pub struct Message {
    pub flag: Flag,
    pub bytes: Piece,
}
