//! The framings of a port's byte streams, after the options `{packet, N}`, `{line, L}` and `stream`
//! of `open_port`: `frame` puts a length before the bytes that go out, and an `Unframer` finds the
//! messages in the bytes that come in, however they are cut into chunks.
//!
//! It is for bytes that come in order and whole. It isn't for text: a line is any bytes up to byte 10.
#![tactic(auto)]

mod fault;
mod joined;
mod lines;
mod message;
mod mode;
mod packets;
mod reading;
mod sent;
mod unframer;

pub use fault::{FrameFault, UnframeFault};
pub use io_vector::{Flag, Piece};
pub use message::Message;
pub use mode::Mode;
pub use sent::frame;
pub use unframer::{Unframer, unframe, unframe_so_far};
