//! Pieces of bytes, and vectors of such pieces, as a port's commands, replies and messages carry
//! them: the `ErlIOVec` of the Erlang/OTP manual of erl_driver, and the binaries that it points to.
//!
//! It is for bytes that go from hand to hand and are cut on the way: `share`, `skip`, `prefix` and
//! `append` move or share segments and copy no byte. It isn't for bytes that are edited in place,
//! nor for a queue that grows at both ends.
#![tactic(auto)]

mod fault;
mod flag;
mod piece;
mod vector;

pub use fault::{Past, PrefixFault};
pub use flag::Flag;
pub use no_memory::NoMemory;
pub use piece::Piece;
pub use vector::IoVec;
