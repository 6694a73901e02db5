//! The processes that a busy port suspended, and when one of them may go on.
//!
//! A process that puts a command into a busy port is suspended, as the Erlang/OTP manual says of `port_command`, and resumed when the port is no longer busy.
//! The port lists each process that it suspended and resumes them in that order. A resumed process looks at the port's words itself: it goes on only where they
//! say that the busy time in which it was suspended is over, or that the port is closed. Nobody is woken here; that is done above.
#![tactic(auto)]

mod list;
mod note;

pub use list::{Entry, SuspendList};
pub use no_memory::NoMemory;
pub use note::{StopNote, may_go};
