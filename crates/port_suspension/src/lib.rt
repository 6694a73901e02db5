//! The processes that a port suspended, as its history lists them, and when they are resumed.
//!
//! A process whose command finds the port's message queue busy is suspended, as the Erlang/OTP manual of `erlang` says of
//! `port_command`. The port lists its task when it takes it, and resumes the listed processes in that order. `Suspension` is the
//! list, which is then what the port's history says (`AgreesListed`), and `may_resume` is when its first entry may be resumed.
//!
//! Nobody is told here: the rows and the mail of a resume are made above.
#![tactic(auto)]

mod resuming;
mod suspension;

pub use no_memory::NoMemory;
pub use resuming::may_resume;
pub use suspend_list::Entry;
pub use suspension::Suspension;
