//! The driver of programs, after the ports of external programs of the Erlang/OTP manual of `open_port` (`{spawn, Command}`): the data of
//! commands is framed and written to the program's input as it takes it, and the program's output is read, cut into messages and sent to
//! the owner of the port. What it does for every list of calls is said in `driver_model`.
//!
//! It starts no program itself: it is handed what starts one, of memory or of the machine.
#![tactic(auto)]

mod cutting;
mod driver;
mod ending;
mod failures;
mod input;
mod kept;
mod output;
mod recorded_program;
mod starting;
mod told;
mod unframing;

pub use driver::{SpawnDriver, spawn_driver};
pub use recorded_program::RecordedProgram;
