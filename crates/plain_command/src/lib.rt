//! The commands of the program that run nothing. `check SCRIPT` reads a script and prints how many processes, ports and steps it has.
//! `replay JOURNAL` reads a journal, judges the histories in it, and prints how many ports and rows it has, or tells which port breaks a law first.
//!
//! They start no thread, wait for nothing but the calls of the files and of the sink, and write no file.
#![tactic(auto)]

mod checking;
mod command;
mod laws;
mod printing;
mod replaying;
mod words;

pub use command::{PlainEnd, plain_command};
pub use laws::legal_books_are_done;
pub use run_report::{Cause, ScriptFault, cause_text};
pub use words::is_plain;
