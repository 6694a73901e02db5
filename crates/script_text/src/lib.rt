//! The parts of a line of a script that are data: NUMBERs, TEXTs, IOLISTs and TERMs.
//!
//! Each reader takes the bytes that are left of a line, and answers a value where a spelling of it stands in front of
//! them, with the bytes that stand behind. The grammar is in specs/: `Tokens`, `Texts` and `Data`. This crate is for
//! single parts: what a whole line says isn't asked here.
#![tactic(auto)]

mod fault;
mod io_lists;
mod laws;
mod openings;
mod terms;
mod texts;
mod tokens;

pub use fault::PartFault;
pub use io_lists::{read_io_bytes, read_io_list};
pub use laws::each_text_has_one_value;
pub use terms::read_term;
pub use texts::{read_text, read_text_bytes, read_text_content};
pub use tokens::{read_number, skip_gap};
