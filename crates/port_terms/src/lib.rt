//! Erlang terms and I/O lists, and the external form of terms.
//!
//! This crate is for what a process and a port say to each other: a term is an integer of 64 bits, an atom, a binary, a
//! tuple or a proper list, `encode` and `decode` turn it into the bytes of Erlang's External Term Format and back, and
//! `flatten` gives the bytes of an I/O list. It isn't for the rest of the format: floats, bigger integers, maps, pids,
//! ports, references, funs, bit strings, improper lists, the compressed form and the distribution headers are refused by
//! their tags.
#![tactic(auto)]

mod copying;
mod faults;
mod fields;
mod flattening;
mod integers;
mod io_lists;
mod makers;
mod measures;
mod reading;
mod strings;
mod tags;
mod values;
mod writing;

pub use copying::{each_input_has_one_answer, term_copy};
pub use faults::{AtomFault, TermFault};
pub use flattening::flatten;
pub use io_lists::{IoList, IoParts};
pub use makers::{atom, octets, parts, terms};
pub use measures::{term_depth, term_size};
pub use no_memory::NoMemory;
pub use reading::decode;
pub use values::{AtomName, MAX_DEPTH, MAX_ITEMS, MAX_NAME_CHARS, Octets, Term, Terms};
pub use writing::encode;
