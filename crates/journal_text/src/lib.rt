//! The text of a journal: the names of a run's processes, and for each port its line and the rows of its history, read and
//! printed exactly.
//!
//! A journal is lines, each ended with byte 10, with one space between two words. Each book has one text, and each text is of
//! one book: numbers have no leading zeros, and bytes are two lower-case hexadecimal digits each, or `-` for none.
#![tactic(auto)]

mod book;
mod effects;
mod fault;
mod how;
mod laws;
mod lines;
mod port_line;
mod printing;
mod printing_effects;
mod printing_ports;
mod printing_rows;
mod printing_tasks;
mod reader;
mod rows;
mod tasks;
mod words;

pub use book::{Book, PortReport};
pub use fault::JournalFault;
pub use laws::each_book_has_one_text;
pub use port_config::{Config, Mode};
pub use port_model::{Journal, Reason};
pub use printing_ports::{print_histories, print_journal};
pub use reader::read_journal;
