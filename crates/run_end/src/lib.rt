//! The end of a run: what its jobs leave is put together, port by port and process by process.
#![tactic(auto)]

mod laws;
mod mailboxes;
mod rest;
mod words;

pub use laws::{
    all_mail_is_merge, calls_tell, mail_is_merge, port_words_hold, rows_stay, run_words_hold,
    seats_show, shown_words_hold, waits_are_shown,
};
pub use mailboxes::take_all_rest;
pub use no_memory::NoMemory;
pub use rest::take_rest;
pub use words::{join_all_seats, join_columns, join_seats};
