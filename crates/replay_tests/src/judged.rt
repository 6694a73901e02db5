//! What is told of a text.

use history_replay::{Verdict, replay};
use journal_text::{Book, JournalFault, read_journal};
use std::alloc::Global;

/// Whether a replay of the book tells this.
fn tells(alloc: Global, book: &Book, verdict: Verdict) -> bool {
    match replay(alloc, book) {
        Ok(told) => told == verdict,
        Err(_) => false,
    }
}

/// Whether the text is a journal of which a replay tells this.
pub fn is_judged(alloc: Global, text: &[u8], verdict: Verdict) -> bool {
    match read_journal(alloc, text) {
        Ok(book) => tells(alloc, &book, verdict),
        Err(_) => false,
    }
}

/// Whether the text is the front of a journal up to this place alone.
pub fn is_bad_at(alloc: Global, text: &[u8], at: u64) -> bool {
    match read_journal(alloc, text) {
        Ok(_) => false,
        Err(fault) => fault == JournalFault::NotAJournal { at },
    }
}
