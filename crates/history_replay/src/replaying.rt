//! The verdict on a journal.
ghost use Rattle.std.specs.Prelude.{length, IfOk};
ghost use Rattle.history_replay.specs.Verdicts.{Replays};

use crate::port::first_broken;
use journal_text::Book;
use port_model::NoMemory;
use std::alloc::Global;

/// What a replay of a journal tells.
#[derive(Clone, Copy, Debug, PartialEq, Eq)]
pub enum Verdict {
    /// Each history keeps the laws and is finished.
    Legal,
    /// The history of this port is the first that isn't so: its number, from 0, the first row at which it breaks a law, from 0, and the least
    /// law that it breaks there, from 1. A law that only its end breaks is told at its number of rows.
    Illegal { port: u32, row: u64, law: u32 },
}

/// Judges the histories of a journal, in the order of its ports. Each is walked once.
pub fn replay(alloc: Global, book: &Book) -> Result<Verdict, NoMemory>
    ensures { IfOk result (Replays 0 (length book.now.names) book.now.ports) }
{
    let processes = book.names().len() as u32;
    for (at, report) in book.ports().iter().enumerate() {
        let port = at as u32;
        if let Some(broken) = first_broken(alloc, port, processes, report)? {
            return Ok(Verdict::Illegal {
                port,
                row: broken.row,
                law: broken.law,
            });
        }
    }
    Ok(Verdict::Legal)
}
