ghost use Rattle.std.specs.Prelude.{◌≡◌, ◌<◌, ◌⊎◌, max, [], length, None, Some, IsSome, OnOk, OnErr};
ghost use Rattle.outside.specs.Programs.{Gives};

use crate::NoMemory;
use crate::chunk::{Chunk, Ending};
use std::alloc::Global;
use std::collections::VecDeque;
use std::marker::Model;

/// A program of memory: what it takes of one offer, and what it gives, in order.
#[derive(Debug, Drop)]
pub struct MemProgram {
    grain: usize,
    need: u64,
    chunks: VecDeque<Chunk>,
    ending: Option<Ending>,
}

impl Model for MemProgram {
    ghost use Rattle.outside.specs.Programs.{ProgramView};

    ghost Value = { ProgramView };

    ghost view = { λ p. record { grain = p.grain; need = p.need; chunks = p.chunks.items; ending = p.ending } };
}

impl MemProgram {
    /// A program that takes at most `grain` bytes of one offer, gives nothing and doesn't end.
    pub fn new(alloc: Global, grain: usize) -> Self
        ensures { result ≡ record { grain = grain; need = 0; chunks = []; ending = None } }
    {
        MemProgram {
            grain,
            need: 0,
            chunks: VecDeque::new(alloc),
            ending: None,
        }
    }

    /// Lets what comes next wait until the program was given so many bytes in all.
    pub fn need(&mut self, count: u64)
        ensures { self.new ≡ record self.old { need = max self.old.need count } }
    {
        self.need = self.need.max(count);
    }

    /// Gives these bytes next, at most one chunk of them with one fetch. An empty chunk and one behind the
    /// end give nothing.
    pub fn give(&mut self, bytes: &[u8]) -> Result<(), NoMemory>
        ensures ok { OnOk result (0 < length bytes.now → self.old.ending ≡ None → Gives self.old self.new bytes.now) }
        ensures nothing { (length bytes.now ≡ 0) ⊎ IsSome self.old.ending → self.new ≡ self.old }
        ensures err { OnErr result (self.new ≡ self.old) }
    {
        if bytes.is_empty() || self.ending.is_some() {
            return Ok(());
        }
        let chunk = Chunk::new(*self.chunks.allocator(), self.need, bytes)?;
        self.chunks.push_back(chunk).map_err(|_| NoMemory)?;
        Ok(())
    }

    /// Ends the output here, with this status. The first end counts.
    pub fn end(&mut self, status: i32)
        ensures none { self.old.ending ≡ None → self.new ≡ record self.old { ending = Some (record { need = self.old.need; status = status }) } }
        ensures some { IsSome self.old.ending → self.new ≡ self.old }
    {
        if self.ending.is_none() {
            self.ending = Some(Ending {
                need: self.need,
                status,
            });
        }
    }

    /// The grain, the chunks and the end.
    pub(crate) fn into_parts(self) -> (usize, VecDeque<Chunk>, Option<Ending>)
        ensures { (result.0 ≡ self.grain) × (result.1.items ≡ self.chunks) × (result.2 ≡ self.ending) }
    {
        let MemProgram {
            grain,
            need: _,
            chunks,
            ending,
        } = self;
        (grain, chunks, ending)
    }
}
