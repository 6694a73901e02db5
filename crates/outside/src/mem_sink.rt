ghost use Rattle.std.specs.Prelude.{◌≡◌, ◌^◌, ◌<◌, ◌≤◌, ◌⊎◌, [], ◌++◌, Some, false, IsTrue, OnOk, OnErr, IsErr, MatchResult, take};
ghost use Rattle.outside.specs.Causes.{PutOk, PutErr};
ghost use Rattle.outside.specs.Plan.{fails, after_call, no_calls, with_fault};
ghost use Rattle.outside.specs.Tape.{Writes, LacksRoom};

use crate::call_plan::CallPlan;
use crate::{ByteLog, FaultCount, NoMemory, Sink, SinkFault};
use std::alloc::Global;
use std::marker::Model;

/// Output in memory, with puts that can be made to fail.
#[derive(Debug, Drop)]
pub struct MemSink {
    written: Vec<u8>,
    part: usize,
    puts: CallPlan,
    faults: FaultCount,
    took: ByteLog,
}

impl Model for MemSink {
    ghost use Rattle.std.specs.Prelude.{◌-◌, length};
    ghost use Rattle.std.specs.Vec.{vec_capacity};
    ghost use Rattle.outside.specs.Tape.{Tape};

    ghost Value = { Tape };

    ghost view = { λ s. record {
      written = s.written.items;
      room = vec_capacity s.written - length s.written.items;
      part = s.part;
      puts = s.puts;
      faults = s.faults;
      took = s.took;
    } };
}

impl MemSink {
    /// An empty sink, none of whose puts fails. A put that is made to fail takes nothing.
    pub fn new(alloc: Global) -> Self
        ensures { result ≡ record { written = []; room = result.room; part = 0; puts = no_calls; faults = 0; took = [] } }
    {
        MemSink {
            written: Vec::new(alloc),
            part: 0,
            puts: CallPlan::new(alloc),
            faults: FaultCount::new(),
            took: ByteLog::new(),
        }
    }

    /// Makes room for so many bytes more. A put of bytes that there is room for finds memory.
    pub fn reserve(&mut self, count: usize) -> Result<(), NoMemory>
        ensures ok { OnOk result (count ≤ self.new.room) }
        ensures kept { self.old.room ≤ self.new.room }
        ensures others { self.new ≡ record self.old { room = self.new.room } }
    {
        self.written.reserve(count)?;
        Ok(())
    }

    /// Makes the put of this number fail. Puts are counted from 0.
    pub fn fail_put(&mut self, number: u64) -> Result<(), NoMemory>
        ensures ok { OnOk result (self.new ≡ record self.old { puts = with_fault self.old.puts number }) }
        ensures err { OnErr result (self.new ≡ self.old) }
    {
        self.puts.fail(number)
    }

    /// Makes each put that is to fail take its first `count` bytes, or all where it has fewer.
    pub fn take_before_failing(&mut self, count: usize)
        ensures { self.new ≡ record self.old { part = count } }
    {
        self.part = count;
    }

    /// The bytes written so far.
    pub fn bytes(&self) -> &[u8]
        ensures { result.now ≡ self.now.written }
    {
        self.written.as_slice()
    }

    /// Takes all the bytes, or none where it finds no memory for them.
    fn append(&mut self, bytes: &[u8]) -> Result<(), NoMemory>
        ensures append { MatchResult result (λ _. Writes self.old self.new bytes.now) (λ _. LacksRoom self.old self.new bytes.now) }
        ensures others { self.new ≡ record self.old { written = self.new.written; room = self.new.room } }
    {
        self.written.extend_from_slice(bytes)?;
        Ok(())
    }

    /// Takes what a put that is to fail takes, or nothing where it finds no memory for it.
    fn append_part(&mut self, bytes: &[u8])
        ensures part { Writes self.old self.new (take self.old.part bytes.now) ⊎ LacksRoom self.old self.new (take self.old.part bytes.now) }
        ensures others { self.new ≡ record self.old { written = self.new.written; room = self.new.room } }
    {
        let count = self.part.min(bytes.len());
        let _ = self.append(&bytes[..count]);
    }
}

impl Sink for MemSink {
    ghost faults = { λ s. s.faults };

    ghost written = { λ s. Some s.written };

    ghost took = { λ s. s.took };

    /// Within its room it fails exactly where it is to fail, and takes exactly the planned part then.
    /// Beyond its room it also fails where it finds no memory for the bytes, and has taken none then.
    fn put(&mut self, bytes: &[u8]) -> Result<(), SinkFault>
        ensures put { MatchResult result
            (λ _. PutOk self.old.faults self.new.faults (Some self.old.written) (Some self.new.written) bytes.now)
            (λ _. PutErr self.old.faults self.new.faults (Some self.old.written) (Some self.new.written) bytes.now) }
        ensures rises { self.old.faults ≤ self.new.faults }
        ensures took { MatchResult result (λ _. self.new.took ≡ self.old.took ++ bytes.now) (λ _. self.new.took ≡ self.old.took) }

        // A put that is to fail fails, once it took its part.
        ensures planned { IsTrue (fails self.old.puts) → IsErr result × (Writes self.old self.new (take self.old.part bytes.now) ⊎ LacksRoom self.old self.new (take self.old.part bytes.now)) }

        // Another fails only where room was missing.
        ensures unplanned { fails self.old.puts ≡ false → MatchResult result (λ _. Writes self.old self.new bytes.now) (λ _. LacksRoom self.old self.new bytes.now) }

        // The plan stays, and each call counts.
        ensures calls { self.new.puts ≡ after_call self.old.puts }
        ensures part { self.new.part ≡ self.old.part }
    {
        if self.puts.next_fails(&mut self.faults) {
            self.append_part(bytes);
            return Err(SinkFault::Failed);
        }
        match self.append(bytes) {
            Ok(()) => {
                self.took.note(bytes);
                Ok(())
            }
            Err(NoMemory) => {
                self.faults.rise();
                Err(SinkFault::Failed)
            }
        }
    }
}
