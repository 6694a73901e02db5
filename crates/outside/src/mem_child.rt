ghost use Rattle.std.specs.Prelude.{◌≡◌, ◌≢◌, ◌≤◌, ◌<◌, ◌+◌, ◌↔◌, min, true, false, [], length, drop, None, Some, IsTrue, OnOk, OnErr, nat_lt, if◌then◌else◌, ◌^◌, ◌-◌, ◌&&◌, not, is_some};
ghost use Rattle.outside.specs.Children.{Offers, Fetches, HasStatus, Shows};
ghost use Rattle.outside.specs.Plan.{fails, after_call, faults_after, no_calls, with_fault};
ghost use Rattle.outside.specs.Programs.{shown, stands, count_of, ended, following, upcoming, GivesUpTo};

use crate::call_plan::CallPlan;
use crate::chunk::{Chunk, Ending};
use crate::{ByteLog, Child, FaultCount, Fetched, MemProgram, NoMemory, Offered, StatusGot};
use std::alloc::{AllocError, Global};
use std::collections::VecDeque;
use std::marker::Model;

/// A program of memory that was started. It tells how it stands.
#[derive(Debug, Drop)]
pub struct MemChild {
    read_event: u32,
    write_event: u32,
    command: ByteLog,
    given: ByteLog,
    fetched: ByteLog,
    given_len: u64,
    stopped: bool,
    grain: usize,
    current: Vec<u8>,
    used: usize,
    chunks: VecDeque<Chunk>,
    ending: Option<Ending>,
    at_end: bool,
    offers: CallPlan,
    fetches: CallPlan,
    statuses: CallPlan,
    faults: FaultCount,
}

impl Model for MemChild {
    ghost use Rattle.std.specs.Prelude.{◌≡◌, ◌≤◌, length, drop, true};
    ghost use Rattle.outside.specs.Programs.{Running, IsOver, count_of};

    ghost Value = { Running };

    ghost view = { λ c. record {
      read_event = c.read_event;
      write_event = c.write_event;
      command = c.command;
      given = c.given;
      fetched = c.fetched;
      stopped = c.stopped;
      grain = c.grain;
      current = drop c.used c.current.items;
      chunks = c.chunks.items;
      ending = c.ending;
      at_end = c.at_end;
      offers = c.offers;
      fetches = c.fetches;
      statuses = c.statuses;
      faults = c.faults;
    } };

    ghost invariant = { λ c. (c.given_len ≡ count_of c.given) × (c.used ≤ length c.current.items)
        × (c.at_end ≡ true → IsOver (drop c.used c.current.items) (count_of c.given) c.chunks.items c.ending) };
}

impl MemChild {
    /// A program that was just started with this command text. Its write event is the one behind `event`.
    pub(crate) fn new(alloc: Global, program: MemProgram, event: u32, command: &[u8]) -> Self
        requires { event + 1 < 2 ^ 32 }
        ensures { result ≡ record {
          read_event = event;
          write_event = event + 1;
          command = command.now;
          given = [];
          fetched = [];
          stopped = false;
          grain = program.grain;
          current = [];
          chunks = program.chunks;
          ending = program.ending;
          at_end = false;
          offers = no_calls;
          fetches = no_calls;
          statuses = no_calls;
          faults = 0;
        } }
    {
        let (grain, chunks, ending) = program.into_parts();
        let mut text = ByteLog::new();
        text.note(command);
        MemChild {
            read_event: event,
            write_event: event + 1,
            command: text,
            given: ByteLog::new(),
            fetched: ByteLog::new(),
            given_len: 0,
            stopped: false,
            grain,
            current: Vec::new(alloc),
            used: 0,
            chunks,
            ending,
            at_end: false,
            offers: CallPlan::new(alloc),
            fetches: CallPlan::new(alloc),
            statuses: CallPlan::new(alloc),
            faults: FaultCount::new(),
        }
    }

    /// Makes the offer of this number fail. Offers are counted from 0.
    pub fn fail_offer(&mut self, number: u64) -> Result<(), NoMemory>
        ensures ok { OnOk result (self.new ≡ record self.old { offers = with_fault self.old.offers number }) }
        ensures err { OnErr result (self.new ≡ self.old) }
    {
        self.offers.fail(number)
    }

    /// Makes the fetch of this number fail, if the end wasn't fetched before it. Fetches are counted from 0.
    pub fn fail_fetch(&mut self, number: u64) -> Result<(), NoMemory>
        ensures ok { OnOk result (self.new ≡ record self.old { fetches = with_fault self.old.fetches number }) }
        ensures err { OnErr result (self.new ≡ self.old) }
    {
        self.fetches.fail(number)
    }

    /// Makes the call of `status` of this number fail. They are counted from 0.
    pub fn fail_status(&mut self, number: u64) -> Result<(), NoMemory>
        ensures ok { OnOk result (self.new ≡ record self.old { statuses = with_fault self.old.statuses number }) }
        ensures err { OnErr result (self.new ≡ self.old) }
    {
        self.statuses.fail(number)
    }

    /// How many bytes it was given, up to the greatest `u64`.
    pub fn given_len(&self) -> u64
        ensures { result ≡ count_of self.now.given }
    {
        self.given_len
    }

    /// Whether it was stopped.
    pub fn is_stopped(&self) -> bool
        ensures { result ≡ self.now.stopped }
    {
        self.stopped
    }
}

impl Child for MemChild {
    ghost faults = { λ c. c.faults };

    ghost shows = { λ c. shown c };

    fn events(&self) -> (u32, u32) {
        (self.read_event, self.write_event)
    }

    fn offer(&mut self, bytes: &[u8]) -> Offered
        ensures offer { Offers self.old.faults self.new.faults (shown self.old) (shown self.new) bytes.now result }
        ensures rises { self.old.faults ≤ self.new.faults }

        // An offer fails exactly where it is to fail, and else takes as much as the grain lets it.
        ensures exact { result ≡ (if fails self.old.offers then Offered.Failed else Offered.Took (min self.old.grain (length bytes.now))) }
        ensures after { self.new ≡ record self.old {
          given = self.new.given;
          offers = after_call self.old.offers;
          faults = faults_after self.old.offers self.old.faults;
        } }
    {
        if self.offers.next_fails(&mut self.faults) {
            return Offered::Failed;
        }
        let count = self.grain.min(bytes.len());
        self.given.note(&bytes[..count]);
        self.given_len = self.given_len.saturating_add(count as u64);
        Offered::Took(count)
    }

    fn fetch(&mut self, alloc: Global, max: usize) -> Fetched
        requires { 1 ≤ max }
        ensures fetch { Fetches self.old.faults self.new.faults (shown self.old) (shown self.new) max result }
        ensures rises { self.old.faults ≤ self.new.faults }

        // It fails exactly where it is to fail, and gives of the next chunk as much as is asked for.
        ensures planned { result ≡ Fetched.Failed ↔ IsTrue (not self.old.at_end && fails self.old.fetches) }
        ensures value { GivesUpTo max (following self.old) result }
        ensures plans { (self.new.offers ≡ self.old.offers) × (self.new.statuses ≡ self.old.statuses) × (self.new.fetches ≡ (if self.old.at_end then self.old.fetches else after_call self.old.fetches)) }
    {
        if self.at_end {
            return Fetched::End;
        }
        if self.fetches.next_fails(&mut self.faults) {
            return Fetched::Failed;
        }
        self.begin_chunk();
        if self.used < self.current.len() {
            return self.give(alloc, max);
        }
        self.find_end()
    }

    fn status(&mut self) -> StatusGot
        requires { self.old.at_end ≡ true }
        ensures status { HasStatus self.old.faults self.new.faults (shown self.old) (shown self.new) result }
        ensures rises { self.old.faults ≤ self.new.faults }

        // It fails exactly where it is to fail.
        ensures planned { result ≡ StatusGot.Failed ↔ IsTrue (fails self.old.statuses) }
        ensures after { self.new ≡ record self.old { statuses = after_call self.old.statuses; faults = faults_after self.old.statuses self.old.faults } }
    {
        if self.statuses.next_fails(&mut self.faults) {
            return StatusGot::Failed;
        }
        let Some(ending) = self.ending else {
            return StatusGot::Failed;
        };
        StatusGot::Ended(ending.status)
    }

    fn stop(&mut self)
        ensures faults { self.new.faults ≡ self.old.faults }
        ensures stop { Shows (record (shown self.old) { stopped = true }) (shown self.new) }
        ensures after { self.new ≡ record self.old { stopped = true } }
    {
        self.stopped = true;
    }
}

impl MemChild {
    /// Whether a chunk is next, and waits for no more.
    fn has_next(&self) -> bool
        ensures { result ≡ nat_lt 0 (length (upcoming (count_of self.now.given) self.now.chunks)) }
    {
        match self.chunks.front() {
            Some(chunk) => chunk.need <= self.given_len,
            None => false,
        }
    }

    /// Begins the next chunk where all of the last was given.
    fn begin_chunk(&mut self)
        requires { self.old.at_end ≡ false }
        ensures after { self.new ≡ record self.old { current = following self.old; chunks = self.new.chunks } }
        ensures stands { stands self.new ≡ stands self.old }
        ensures empty { self.new.current ≡ [] → upcoming (count_of self.new.given) self.new.chunks ≡ [] }
    {
        if self.used < self.current.len() {
            return;
        }
        if !self.has_next() {
            return;
        }
        if let Some(chunk) = self.chunks.pop_front() {
            self.current = chunk.bytes;
            self.used = 0;
        }
    }

    /// Gives the next bytes of what was begun.
    fn give(&mut self, alloc: Global, max: usize) -> Fetched
        requires max { 1 ≤ max }
        requires begun { 0 < length self.old.current }
        requires open { self.old.at_end ≡ false }
        ensures fetch { Fetches self.old.faults self.new.faults (shown self.old) (shown self.new) max result }
        ensures value { GivesUpTo max self.old.current result }
        ensures sound { result ≢ Fetched.Failed }
        ensures after { self.new ≡ record self.old { current = self.new.current; fetched = self.new.fetched } }
    {
        let rest = &self.current[self.used..];
        let count = max.min(rest.len());
        match Vec::from_slice(alloc, &rest[..count]) {
            Ok(bytes) => {
                self.used += count;
                self.fetched.note(bytes.as_slice());
                Fetched::Bytes(bytes)
            }
            Err(_) => Fetched::NoMemory,
        }
    }

    /// Whether the output has ended, where no chunk is ready.
    fn has_ended(&self) -> bool
        requires { upcoming (count_of self.now.given) self.now.chunks ≡ [] }
        ensures { result ≡ is_some (ended (count_of self.now.given) self.now.chunks self.now.ending) }
    {
        let Some(ending) = self.ending else {
            return false;
        };
        if !self.chunks.is_empty() {
            return false;
        }
        ending.need <= self.given_len
    }

    /// Tells the end where nothing comes any more.
    fn find_end(&mut self) -> Fetched
        requires current { self.old.current ≡ [] }
        requires upcoming { upcoming (count_of self.old.given) self.old.chunks ≡ [] }
        requires open { self.old.at_end ≡ false }
        ensures fetch { Fetches self.old.faults self.new.faults (shown self.old) (shown self.new) 1 result }
        ensures value { GivesUpTo 1 [] result }
        ensures sound { result ≢ Fetched.Failed }
        ensures after { self.new ≡ record self.old { at_end = self.new.at_end } }
    {
        if !self.has_ended() {
            return Fetched::Again;
        }
        self.at_end = true;
        Fetched::End
    }
}
