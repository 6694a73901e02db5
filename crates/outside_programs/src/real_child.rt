ghost use Rattle.std.specs.Prelude.{◌≡◌, [], false, None};

use crate::ends::{InputEnd, OutputEnd};
use outside::{ByteLog, Child, FaultCount, Fetched, Offered, StatusGot};
use std::alloc::Global;
use std::process;
use std::sync::Wait;

/// The status of a program that ended without one, as by a signal.
const NO_STATUS: i32 = 255;

/// A program with the caller's ends of its output and its input.
#[derive(Drop)]
pub(crate) struct Piped {
    pub(crate) program: process::Child,
    pub(crate) output: OutputEnd,
    pub(crate) input: InputEnd,
}

/// A program of the machine that was started, with piped input and output.
///
/// It tells nothing of how its program stands. `status` waits for the program. `stop` closes the pipes
/// once the threads that serve them are through with what they do.
#[derive(Drop)]
pub struct RealChild<R> {
    rt: R,
    alloc: Global,
    piped: Piped,
    read_event: u32,
    write_event: u32,
    command: ByteLog,
    at_end: bool,
    stopped: bool,
    faults: FaultCount,
}

impl<R> RealChild<R> {
    /// A child that was just started with this command text.
    pub(crate) fn new(
        rt: R,
        alloc: Global,
        piped: Piped,
        events: (u32, u32),
        command: &[u8],
    ) -> Self
        requires unused { (piped.input.given ≡ []) × (piped.output.given ≡ []) }
        ensures faults { result.faults ≡ 0 }
        ensures command { result.command ≡ command.now }
        ensures logs { (result.piped.input.given ≡ []) × (result.piped.output.given ≡ []) }
        ensures flags { (result.at_end ≡ false) × (result.stopped ≡ false) }
    {
        let mut text = ByteLog::new();
        text.note(command);
        RealChild {
            rt,
            alloc,
            piped,
            read_event: events.0,
            write_event: events.1,
            command: text,
            at_end: false,
            stopped: false,
            faults: FaultCount::new(),
        }
    }
}

impl<R: Wait + Send> Child for RealChild<R> {
    ghost faults = { λ c. c.faults };

    ghost shows = { λ c. record {
      read_event = c.read_event;
      write_event = c.write_event;
      command = c.command;
      given = c.piped.input.given;
      fetched = c.piped.output.given;
      at_end = c.at_end;
      stopped = c.stopped;
      stand = None;
    } };

    fn events(&self) -> (u32, u32) {
        (self.read_event, self.write_event)
    }

    fn offer(&mut self, bytes: &[u8]) -> Offered {
        match self.piped.input.offer(&self.rt, self.alloc, bytes) {
            Offered::Took(count) => Offered::Took(count),
            Offered::Failed => {
                self.faults.rise();
                Offered::Failed
            }
        }
    }

    fn fetch(&mut self, alloc: Global, max: usize) -> Fetched {
        if self.at_end {
            return Fetched::End;
        }
        match self.piped.output.take(&self.rt, alloc, max) {
            Fetched::Bytes(bytes) => Fetched::Bytes(bytes),
            Fetched::Again => Fetched::Again,
            Fetched::End => {
                self.at_end = true;
                Fetched::End
            }
            Fetched::Failed => {
                self.faults.rise();
                Fetched::Failed
            }
            Fetched::NoMemory => Fetched::NoMemory,
        }
    }

    /// It closes the input first, so that a program which reads to its end can finish.
    fn status(&mut self) -> StatusGot {
        self.piped.input.close();
        match self.piped.program.wait() {
            Ok(status) => StatusGot::Ended(status.code().unwrap_or(NO_STATUS)),
            Err(_) => {
                self.faults.rise();
                StatusGot::Failed
            }
        }
    }

    fn stop(&mut self) {
        self.piped.output.close();
        self.piped.input.close();
        self.stopped = true;
    }
}
