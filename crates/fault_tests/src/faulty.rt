//! The outside of a run in memory, one call of which is to fail.
ghost use Rattle.std.specs.Prelude.{◌≡◌};
ghost use Rattle.outside.specs.Programs.{shown};

use outside::{
    MemChild, MemFiles, MemPoll, MemProgram, MemSink, MemSpawner, NoMemory, SpawnFault, Spawner,
};
use std::alloc::Global;
use std::test::Fail;

/// The call that is to fail, by its number from 0 among the calls of its kind.
#[derive(Clone, Copy)]
pub enum FailingCall {
    Nothing,
    Read(u64),
    Start(u64),
    Offer(u64),
    Fetch(u64),
    Status(u64),
    Wait(u64),
    Write(u64),
    Put(u64),
}

/// Files that hold this script under the name `s`, and five bytes under the name `five`.
fn holding(alloc: Global, script: &str) -> Result<MemFiles, Fail> {
    let mut files = MemFiles::new(alloc);
    files.hold("s", script.as_bytes())?;
    files.hold("five", b"abcde")?;
    Ok(files)
}

/// The files of a run of this script.
pub fn files(alloc: Global, script: &str, failing: FailingCall) -> Result<MemFiles, Fail> {
    let mut files = holding(alloc, script)?;
    let planned = match failing {
        FailingCall::Read(number) => files.fail_read(number),
        FailingCall::Write(number) => files.fail_write(number),
        _ => Ok(()),
    };
    planned?;
    Ok(files)
}

/// An empty sink.
pub fn sink(alloc: Global, failing: FailingCall) -> Result<MemSink, Fail> {
    let mut sink = MemSink::new(alloc);
    if let FailingCall::Put(number) = failing {
        sink.fail_put(number)?;
    }
    Ok(sink)
}

/// Three rounds of the write event of the program, and three of its read event.
fn rounds(alloc: Global) -> Result<MemPoll, Fail> {
    let mut poll = MemPoll::new(alloc);
    for event in &[1, 1, 1, 0, 0, 0] {
        poll.add_round(&[*event])?;
    }
    Ok(poll)
}

/// The poll set of a run.
pub fn poll(alloc: Global, failing: FailingCall) -> Result<MemPoll, Fail> {
    let mut poll = rounds(alloc)?;
    if let FailingCall::Wait(number) = failing {
        poll.fail_wait(number)?;
    }
    Ok(poll)
}

/// What starts a program of memory of whose calls one may be to fail.
#[derive(Drop)]
pub struct FailingSpawner {
    spawner: MemSpawner,
    failing: FailingCall,
}

/// A program that takes two bytes of an offer, gives `xy` and `z`, and ends with the status 3.
fn program(alloc: Global) -> Result<MemProgram, Fail> {
    let mut program = MemProgram::new(alloc, 2);
    program.give(b"xy")?;
    program.give(b"z")?;
    program.end(3);
    Ok(program)
}

/// What starts that program. Its events are 0 for its output, and 1 for its input.
pub fn spawner(alloc: Global, failing: FailingCall) -> Result<FailingSpawner, Fail> {
    let program = program(alloc)?;
    let mut spawner = MemSpawner::new(alloc, 0);
    spawner.add(program)?;
    if let FailingCall::Start(number) = failing {
        spawner.fail_start(number)?;
    }
    Ok(FailingSpawner { spawner, failing })
}

/// Makes the call fail where it is one of the program.
fn plan(child: &mut MemChild, failing: FailingCall) -> Result<(), NoMemory>
    ensures shown { shown child.new ≡ shown child.old }
    ensures faults { child.new.faults ≡ child.old.faults }
{
    match failing {
        FailingCall::Offer(number) => child.fail_offer(number),
        FailingCall::Fetch(number) => child.fail_fetch(number),
        FailingCall::Status(number) => child.fail_status(number),
        _ => Ok(()),
    }
}

impl Spawner for FailingSpawner {
    type Program = MemChild;

    ghost faults = { λ s. s.spawner.faults };

    fn start(&mut self, alloc: Global, command: &[u8]) -> Result<MemChild, SpawnFault> {
        let mut child = self.spawner.start(alloc, command)?;
        match plan(&mut child, self.failing) {
            Ok(()) => Ok(child),
            Err(_) => Err(SpawnFault::NoMemory),
        }
    }
}
