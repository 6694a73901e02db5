//! The program `gateway`: it runs a script of processes and ports on threads and prints the report, checks a script and prints how much it has, or reads a journal and tells whether its histories are legal.
#![tactic(auto)]

use either_driver::EitherDriver;
use gateway::{CallEnd, Cause, ScriptFault, StartRefusal, cause_text, host_drivers, run_hosted};
use no_memory::NoMemory;
use outside::{OpenGate, PollSet, RealFiles, RealSink, Spawner};
use outside_programs::{PipeServer, RealPoll, RealSpawner};
use plain_command::{PlainEnd, is_plain, plain_command};
use port_driver::Driver;
use sample_drivers::{Digest, Echo, Refuse, Refused, Store, Tally, Valve};
use spawn_driver::{SpawnDriver, spawn_driver};
use std::alloc::Global;
use std::env::{Env, FillError};
use std::mem::forget;
use std::process::ExitCode;
use std::rt::Files;
use std::sync::Wait;
use std::thread::Threads;

/// How many drivers of each kind there are: as many as a script may have ports.
const DRIVERS: u32 = 32;

/// How many events the programs have: each has one for its output, and one for its input.
const EVENTS: u32 = 2 * DRIVERS;

/// The kinds of drivers that need nothing of the machine.
#[derive(Clone, Copy)]
enum SampleKind {
    Echo,
    Tally,
    Store,
    Valve,
    ValveSoft,
    Digest,
    Refuse(Refused),
}

/// One of each kind.
const SAMPLES: [SampleKind; 9] = [
    SampleKind::Echo,
    SampleKind::Tally,
    SampleKind::Store,
    SampleKind::Valve,
    SampleKind::ValveSoft,
    SampleKind::Digest,
    SampleKind::Refuse(Refused::General),
    SampleKind::Refuse(Refused::Errno),
    SampleKind::Refuse(Refused::Badarg),
];

/// A driver of the program: one that needs nothing of the machine, or one whose program a spawner starts.
type ProgramDriver<S> = EitherDriver<Box<dyn Driver + Send>, SpawnDriver<S>>;

/// The status of a run for which no memory was found.
const NO_MEMORY: u8 = 8;

/// The longest word of a command line, in bytes.
const MAX_WORD: usize = 131_072;

/// The words of the command line, without the program's own name. A word that isn't UTF-8 is told as the empty word, which no command
/// has.
fn words<R: Env>(rt: &R, alloc: Global) -> Result<Vec<String>, NoMemory> {
    let mut words = Vec::new(alloc);
    let mut buffer = vec![in alloc; 0u8; MAX_WORD]?;
    for at in 1..usize::MAX {
        match rt.arg(at, buffer.as_mut_slice()) {
            Ok(len) => {
                let text = str::from_utf8(&buffer.as_slice()[..len]).unwrap_or("");
                words.push(String::from_str(alloc, text)?)?;
            }
            Err(FillError::TooLong) => words.push(String::new(alloc))?,
            Err(FillError::NotPresent) => break,
        }
    }
    Ok(words)
}

/// What the program says of a command that didn't end well, where memory is found for it.
fn say(rt: &impl Eprint, alloc: Global, cause: &Cause) {
    if let Cause::Script {
        fault: ScriptFault::NoMemory,
    } = cause
    {
        return;
    }
    if let Cause::StartRefused {
        refusal: StartRefusal::NoMemory,
        ..
    } = cause
    {
        return;
    }
    let Ok(text) = cause_text(alloc, cause) else {
        return;
    };
    if let Ok(text) = str::from_utf8(text.as_slice()) {
        let _ = rt.eprint(text);
    }
}

/// Does what the words ask for, where it runs nothing, and returns the status.
fn run_plain<R: AllocGlobal + Clone + Drop + Eprint + Files + Print>(
    rt: &R,
    words: &[String],
) -> Result<u8, NoMemory> {
    let alloc = rt.alloc();
    let mut files = RealFiles::new(rt.clone()?);
    let mut out = RealSink::new(rt.clone()?);
    let PlainEnd { status, cause } = plain_command(alloc, words, &mut files, &mut out);
    say(rt, alloc, &cause);
    Ok(status)
}

/// Runs what the words ask for, over these drivers and the poll set of their programs, and returns the status. Nothing that the run left is walked to be
/// freed, since the program ends behind it.
fn run_over<
    D: Driver + Send,
    P: PollSet + Drop + Send,
    R: AllocGlobal + Clone + Drop + Eprint + Files + Print + Sync + Threads + Wait,
>(rt: &R, words: &[String], drivers: Vec<D>, poll: P) -> Result<u8, NoMemory> {
    let alloc = rt.alloc();
    let drivers = host_drivers(alloc, drivers)?;
    let mut files = RealFiles::new(rt.clone()?);
    let mut out = RealSink::new(rt.clone()?);
    let end: CallEnd<P, D> = run_hosted(
        rt, alloc, words, &mut files, &mut out, drivers, poll, &OpenGate,
    );
    say(rt, alloc, &end.cause);
    let status = end.status;
    forget(end);
    Ok(status)
}

/// Puts a fresh driver of each program that these start.
fn put_spawned<S: Spawner + Drop>(
    spawners: Vec<S>,
    drivers: &mut Vec<ProgramDriver<S>>,
) -> Result<(), NoMemory>
where
    S::Program: Drop,
{
    for spawner in spawners {
        drivers.push(EitherDriver::Second(spawn_driver(spawner)))?;
    }
    Ok(())
}

/// Runs what the words ask for, over fresh drivers of each kind, and returns the status. These start the programs, whose events are those of the poll set.
fn run<
    S: Spawner + Drop + Send,
    P: PollSet + Drop + Send,
    R: AllocGlobal + Clone + Drop + Eprint + Files + Print + Sync + Threads + Wait,
>(rt: &R, words: &[String], spawners: Vec<S>, poll: P) -> Result<u8, NoMemory>
where
    S::Program: Drop,
{
    let alloc = rt.alloc();
    let mut drivers = Vec::new(alloc);
    for sample in SAMPLES {
        for _ in 0..DRIVERS {
            let driver: Box<dyn Driver + Send> = match sample {
                SampleKind::Echo => Box::new(alloc, Echo::new())?,
                SampleKind::Tally => Box::new(alloc, Tally::new())?,
                SampleKind::Store => Box::new(alloc, Store::new())?,
                SampleKind::Valve => Box::new(alloc, Valve::new())?,
                SampleKind::ValveSoft => Box::new(alloc, Valve::soft())?,
                SampleKind::Digest => Box::new(alloc, Digest::new())?,
                SampleKind::Refuse(refused) => Box::new(alloc, Refuse::new(refused))?,
            };
            drivers.push(EitherDriver::First(driver))?;
        }
    }
    put_spawned(spawners, &mut drivers)?;
    run_over(rt, words, drivers, poll)
}

/// What starts the programs of a script, as many as it may have ports: each with two events of its own.
fn spawners_of<R: Copy + Drop>(
    alloc: Global,
    rt: R,
    pipes: &PipeServer,
) -> Result<Vec<RealSpawner<R>>, NoMemory> {
    let mut spawners = Vec::new(alloc);
    for number in 0..DRIVERS {
        let spawner = RealSpawner::new(rt, pipes, 2 * number, 2 * number + 1)?;
        spawners.push(spawner)?;
    }
    Ok(spawners)
}

/// The end of the program with this status, where memory was found for it.
fn ended(status: Result<u8, NoMemory>) -> ExitCode {
    ExitCode::from(status.unwrap_or(NO_MEMORY))
}

fn main(rt: HostRuntime) -> ExitCode {
    let alloc = rt.alloc();
    let Ok(words) = words(&rt, alloc) else {
        return ExitCode::from(NO_MEMORY);
    };
    if is_plain(words.as_slice()) {
        return ended(run_plain(&rt, words.as_slice()));
    }
    let Ok(poll) = RealPoll::new(alloc, rt, EVENTS) else {
        return ExitCode::from(NO_MEMORY);
    };
    let Ok(pipes) = PipeServer::new(alloc, rt, &poll) else {
        return ExitCode::from(NO_MEMORY);
    };
    let Ok(spawners) = spawners_of(alloc, rt, &pipes) else {
        return ExitCode::from(NO_MEMORY);
    };
    ended(run(&rt, words.as_slice(), spawners, poll))
}
