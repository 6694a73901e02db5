//! Runs of one script, with a program of memory.

use crate::faulty::{FailingCall, files, poll, sink, spawner};
use crate::outcome::{RunOutcome, outcome_of};
use gateway::{CallEnd, gateway, host_drivers};
use outside::{MemFiles, MemPoll, MemSink, OpenGate};
use port_driver::Driver;
use sample_drivers::{Echo, Refuse, Refused};
use spawn_driver::spawn_driver;
use std::alloc::{AllocError, Global};
use std::sync::Wait;
use std::test::Fail;
use std::thread::Threads;

/// A script that sends a file to a program, in three commands, and waits for more messages than the program gives, so until its port has closed.
const SCRIPT: &str = "process a\nport c a spawn run \"program\" exit_status\na file c 2 \"five\"\n\
    a expect c 3\nsave a c \"saved\"\njournal \"j\"\n";

/// The drivers of a run.
#[derive(Clone, Copy)]
enum FaultTestDriver {
    /// Of the program.
    Program,
    /// One that has no port.
    Echo,
    RefuseGeneral,
    RefuseBadarg,
}

/// One of the program, one that has no port, and two that refuse to start.
const DRIVERS: [FaultTestDriver; 4] = [
    FaultTestDriver::Program,
    FaultTestDriver::Echo,
    FaultTestDriver::RefuseGeneral,
    FaultTestDriver::RefuseBadarg,
];

/// A fresh driver of the program.
fn fresh_spawn(alloc: Global, failing: FailingCall) -> Result<Box<dyn Driver + Send>, Fail> {
    let spawner = spawner(alloc, failing)?;
    Ok(Box::new(alloc, spawn_driver(spawner))?)
}

/// A fresh driver of echo.
fn fresh_echo(alloc: Global) -> Result<Box<dyn Driver + Send>, Fail> {
    Ok(Box::new(alloc, Echo::new())?)
}

/// A fresh driver that refuses to start.
fn fresh_refuse(alloc: Global, refused: Refused) -> Result<Box<dyn Driver + Send>, Fail> {
    Ok(Box::new(alloc, Refuse::new(refused))?)
}

/// This driver, fresh.
fn fresh(
    alloc: Global,
    driver: FaultTestDriver,
    failing: FailingCall,
) -> Result<Box<dyn Driver + Send>, Fail> {
    match driver {
        FaultTestDriver::Program => fresh_spawn(alloc, failing),
        FaultTestDriver::Echo => fresh_echo(alloc),
        FaultTestDriver::RefuseGeneral => fresh_refuse(alloc, Refused::General),
        FaultTestDriver::RefuseBadarg => fresh_refuse(alloc, Refused::Badarg),
    }
}

/// The drivers of a run, all fresh.
fn fresh_drivers(alloc: Global, failing: FailingCall) -> Result<Vec<Box<dyn Driver + Send>>, Fail> {
    let mut drivers = Vec::new(alloc);
    for driver in DRIVERS.as_slice() {
        drivers.push(fresh(alloc, *driver, failing)?)?;
    }
    Ok(drivers)
}

/// The words of a run of the script.
fn words(alloc: Global) -> Result<Vec<String>, AllocError> {
    let mut words = Vec::new(alloc);
    for word in &["run", "s"] {
        words.push(String::from_str(alloc, word)?)?;
    }
    Ok(words)
}

/// What a run is handed, beside what it reads and writes.
#[derive(Drop)]
struct Handed {
    words: Vec<String>,
    drivers: Vec<Box<dyn Driver + Send>>,
    poll: MemPoll,
}

/// The words, the drivers and the poll set of a run of the script.
fn all_handed(alloc: Global, failing: FailingCall) -> Result<Handed, Fail> {
    let words = words(alloc)?;
    let poll = poll(alloc, failing)?;
    let drivers = fresh_drivers(alloc, failing)?;
    Ok(Handed {
        words,
        drivers,
        poll,
    })
}

/// What a run reads and writes.
#[derive(Drop)]
struct Stores {
    files: MemFiles,
    out: MemSink,
}

/// The files and the sink of a run of this script.
fn fresh_stores(alloc: Global, script: &str, failing: FailingCall) -> Result<Stores, Fail> {
    let files = files(alloc, script, failing)?;
    let out = sink(alloc, failing)?;
    Ok(Stores { files, out })
}

/// Runs the script over the files and the sink.
fn run<R: Sync + Threads + Wait>(
    rt: &R,
    alloc: Global,
    handed: Handed,
    stores: &mut Stores,
) -> Result<CallEnd<MemPoll>, Fail> {
    let Handed {
        words,
        drivers,
        poll,
    } = handed;
    let hosts = host_drivers(alloc, drivers)?;
    Ok(gateway(
        rt,
        alloc,
        words.as_slice(),
        &mut stores.files,
        &mut stores.out,
        hosts,
        poll,
        &OpenGate,
    ))
}

/// What a run of this script, which may have a program, comes to where this call is to fail.
fn run_script_with<R: Sync + Threads + Wait>(
    rt: &R,
    alloc: Global,
    script: &str,
    failing: FailingCall,
) -> Result<RunOutcome, Fail> {
    let handed = all_handed(alloc, failing)?;
    let mut stores = fresh_stores(alloc, script, failing)?;
    let ended = run(rt, alloc, handed, &mut stores)?;
    outcome_of(&ended, &stores.files, &stores.out)
}

/// Whether a run of this script comes to this.
pub fn script_comes_to<R: Sync + Threads + Wait>(
    rt: &R,
    alloc: Global,
    script: &str,
    wanted: RunOutcome,
) -> Result<bool, Fail> {
    let outcome = run_script_with(rt, alloc, script, FailingCall::Nothing)?;
    Ok(outcome == wanted)
}

/// Whether a run of the script comes to this where this call is to fail.
pub fn comes_to<R: Sync + Threads + Wait>(
    rt: &R,
    alloc: Global,
    failing: FailingCall,
    wanted: RunOutcome,
) -> Result<bool, Fail> {
    let outcome = run_script_with(rt, alloc, SCRIPT, failing)?;
    Ok(outcome == wanted)
}
