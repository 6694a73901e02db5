//! Runs over files, a sink, a poll set and programs of memory.

use gateway::{CallEnd, Cause, Hosted, gateway, host_drivers};
use outside::{MemFiles, MemPoll, MemProgram, MemSink, MemSpawner, OpenGate};
use port_driver::{Driver, Life};
use sample_drivers::{Digest, Echo, Refuse, Refused, Store, Tally, Valve};
use spawn_driver::spawn_driver;
use std::alloc::{AllocError, Global};
use std::process::Abort;
use std::sync::Wait;
use std::test::Fail;
use std::thread::Threads;

/// A process that hands three bytes to its port and closes it.
pub const ABC: &str = "process a\nport p a echo\na command p \"abc\"\na close p\n";

/// What a run stands on.
#[derive(Drop)]
pub struct Setting {
    pub files: MemFiles,
    pub out: MemSink,
    pub poll: MemPoll,
}

/// Files that hold this script, under the name `s`, and five bytes under the name `five`.
pub fn holding(alloc: Global, script: &[u8]) -> Result<MemFiles, Fail> {
    let mut files = MemFiles::new(alloc);
    files.hold("s", script)?;
    files.hold("five", b"abcde")?;
    Ok(files)
}

impl Setting {
    /// These files, an empty sink, and a poll set without rounds.
    pub fn over(alloc: Global, files: MemFiles) -> Setting {
        Setting {
            files,
            out: MemSink::new(alloc),
            poll: MemPoll::new(alloc),
        }
    }

    /// Files that hold this script, an empty sink, and a poll set without rounds.
    pub fn of_script(alloc: Global, script: &[u8]) -> Result<Setting, Fail> {
        Ok(Setting::over(alloc, holding(alloc, script)?))
    }

    /// The same, where the first wait fails.
    pub fn without_wait(self) -> Result<Setting, Fail> {
        let mut setting = self;
        setting.poll.fail_wait(0)?;
        Ok(setting)
    }

    /// The same, where the first put fails once it took so many bytes.
    pub fn with_put_of(self, count: usize) -> Result<Setting, Fail> {
        let mut setting = self;
        setting.out.fail_put(0)?;
        setting.out.take_before_failing(count);
        Ok(setting)
    }

    /// The same, where the second write fails.
    pub fn with_one_write(self) -> Result<Setting, Fail> {
        let mut setting = self;
        setting.files.fail_write(1)?;
        Ok(setting)
    }
}

/// What a run left, and how it ended.
#[derive(Drop)]
pub struct Ran {
    pub files: MemFiles,
    pub out: MemSink,
    pub end: CallEnd<MemPoll>,
}

impl Ran {
    /// The files alone.
    pub fn into_files(self) -> MemFiles {
        let Ran { files, .. } = self;
        files
    }

    /// Whether the run ended with this status and this cause.
    pub fn ended(&self, status: u8, cause: Cause) -> bool {
        self.end.status == status && self.end.cause == cause
    }

    /// Whether the run ended with this status and this cause, and put nothing out.
    pub fn ended_silently(&self, status: u8, cause: Cause) -> bool {
        self.ended(status, cause) && self.out.bytes().is_empty()
    }

    /// Whether there is a report.
    pub fn is_reported(&self) -> bool {
        self.end.report.is_some()
    }

    /// Whether the poll set came back.
    pub fn has_poll(&self) -> bool {
        self.end.poll.is_some()
    }

    /// Whether this was put out.
    pub fn put(&self, text: &str) -> bool {
        self.out.bytes() == text.as_bytes()
    }

    /// What was put out, as a text.
    pub fn text(&self, alloc: Global) -> Result<String, Fail> {
        let text = str::from_utf8(self.out.bytes())?;
        Ok(String::from_str(alloc, text)?)
    }

    /// Whether the file of this name holds these bytes.
    pub fn holds(&self, name: &str, bytes: &[u8]) -> bool {
        match self.files.held(name) {
            Some(held) => held == bytes,
            None => false,
        }
    }

    /// Whether a file of this name is there.
    pub fn has_file(&self, name: &str) -> bool {
        self.files.held(name).is_some()
    }

    /// Whether the drivers stand so.
    pub fn stands(&self, alloc: Global, text: &str) -> Result<bool, AllocError> {
        let standing = standing(alloc, self.end.drivers.as_slice())?;
        Ok(standing.as_str() == text)
    }
}

/// A program that answers three bytes with three others.
fn answering(alloc: Global) -> Result<MemProgram, Fail> {
    let mut program = MemProgram::new(alloc, 16);
    program.need(3);
    program.give(b"xyz")?;
    Ok(program)
}

/// A program that gives a line and ends.
fn ending(alloc: Global) -> Result<MemProgram, Fail> {
    let mut program = MemProgram::new(alloc, 16);
    program.give(b"hi\n")?;
    program.end(3);
    Ok(program)
}

/// What starts this program, with its events from this one on.
fn starting(alloc: Global, event: u32, program: MemProgram) -> Result<MemSpawner, Fail> {
    let mut spawner = MemSpawner::new(alloc, event);
    spawner.add(program)?;
    Ok(spawner)
}

/// The kinds of drivers.
#[derive(Clone, Copy)]
pub enum TestDriver {
    Echo,
    Tally,
    Store,
    Valve,
    ValveSoft,
    Digest,
    RefuseErrno,
    /// Of a program that answers three bytes with three others.
    Answering,
    /// Of a program that gives a line and ends.
    Ending,
}

/// Two drivers of echo, one each of the other samples that start, one that refuses to start with an error of the system, and two of programs.
const DRIVERS: [TestDriver; 10] = [
    TestDriver::Echo,
    TestDriver::Echo,
    TestDriver::Tally,
    TestDriver::Store,
    TestDriver::Valve,
    TestDriver::ValveSoft,
    TestDriver::Digest,
    TestDriver::RefuseErrno,
    TestDriver::Answering,
    TestDriver::Ending,
];

/// A fresh driver of echo.
fn fresh_echo(alloc: Global) -> Result<Box<dyn Driver + Send>, Fail> {
    Ok(Box::new(alloc, Echo::new())?)
}

/// A fresh driver that tallies.
fn fresh_tally(alloc: Global) -> Result<Box<dyn Driver + Send>, Fail> {
    Ok(Box::new(alloc, Tally::new())?)
}

/// A fresh driver that stores.
fn fresh_store(alloc: Global) -> Result<Box<dyn Driver + Send>, Fail> {
    Ok(Box::new(alloc, Store::new())?)
}

/// This valve as a driver.
fn fresh_valve(alloc: Global, valve: Valve) -> Result<Box<dyn Driver + Send>, Fail> {
    Ok(Box::new(alloc, valve)?)
}

/// A fresh driver that digests.
fn fresh_digest(alloc: Global) -> Result<Box<dyn Driver + Send>, Fail> {
    Ok(Box::new(alloc, Digest::new())?)
}

/// A fresh driver that refuses to start with an error of the system.
fn fresh_refuse(alloc: Global) -> Result<Box<dyn Driver + Send>, Fail> {
    Ok(Box::new(alloc, Refuse::new(Refused::Errno))?)
}

/// A fresh driver of the programs that this starts.
fn fresh_spawn(alloc: Global, spawner: MemSpawner) -> Result<Box<dyn Driver + Send>, Fail> {
    Ok(Box::new(alloc, spawn_driver(spawner))?)
}

/// A fresh driver of the program that answers.
fn fresh_answering(alloc: Global) -> Result<Box<dyn Driver + Send>, Fail> {
    let program = answering(alloc)?;
    let spawner = starting(alloc, 0, program)?;
    fresh_spawn(alloc, spawner)
}

/// A fresh driver of the program that ends.
fn fresh_ending(alloc: Global) -> Result<Box<dyn Driver + Send>, Fail> {
    let program = ending(alloc)?;
    let spawner = starting(alloc, 2, program)?;
    fresh_spawn(alloc, spawner)
}

/// A fresh driver of this kind.
fn fresh(alloc: Global, kind: TestDriver) -> Result<Box<dyn Driver + Send>, Fail> {
    match kind {
        TestDriver::Echo => fresh_echo(alloc),
        TestDriver::Tally => fresh_tally(alloc),
        TestDriver::Store => fresh_store(alloc),
        TestDriver::Valve => fresh_valve(alloc, Valve::new()),
        TestDriver::ValveSoft => fresh_valve(alloc, Valve::soft()),
        TestDriver::Digest => fresh_digest(alloc),
        TestDriver::RefuseErrno => fresh_refuse(alloc),
        TestDriver::Answering => fresh_answering(alloc),
        TestDriver::Ending => fresh_ending(alloc),
    }
}

/// A fresh driver of each of these kinds.
pub fn fresh_drivers(
    alloc: Global,
    kinds: &[TestDriver],
) -> Result<Vec<Box<dyn Driver + Send>>, Fail> {
    let mut drivers = Vec::new(alloc);
    for kind in kinds {
        drivers.push(fresh(alloc, *kind)?)?;
    }
    Ok(drivers)
}

/// The words as a run takes them.
pub fn owned_words(alloc: Global, words: &[&str]) -> Result<Vec<String>, AllocError> {
    let mut owned = Vec::new(alloc);
    for word in words {
        owned.push(String::from_str(alloc, word)?)?;
    }
    Ok(owned)
}

/// Runs the words over the setting, with fresh drivers of these.
pub fn run_with<R: Sync + Threads + Wait>(
    rt: &R,
    alloc: Global,
    words: &[String],
    drivers: Vec<Box<dyn Driver + Send>>,
    setting: Setting,
) -> Result<Ran, Fail> {
    let hosts = host_drivers(alloc, drivers)?;
    let Setting {
        mut files,
        mut out,
        poll,
    } = setting;
    let end = gateway(
        rt, alloc, words, &mut files, &mut out, hosts, poll, &OpenGate,
    );
    Ok(Ran { files, out, end })
}

/// Runs the words over the setting, with the drivers of these tests.
pub fn run<R: Sync + Threads + Wait>(
    rt: &R,
    alloc: Global,
    words: &[&str],
    setting: Setting,
) -> Result<Ran, Fail> {
    let words = owned_words(alloc, words)?;
    let drivers = fresh_drivers(alloc, DRIVERS.as_slice())?;
    run_with(rt, alloc, words.as_slice(), drivers, setting)
}

/// Runs the words over files that hold this script.
pub fn run_script<R: Sync + Threads + Wait>(
    rt: &R,
    alloc: Global,
    words: &[&str],
    script: &[u8],
) -> Result<Ran, Fail> {
    let setting = Setting::of_script(alloc, script)?;
    run(rt, alloc, words, setting)
}

/// How a driver stands.
fn life_of(host: &Hosted) -> &'static str {
    match &host.driver {
        None => "gone",
        Some(driver) => match driver.life() {
            Life::Fresh => "fresh",
            Life::Started => "started",
            Life::Stopped => "stopped",
        },
    }
}

/// Puts how a driver stands, with the port that it served.
fn put_host(text: &mut String, host: &Hosted) -> Result<(), AllocError> {
    text.push_str(life_of(host))?;
    if let Some(port) = host.port {
        write!(text, " {port}")?;
    }
    text.push(';')
}

/// How each driver stands, with the port that it served.
fn standing(alloc: Global, hosts: &[Hosted]) -> Result<String, AllocError> {
    let mut text = String::new(alloc);
    for host in hosts {
        put_host(&mut text, host)?;
    }
    Ok(text)
}

/// Ends the test where something isn't so.
pub fn is_so<R: Abort>(rt: &R, so: bool, words: &str) {
    assert!(rt; so, "{words}");
}
