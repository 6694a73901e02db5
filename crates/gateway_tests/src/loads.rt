//! Runs of the scripts that the load generator makes.

use crate::runs::{Ran, Setting, TestDriver, fresh_drivers, owned_words, run_with};
use gateway::Cause;
use outside::MemFiles;
use std::alloc::Global;
use std::process::Abort;
use std::sync::Wait;
use std::test::Fail;
use std::thread::Threads;

/// Fresh drivers for the four ports of a load.
const ECHOES: [TestDriver; 4] = [
    TestDriver::Echo,
    TestDriver::Echo,
    TestDriver::Echo,
    TestDriver::Echo,
];

/// The same, but for one.
const FEW_ECHOES: [TestDriver; 3] = [TestDriver::Echo, TestDriver::Echo, TestDriver::Echo];

/// No files, of which the first read and the first write would fail, and an empty sink.
fn untouchable(alloc: Global) -> Result<Setting, Fail> {
    let mut files = MemFiles::new(alloc);
    files.fail_read(0)?;
    files.fail_write(0)?;
    Ok(Setting::over(alloc, files))
}

/// Runs these words over drivers of these kinds.
fn run_load<R: Sync + Threads + Wait>(
    rt: &R,
    alloc: Global,
    words: &[&str],
    kinds: &[TestDriver],
    setting: Setting,
) -> Result<Ran, Fail> {
    let words = owned_words(alloc, words)?;
    let drivers = fresh_drivers(alloc, kinds)?;
    run_with(rt, alloc, words.as_slice(), drivers, setting)
}

/// The summary of the load of 7.
const SEVEN: &str = "load number=7 commands=16000 late=0 bytes=522808\n\
     port q0 commands=4072 bytes=133173\n\
     port q1 commands=3954 bytes=129088\n\
     port q2 commands=4050 bytes=131985\n\
     port q3 commands=3924 bytes=128562\n";

/// The words of the load of 7 for three schedules.
const SCHEDULES: [&[&str]; 3] = [
    &["load", "7"],
    &["load", "7", "1", "1"],
    &["load", "07", "8", "4"],
];

/// Runs a load over no files and four drivers.
fn run_whole<R: Sync + Threads + Wait>(rt: &R, alloc: Global, words: &[&str]) -> Result<Ran, Fail> {
    let setting = untouchable(alloc)?;
    run_load(rt, alloc, words, ECHOES.as_slice(), setting)
}

/// Ends the test where this isn't a run of the load of 7.
fn is_seven<R: Abort>(rt: &R, ran: &Ran, words: &[&str]) {
    let is = ran.ended(0, Cause::Done) && ran.is_reported() && ran.put(SEVEN);
    assert!(rt; is, "{words:?}");
}

#[test]
fn a_load_has_the_same_summary_for_any_schedule(rt: HostRuntime) -> Result<(), Fail> {
    for words in SCHEDULES.as_slice() {
        let ran = run_whole(&rt, rt.alloc(), words)?;
        is_seven(&rt, &ran, words);
    }
    Ok(())
}

/// There is no driver for the last port of a load.
const NO_DRIVER: Cause = Cause::NoDriver {
    line: 12,
    handed: 3,
};

/// Runs the load of 7 over no files and too few drivers.
fn run_short<R: Sync + Threads + Wait>(rt: &R, alloc: Global) -> Result<Ran, Fail> {
    let setting = untouchable(alloc)?;
    run_load(rt, alloc, &["load", "7"], FEW_ECHOES.as_slice(), setting)
}

#[test]
fn a_load_needs_a_driver_for_each_of_its_ports(rt: HostRuntime) -> Result<(), Fail> {
    let ran = run_short(&rt, rt.alloc())?;
    assert!(rt; ran.ended_silently(5, NO_DRIVER) && !ran.is_reported());
    Ok(())
}

/// Runs the load of 7 over no files, four drivers and a sink that takes nothing.
fn run_unput<R: Sync + Threads + Wait>(rt: &R, alloc: Global) -> Result<Ran, Fail> {
    let setting = untouchable(alloc)?.with_put_of(0)?;
    run_load(rt, alloc, &["load", "7"], ECHOES.as_slice(), setting)
}

#[test]
fn a_summary_that_is_not_put_is_a_write_fault(rt: HostRuntime) -> Result<(), Fail> {
    let ran = run_unput(&rt, rt.alloc())?;
    assert!(rt; ran.ended_silently(4, Cause::WriteFault) && ran.is_reported());
    Ok(())
}
