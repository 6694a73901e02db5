//! What a run comes to for each call of the outside that fails alone.

use crate::faulty::FailingCall;
use crate::outcome::{ReportedEnd, RunOutcome};
use crate::runs::{comes_to, script_comes_to};
use gateway::{Cause, StartRefusal};
use port_driver::Life;
use std::alloc::Global;
use std::process::Abort;
use std::sync::Wait;
use std::test::Fail;
use std::thread::Threads;

/// Ends the test where the run that fails this call comes to something else.
fn is_wanted<R: Abort>(rt: &R, wanted: bool, number: u64) {
    assert!(rt; wanted, "call {number}");
}

/// What a run comes to that nothing fails.
const WHOLE: RunOutcome = RunOutcome {
    status: 0,
    cause: Cause::Done,
    is_reported: true,
    saved: Some(3),
    status_sent: Some(true),
    end: Some(ReportedEnd::Normal),
    program: Life::Stopped,
};

#[test]
fn a_run_without_a_fault_saves_all_and_ends_its_port(rt: HostRuntime) -> Result<(), Fail> {
    assert!(rt; comes_to(&rt, rt.alloc(), FailingCall::Nothing, WHOLE)?);
    Ok(())
}

#[test]
fn a_script_that_is_not_read_starts_nothing(rt: HostRuntime) -> Result<(), Fail> {
    let wanted = RunOutcome::without_output(3, Cause::ReadFault { line: 0 }, Life::Fresh);
    assert!(rt; comes_to(&rt, rt.alloc(), FailingCall::Read(0), wanted)?);
    Ok(())
}

#[test]
fn a_file_that_is_not_read_starts_nothing(rt: HostRuntime) -> Result<(), Fail> {
    let wanted = RunOutcome::without_output(3, Cause::ReadFault { line: 3 }, Life::Fresh);
    assert!(rt; comes_to(&rt, rt.alloc(), FailingCall::Read(1), wanted)?);
    Ok(())
}

/// The program isn't started.
const NOT_STARTED: Cause = Cause::StartRefused {
    line: 2,
    refusal: StartRefusal::StartFault,
};

#[test]
fn a_program_that_is_not_started_refuses_its_port(rt: HostRuntime) -> Result<(), Fail> {
    let wanted = RunOutcome::without_output(6, NOT_STARTED, Life::Stopped);
    assert!(rt; comes_to(&rt, rt.alloc(), FailingCall::Start(0), wanted)?);
    Ok(())
}

/// Scripts of a program and of a port that is refused, with the refusal.
const REFUSALS: [(&str, StartRefusal); 2] = [
    (
        "process a\nport c a spawn run \"program\"\nport d a refuse1\n",
        StartRefusal::General,
    ),
    (
        "process a\nport c a spawn run \"program\"\nport d a refuse3\n",
        StartRefusal::Badarg,
    ),
];

/// Whether a run of this script ends with this refusal in its third line, and stops the program.
fn is_refused<R: Sync + Threads + Wait>(
    rt: &R,
    alloc: Global,
    script: &str,
    refusal: StartRefusal,
) -> Result<bool, Fail> {
    let cause = Cause::StartRefused { line: 3, refusal };
    let wanted = RunOutcome::without_output(6, cause, Life::Stopped);
    script_comes_to(rt, alloc, script, wanted)
}

/// Ends the test where this script isn't refused so.
fn is_so<R: Abort>(rt: &R, so: bool, script: &str) {
    assert!(rt; so, "{script}");
}

#[test]
fn a_program_is_stopped_where_a_later_port_is_refused(rt: HostRuntime) -> Result<(), Fail> {
    for (script, refusal) in REFUSALS.as_slice() {
        let refused = is_refused(&rt, rt.alloc(), script, *refusal)?;
        is_so(&rt, refused, script);
    }
    Ok(())
}

#[test]
fn each_offer_that_fails_closes_the_port(rt: HostRuntime) -> Result<(), Fail> {
    let wanted = RunOutcome::with_eio(0);
    for number in 0..3 {
        let closed = comes_to(&rt, rt.alloc(), FailingCall::Offer(number), wanted)?;
        is_wanted(&rt, closed, number);
    }
    Ok(())
}

/// The numbers of fetches that fail, and how many bytes are saved then.
const FETCHES: [(u64, usize); 3] = [(0, 0), (1, 2), (2, 3)];

#[test]
fn each_fetch_that_fails_closes_the_port_behind_what_came(rt: HostRuntime) -> Result<(), Fail> {
    for (number, saved) in FETCHES.as_slice() {
        let fetch = FailingCall::Fetch(*number);
        let closed = comes_to(&rt, rt.alloc(), fetch, RunOutcome::with_eio(*saved))?;
        is_wanted(&rt, closed, *number);
    }
    Ok(())
}

#[test]
fn a_status_that_fails_closes_the_port_and_is_not_sent(rt: HostRuntime) -> Result<(), Fail> {
    let wanted = RunOutcome::with_eio(3);
    assert!(rt; comes_to(&rt, rt.alloc(), FailingCall::Status(0), wanted)?);
    Ok(())
}

#[test]
fn each_wait_that_fails_ends_the_run_without_a_report(rt: HostRuntime) -> Result<(), Fail> {
    let wanted = RunOutcome::without_output(7, Cause::PollFault, Life::Stopped);
    for number in 0..6 {
        let ended = comes_to(&rt, rt.alloc(), FailingCall::Wait(number), wanted)?;
        is_wanted(&rt, ended, number);
    }
    Ok(())
}

#[test]
fn nothing_is_written_behind_a_save_that_fails(rt: HostRuntime) -> Result<(), Fail> {
    let wanted = RunOutcome::cut(None, None);
    assert!(rt; comes_to(&rt, rt.alloc(), FailingCall::Write(0), wanted)?);
    Ok(())
}

#[test]
fn nothing_is_put_behind_a_journal_that_fails(rt: HostRuntime) -> Result<(), Fail> {
    let wanted = RunOutcome::cut(Some(3), None);
    assert!(rt; comes_to(&rt, rt.alloc(), FailingCall::Write(1), wanted)?);
    Ok(())
}

#[test]
fn all_files_are_written_before_a_report_that_fails(rt: HostRuntime) -> Result<(), Fail> {
    let wanted = RunOutcome::cut(Some(3), Some(true));
    assert!(rt; comes_to(&rt, rt.alloc(), FailingCall::Put(0), wanted)?);
    Ok(())
}
