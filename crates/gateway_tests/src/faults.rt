//! Runs that aren't made, and runs that the outside fails.

use crate::runs::{ABC, Ran, Setting, holding, is_so, run, run_script};
use gateway::{Cause, ScriptFault, StartRefusal};
use outside::MemFiles;
use std::alloc::{AllocError, Global};
use std::process::Abort;
use std::sync::Wait;
use std::test::Fail;
use std::thread::Threads;

/// No driver was touched.
const UNTOUCHED: &str = "fresh;fresh;fresh;fresh;fresh;fresh;fresh;fresh;fresh;fresh;";

/// Scripts that aren't run, with the status and the cause.
const NOT_RUN: [(&str, u8, Cause); 8] = [
    (
        "bad\n",
        2,
        Cause::Script {
            fault: ScriptFault::BadLine { line: 1 },
        },
    ),
    (
        "process a\nport p a echo\na close q\n",
        2,
        Cause::Script {
            fault: ScriptFault::UnknownName { line: 3 },
        },
    ),
    (
        "process a\n\nprocess a\n",
        2,
        Cause::Script {
            fault: ScriptFault::Repeated { line: 3 },
        },
    ),
    (
        "process a\nport p a echo\na die done\na close p\n",
        2,
        Cause::Script {
            fault: ScriptFault::BadLine { line: 4 },
        },
    ),
    (
        "process a\nport p a nosuch\n",
        5,
        Cause::NoDriver { line: 2, handed: 0 },
    ),
    (
        "process a\nport p a echo\nport q a echo\nport r a echo\nport s a tally\n",
        5,
        Cause::NoDriver { line: 4, handed: 2 },
    ),
    (
        "process a\nport p a echo\na file p 2 \"five\"\na file p 2 \"six\"\n",
        3,
        Cause::ReadFault { line: 4 },
    ),
    (
        "process a\nport p a digest\na file p 2 \"seven\"\n",
        3,
        Cause::ReadFault { line: 3 },
    ),
];

/// Whether the run ended so, put nothing out, and left the drivers standing so.
fn left(
    alloc: Global,
    ran: &Ran,
    status: u8,
    cause: Cause,
    drivers: &str,
) -> Result<bool, AllocError> {
    let stands = ran.stands(alloc, drivers)?;
    Ok(stands && ran.ended_silently(status, cause))
}

/// Whether a call of these words over this script ends so, puts nothing out, and touches no driver.
fn is_unmade<R: Sync + Threads + Wait>(
    rt: &R,
    alloc: Global,
    words: &[&str],
    script: &str,
    status: u8,
    cause: Cause,
) -> Result<bool, Fail> {
    let ran = run_script(rt, alloc, words, script.as_bytes())?;
    Ok(left(alloc, &ran, status, cause, UNTOUCHED)?)
}

#[test]
fn scripts_that_are_not_run_tell_why(rt: HostRuntime) -> Result<(), Fail> {
    for (script, status, cause) in NOT_RUN.as_slice() {
        let words = ["run", "s"];
        let unmade = is_unmade(&rt, rt.alloc(), &words, script, *status, *cause)?;
        is_so(&rt, unmade, script);
    }
    Ok(())
}

/// Words that aren't served, and the place that is told.
const UNSERVED: [(&[&str], u32); 13] = [
    (&[], 1),
    (&["walk", "s"], 1),
    (&["run"], 2),
    (&["run", "-s"], 2),
    (&["run", "s", "0"], 3),
    (&["run", "s", "17"], 3),
    (&["run", "s", "4", "9"], 4),
    (&["run", "s", "4", "2", "t"], 5),
    (&["load"], 2),
    (&["load", "x"], 2),
    (&["load", "18446744073709551616"], 2),
    (&["load", "7", "17"], 3),
    (&["load", "7", "4", "2", "t"], 5),
];

/// Whether these words aren't served, by the word in this place.
fn is_unserved<R: Sync + Threads + Wait>(
    rt: &R,
    alloc: Global,
    words: &[&str],
    at: u32,
) -> Result<bool, Fail> {
    is_unmade(rt, alloc, words, ABC, 1, Cause::Usage { at })
}

/// Ends the test where these words are served, or the place is another.
fn told<R: Abort>(rt: &R, unserved: bool, words: &[&str]) {
    assert!(rt; unserved, "{words:?}");
}

#[test]
fn words_that_are_not_served_are_told_by_place(rt: HostRuntime) -> Result<(), Fail> {
    for (words, at) in UNSERVED.as_slice() {
        let unserved = is_unserved(&rt, rt.alloc(), words, *at)?;
        told(&rt, unserved, words);
    }
    Ok(())
}

/// Why a script isn't read.
const UNREAD: Cause = Cause::ReadFault { line: 0 };

/// These files, where their second read fails.
fn with_one_read(files: MemFiles) -> Result<MemFiles, Fail> {
    let mut files = files;
    files.fail_read(1)?;
    Ok(files)
}

/// Runs the script of this name, ends the test where it is read, and gives the files back.
fn run_unread<R: Abort + Sync + Threads + Wait>(
    rt: &R,
    alloc: Global,
    name: &str,
    files: MemFiles,
) -> Result<MemFiles, Fail> {
    let ran = run(rt, alloc, &["run", name], Setting::over(alloc, files))?;
    is_so(rt, ran.ended_silently(3, UNREAD), name);
    Ok(ran.into_files())
}

#[test]
fn a_script_that_is_not_read_is_a_read_fault(rt: HostRuntime) -> Result<(), Fail> {
    let files = holding(rt.alloc(), ABC.as_bytes())?;
    let files = run_unread(&rt, rt.alloc(), "t", files)?;
    let files = with_one_read(files)?;
    run_unread(&rt, rt.alloc(), "s", files)?;
    Ok(())
}

/// A script of so many empty lines.
fn lines(alloc: Global, count: usize) -> Result<Vec<u8>, AllocError> {
    Ok(vec![in alloc; b'\n'; count]?)
}

/// A script of so many processes.
fn processes(alloc: Global, count: u32) -> Result<String, Fail> {
    let mut script = String::new(alloc);
    for number in 0..count {
        write!(script, "process a{number}\n")?;
    }
    Ok(script)
}

/// Whether a run of this script ends so, and puts nothing out.
fn ends_silently<R: Sync + Threads + Wait>(
    rt: &R,
    alloc: Global,
    script: &[u8],
    status: u8,
    cause: Cause,
) -> Result<bool, Fail> {
    let ran = run_script(rt, alloc, &["run", "s"], script)?;
    Ok(ran.ended_silently(status, cause))
}

/// Whether a script of so many lines has too many bytes.
fn is_too_long<R: Sync + Threads + Wait>(
    rt: &R,
    alloc: Global,
    count: usize,
) -> Result<bool, Fail> {
    let script = lines(alloc, count)?;
    ends_silently(rt, alloc, script.as_slice(), 10, Cause::Limit { line: 0 })
}

#[test]
fn a_script_has_at_most_1_048_576_bytes(rt: HostRuntime) -> Result<(), Fail> {
    assert!(rt; is_too_long(&rt, rt.alloc(), 1_048_577)?);
    assert!(rt; !is_too_long(&rt, rt.alloc(), 1_048_576)?);
    Ok(())
}

/// A script has a process too many.
const TOO_MANY: Cause = Cause::Script {
    fault: ScriptFault::Limit { line: 33, which: 1 },
};

/// Whether a script of so many processes has one too many.
fn is_crowded<R: Sync + Threads + Wait>(rt: &R, alloc: Global, count: u32) -> Result<bool, Fail> {
    let script = processes(alloc, count)?;
    ends_silently(rt, alloc, script.as_bytes(), 2, TOO_MANY)
}

#[test]
fn a_script_has_at_most_32_processes(rt: HostRuntime) -> Result<(), Fail> {
    assert!(rt; is_crowded(&rt, rt.alloc(), 33)?);
    assert!(rt; !is_crowded(&rt, rt.alloc(), 32)?);
    Ok(())
}

/// A script whose second port is refused.
const REFUSED: &[u8] = b"process a\nport p a echo\nport q a refuse2\n";

/// Why it isn't run.
const REFUSAL: Cause = Cause::StartRefused {
    line: 3,
    refusal: StartRefusal::Errno,
};

/// How its drivers are left.
const ONE_ENDED: &str = "stopped 0;fresh;fresh;fresh;fresh;fresh;fresh;stopped;fresh;fresh;";

#[test]
fn a_port_that_was_opened_is_ended_where_a_later_one_is_refused(
    rt: HostRuntime,
) -> Result<(), Fail> {
    let ran = run_script(&rt, rt.alloc(), &["run", "s"], REFUSED)?;
    assert!(rt; left(rt.alloc(), &ran, 6, REFUSAL, ONE_ENDED)?);
    Ok(())
}

/// A run of a script with a program whose first wait fails.
fn run_without_wait<R: Sync + Threads + Wait>(rt: &R, alloc: Global) -> Result<Ran, Fail> {
    let script = b"process a\nport c a spawn run \"first\"\na expect c 1\n";
    let setting = Setting::of_script(alloc, script)?.without_wait()?;
    run(rt, alloc, &["run", "s"], setting)
}

/// Ends the test where the run didn't end by a wait that failed.
fn is_lost<R: Abort>(rt: &R, ran: &Ran) {
    assert!(rt; ran.ended_silently(7, Cause::PollFault));
    assert!(rt; !ran.is_reported());
    assert!(rt; ran.has_poll());
}

#[test]
fn a_wait_that_fails_ends_the_run(rt: HostRuntime) -> Result<(), Fail> {
    let ran = run_without_wait(&rt, rt.alloc())?;
    is_lost(&rt, &ran);
    Ok(())
}
