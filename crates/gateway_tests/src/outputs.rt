//! What runs write: the report, the data that is saved, and the journal.

use crate::runs::{ABC, Ran, Setting, is_so, run, run_script};
use gateway::Cause;
use std::alloc::Global;
use std::process::Abort;
use std::sync::Wait;
use std::test::Fail;
use std::thread::Threads;

/// The first driver served a port, and no other was touched.
const ONE_SERVED: &str = "stopped 0;fresh;fresh;fresh;fresh;fresh;fresh;fresh;fresh;fresh;";

/// Ends the test where the run wasn't made, or something didn't come back.
fn is_back<R: Abort>(rt: &R, ran: &Ran) {
    assert!(rt; ran.ended(0, Cause::Done));
    assert!(rt; ran.is_reported());
    assert!(rt; ran.has_poll());
}

#[test]
fn a_driver_comes_back_stopped_in_its_place(rt: HostRuntime) -> Result<(), Fail> {
    let ran = run_script(&rt, rt.alloc(), &["run", "s"], ABC.as_bytes())?;
    is_back(&rt, &ran);
    let stands = ran.stands(rt.alloc(), ONE_SERVED)?;
    is_so(&rt, stands, "the drivers stand otherwise");
    Ok(())
}

/// A script that saves the data of each of its two programs.
pub const SAVES: &str =
    "process a\nport c a spawn run \"first\"\nport d a spawn run \"second\" line 80 eof\n\
    save a d \"lines\"\nsave a c \"bytes\"\na command c \"abc\"\na expect c 1\na expect d 1\n";

/// Ends the test where the run wasn't made, or other data was saved.
fn is_saved<R: Abort>(rt: &R, ran: &Ran) {
    assert!(rt; ran.ended(0, Cause::Done));
    assert!(rt; ran.holds("lines", b"hi\n"));
    assert!(rt; ran.holds("bytes", b"xyz"));
}

#[test]
fn data_is_saved_by_port(rt: HostRuntime) -> Result<(), Fail> {
    let ran = run_script(&rt, rt.alloc(), &["run", "s", "2"], SAVES.as_bytes())?;
    is_saved(&rt, &ran);
    Ok(())
}

/// A script with a journal, each row of which is ordered by its process.
const JOURNAL: &str =
    "process a\njournal \"j\"\nport p a echo\na command p \"abc\"\na expect p 1\na die done\n";

/// The journal of that script.
const ROWS: &str = "journal 1\n\
    processes a\n\
    port p 0 echo msgq 4096 8192\n\
    h p0 0 command - 616263 ; ; data plain 616263\n\
    h p0 1 gone done ; ;\n\
    m closed\n\
    end\n";

#[test]
fn the_journal_tells_the_rows_of_each_port(rt: HostRuntime) -> Result<(), Fail> {
    let ran = run_script(&rt, rt.alloc(), &["run", "s"], JOURNAL.as_bytes())?;
    is_so(&rt, ran.holds("j", ROWS.as_bytes()), "other rows");
    Ok(())
}

/// A run of the script with a journal where the first put fails, once it took so many bytes.
fn run_with_failing_put<R: Sync + Threads + Wait>(
    rt: &R,
    alloc: Global,
    count: usize,
) -> Result<Ran, Fail> {
    let setting = Setting::of_script(alloc, JOURNAL.as_bytes())?.with_put_of(count)?;
    run(rt, alloc, &["run", "s"], setting)
}

/// Ends the test where the run didn't end by a put that failed behind this text.
fn is_unput<R: Abort>(rt: &R, ran: &Ran, written: &str) {
    assert!(rt; ran.ended(4, Cause::WriteFault));
    assert!(rt; ran.is_reported());
    assert!(rt; ran.put(written));
    assert!(rt; ran.has_file("j"));
}

/// How many bytes the put takes that fails, and those bytes.
const FAILING_PUTS: [(usize, &str); 2] = [(0, ""), (6, "report")];

#[test]
fn a_put_that_fails_is_a_write_fault_behind_the_files(rt: HostRuntime) -> Result<(), Fail> {
    for (count, written) in FAILING_PUTS.as_slice() {
        let ran = run_with_failing_put(&rt, rt.alloc(), *count)?;
        is_unput(&rt, &ran, written);
    }
    Ok(())
}

/// A run of the script that saves where the second write fails.
fn run_with_one_write<R: Sync + Threads + Wait>(rt: &R, alloc: Global) -> Result<Ran, Fail> {
    let setting = Setting::of_script(alloc, SAVES.as_bytes())?.with_one_write()?;
    run(rt, alloc, &["run", "s"], setting)
}

/// Ends the test where the run didn't end by a write that failed behind the first file.
fn is_unwritten<R: Abort>(rt: &R, ran: &Ran) {
    assert!(rt; ran.ended_silently(4, Cause::WriteFault));
    assert!(rt; ran.holds("lines", b"hi\n"));
    assert!(rt; !ran.has_file("bytes"));
}

#[test]
fn a_write_that_fails_is_a_write_fault_before_the_report(rt: HostRuntime) -> Result<(), Fail> {
    let ran = run_with_one_write(&rt, rt.alloc())?;
    is_unwritten(&rt, &ran);
    Ok(())
}
