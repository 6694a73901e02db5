//! The journals that runs write, judged by a replay.

use crate::outputs::SAVES;
use crate::reports::RUNS;
use crate::runs::{is_so, owned_words, run_script};
use outside::{MemFiles, MemSink};
use plain_command::plain_command;
use std::alloc::Global;
use std::process::Abort;
use std::sync::Wait;
use std::test::Fail;
use std::thread::Threads;

/// A script with a line before it that asks for a journal `j`.
fn journaled(alloc: Global, script: &str) -> Result<String, Fail> {
    let mut journaled = String::from_str(alloc, "journal \"j\"\n")?;
    journaled.push_str(script)?;
    Ok(journaled)
}

/// The status of a replay of the journal `j`, which puts its line to the sink.
fn replay(alloc: Global, files: &mut MemFiles, out: &mut MemSink) -> Result<u8, Fail> {
    let words = owned_words(alloc, &["replay", "j"])?;
    let plain = plain_command(alloc, words.as_slice(), files, out);
    Ok(plain.status)
}

/// Whether a replay tells the journal `j` to be legal, by a line with this front.
fn is_legal(alloc: Global, files: &mut MemFiles, front: &str) -> Result<bool, Fail> {
    let mut out = MemSink::new(alloc);
    let status = replay(alloc, files, &mut out)?;
    let text = str::from_utf8(out.bytes())?;
    Ok(status == 0 && text.starts_with(front))
}

/// Whether this script has a legal journal under so many schedulers, of which a replay prints a line with this front.
fn is_journaled<R: Sync + Threads + Wait>(
    rt: &R,
    alloc: Global,
    script: &str,
    schedulers: &str,
    front: &str,
) -> Result<bool, Fail> {
    let script = journaled(alloc, script)?;
    let ran = run_script(rt, alloc, &["run", "s", schedulers], script.as_bytes())?;
    let mut files = ran.into_files();
    is_legal(alloc, &mut files, front)
}

/// The front of the line of a replay of the journal of a run with so many ports, up to three.
const LEGAL: [&str; 4] = [
    "legal ports=0 rows=",
    "legal ports=1 rows=",
    "legal ports=2 rows=",
    "legal ports=3 rows=",
];

/// How many ports a script declares.
fn port_count(script: &str) -> usize {
    let mut count = 0usize;
    for line in script.lines() {
        if line.starts_with("port ") {
            count = count.saturating_add(1);
        }
    }
    count
}

/// The front of the line of a replay of the journal of this script.
fn legal_front(script: &str) -> &'static str {
    match LEGAL.get(port_count(script)) {
        Some(front) => front,
        None => "more ports than a script here has",
    }
}

/// Ends the test where one of the scripts has no legal journal of all its ports under so many schedulers.
fn are_journaled<R: Abort + Sync + Threads + Wait>(
    rt: &R,
    alloc: Global,
    schedulers: &str,
) -> Result<(), Fail> {
    for (script, _) in RUNS.as_slice() {
        let legal = is_journaled(rt, alloc, script, schedulers, legal_front(script))?;
        is_so(rt, legal, script);
    }
    Ok(())
}

#[test]
fn each_journal_of_a_run_is_legal(rt: HostRuntime) -> Result<(), Fail> {
    are_journaled(&rt, rt.alloc(), "1")?;
    are_journaled(&rt, rt.alloc(), "4")?;
    let legal = is_journaled(&rt, rt.alloc(), SAVES, "2", "legal ports=2 rows=")?;
    is_so(&rt, legal, SAVES);
    Ok(())
}
