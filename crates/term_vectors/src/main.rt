//! Checks `encode` and `decode` against vectors: lines of a file that its argument names, or of standard input.
//!
//! An accepted form is a line of three columns with tabs between them: its bytes in hexadecimal, its term as text, and
//! `read` where the writer chooses another spelling of the term, and another word where it chooses this one. A refused
//! input is a line of two: its bytes, and its first fault. Empty lines, and lines that begin with `#`, say nothing.
#![tactic(auto)]

mod showing;
mod vectors;

use crate::vectors::{LineCounts, LineVerdict, check};
use anyhow::{Context, Result};
use std::process::ExitCode;
use std::rt::{Env, Files};
use std::{env, fs, io};

fn main(rt: HostRuntime) -> Result<ExitCode> {
    let text = input(&rt)?;
    let tally = run(&rt, text.as_str())?;
    println!(rt;
        "written {}, read {}, refused {}, wrong {}",
        tally.written, tally.read, tally.refused, tally.wrong
    )?;
    Ok(if tally.wrong == 0 {
        ExitCode::SUCCESS
    } else {
        ExitCode::FAILURE
    })
}

/// The text of the file that the argument names, or of standard input.
fn input<R: Env + Files + Input + AllocGlobal>(rt: &R) -> Result<String> {
    match env::args(rt)?.nth(1) {
        Some(path) => fs::read_to_string(rt, path.as_str()).context("reading the file"),
        None => io::read_to_string(rt.alloc(), rt.reader()).context("reading the input"),
    }
}

/// Checks each line, and prints those that are wrong.
fn run<R: Print + AllocGlobal>(rt: &R, text: &str) -> Result<LineCounts> {
    let mut tally = LineCounts::default();
    for (i, line) in text.lines().enumerate() {
        if line.is_empty() || line.starts_with('#') {
            continue;
        }
        let verdict = check(rt.alloc(), line)?;
        if let LineVerdict::Wrong(found) = &verdict {
            println!(rt; "line {}: {found}", i.saturating_add(1))?;
        }
        tally.count(&verdict);
    }
    Ok(tally)
}
