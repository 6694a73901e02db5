//! Times bytes that go through a program of the machine. `program_bench N` sends N bytes through `cat`, then twice and four times as many, and prints
//! a row for each: its name, the number of bytes, the microseconds that it took, the nanoseconds for each byte, and how it grew, in percent of the row
//! before. With no word a few bytes go through, and no time is printed.
#![tactic(auto)]

mod passing;

use crate::passing::{READ, WRITE, cat_time};
use anyhow::{Context, Result, bail};
use outside::{PollSet, Spawner};
use outside_programs::{PipeServer, RealPoll, RealSpawner};
use std::env;
use std::time::Clock;

/// How many bytes go through where nothing is timed.
const FEW: u32 = 10;

fn main(rt: HostRuntime) -> Result<()> {
    let bytes = asked(rt)?;
    let alloc = rt.alloc();
    let Ok(mut poll) = RealPoll::new(alloc, rt, 2) else {
        bail!("no memory");
    };
    let Ok(pipes) = PipeServer::new(alloc, rt, &poll) else {
        bail!("no memory");
    };
    let Ok(mut spawner) = RealSpawner::new(rt, &pipes, READ, WRITE) else {
        bail!("no memory");
    };
    report(&rt, &mut spawner, &mut poll, bytes)
}

/// How many bytes the words of the call ask for.
fn asked(rt: HostRuntime) -> Result<Option<u32>> {
    let count = env::args(&rt)?.nth(1);
    match &count {
        Some(text) => Ok(Some(text.as_str().parse::<u32>().context("a number of bytes")?)),
        None => Ok(None),
    }
}

/// Prints the rows, or that a few bytes went through.
fn report<R: Clock + AllocGlobal + Print, S: Spawner, P: PollSet>(
    rt: &R,
    spawner: &mut S,
    poll: &mut P,
    bytes: Option<u32>,
) -> Result<()>
where
    S::Program: Drop,
{
    if let Some(bytes) = bytes {
        return print_rows(rt, spawner, poll, bytes);
    }
    cat_time(rt, spawner, poll, FEW)?;
    println!(rt; "program_cat: {FEW} made")?;
    Ok(())
}

/// Prints the rows of so many bytes, of twice and of four times as many.
fn print_rows<R: Clock + AllocGlobal + Print, S: Spawner, P: PollSet>(
    rt: &R,
    spawner: &mut S,
    poll: &mut P,
    bytes: u32,
) -> Result<()>
where
    S::Program: Drop,
{
    let mut before = None;
    for times in [1, 2, 4] {
        let bytes = bytes.saturating_mul(times).max(1);
        let time = cat_time(rt, spawner, poll, bytes)?.as_nanos();
        let each = time / u128::from(bytes);
        let micros = time / 1000;
        match before {
            Some(shorter) if shorter > 0 => {
                let percent = time.saturating_mul(100) / shorter;
                println!(rt; "program_cat {bytes} {micros} {each} {percent}")?;
            }
            _ => println!(rt; "program_cat {bytes} {micros} {each} -")?,
        }
        before = Some(time);
    }
    Ok(())
}
