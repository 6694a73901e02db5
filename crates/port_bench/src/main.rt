//! Times ports: the bodies of ports on one thread, and schedulers under a load. `port_bench NAME N` makes the work of that name with N commands and with
//! eight times as many, and prints a row for each: its name, the number of commands, the microseconds that it took, the nanoseconds for each command, and how
//! it grew, in percent of the row before. `port_bench NAME` takes the number of commands that the work has of itself.
//!
//! `port_bench schedulers N` lets 4 jobs put N commands for 32 ports, under 1, 2 and 4 schedulers. Behind its five words each row has how many turns
//! began with a ticket, how many tickets were stolen, their share of those turns in percent, and how many turns of idle ports were made beside them.
//! `port_bench schedulers_idle MILLIS` lets 4 schedulers wait for a job that does nothing for so long, and prints how many microseconds that took, how many of processor
//! time, and how many turns of idle ports. `port_bench all` does all of it. With no word each work is made once with a few commands, and no time is printed.
#![tactic(auto)]

ghost use Rattle.std.specs.Prelude.{◌<◌, ◌≤◌};

mod bodies;
mod crew;
mod loads;
mod opening;
mod peers;
mod rows;
mod work;

use crate::loads::{load_of, timed_run};
use crate::rows::{SCHEDULERS, print_idle, print_rows, print_schedulers, print_works};
use crate::work::{BodyWork, WORKS};
use anyhow::{Context, Result, bail};
use std::env::{self, Env};
use std::io;
use std::rt::Clock;
use std::sync::Wait;
use std::thread::Threads;
use std::time::CpuClock;

/// How many commands a work has that is only tried.
const FEW: u32 = 128;

/// How many commands the jobs put that are timed.
const COMMANDS: u32 = 131_072;

/// For how many milliseconds idle schedulers wait.
const IDLE: u32 = 5_000;

fn main(rt: HostRuntime) -> Result<()> {
    let (name, count) = words(&rt)?;
    let count = number(&count)?;
    match &name {
        Some(name) => make(&rt, name.as_str(), count),
        None => try_all(&rt),
    }
}

/// The first two words behind the program's name.
fn words<R: AllocGlobal + Env>(rt: &R) -> io::Result<(Option<String>, Option<String>)> {
    let mut words = env::args(rt)?;
    let name = words.nth(1);
    let count = words.next();
    Ok((name, count))
}

/// The number that a word tells, if there is one.
fn number(word: &Option<String>) -> Result<Option<u32>> {
    match word {
        Some(text) => Ok(Some(text.as_str().parse::<u32>().context("a number")?)),
        None => Ok(None),
    }
}

/// Makes each work once with a few commands.
fn try_all<R: Clock + CpuClock + AllocGlobal + Print + Wait + Threads + Sync>(
    rt: &R,
) -> Result<()> {
    for work in WORKS {
        try_work(rt, work)?;
    }
    for schedulers in SCHEDULERS {
        try_load(rt, schedulers)?;
    }
    Ok(())
}

fn try_work<R: Clock + AllocGlobal + Print + Wait>(rt: &R, work: BodyWork) -> Result<()> {
    work.make(rt, FEW)?;
    println!(rt; "{}: {FEW} made", work.name())?;
    Ok(())
}

fn try_load<R: Clock + CpuClock + AllocGlobal + Print + Wait + Threads + Sync>(
    rt: &R,
    schedulers: u32,
) -> Result<()>
    requires { (0 < schedulers) × (schedulers ≤ 16) }
{
    timed_run(rt, load_of(schedulers, FEW))?;
    println!(rt; "schedulers_{schedulers}: {FEW} made")?;
    Ok(())
}

/// Makes the work of this name, or all, and prints the rows.
fn make<R: Clock + CpuClock + AllocGlobal + Print + Wait + Threads + Sync>(
    rt: &R,
    name: &str,
    count: Option<u32>,
) -> Result<()> {
    match name {
        "schedulers" => print_schedulers(rt, count.unwrap_or(COMMANDS)),
        "schedulers_idle" => print_idle(rt, count.unwrap_or(IDLE)),
        "all" => {
            print_works(rt)?;
            print_schedulers(rt, COMMANDS)?;
            print_idle(rt, IDLE)
        }
        _ => {
            let work = work_named(name)?;
            print_rows(rt, work, count.unwrap_or(work.commands()))
        }
    }
}

/// The work on one port that has this name.
fn work_named(name: &str) -> Result<BodyWork> {
    for work in WORKS {
        if work.name() == name {
            return Ok(work);
        }
    }
    bail!("no work has this name")
}
