//! Times parts of the project. `bench NAME N` makes the work of that name with N parts, with twice and with four times as many, and prints a row for
//! each: its name, the number of parts, the microseconds that it took, the nanoseconds for each part, and how it grew, in percent of the row
//! before. `bench NAME` takes the number of parts that the work has of itself, and `bench all` makes every work so. With no word each work is made
//! once with a few parts, and no time is printed.
#![tactic(auto)]

mod framing;
mod queues;
mod rows;
mod scripts;
mod terms;
mod vectors;
mod work;

use crate::rows::{print_all, print_rows};
use crate::work::{WORKS, Work, round_time};
use anyhow::{Context, Result, bail};
use std::env::{self, Env};
use std::io;
use std::rt::Clock;

/// How many parts a work has that is only tried.
const FEW: u32 = 10;

fn main(rt: HostRuntime) -> Result<()> {
    let (name, count) = words(&rt)?;
    match &name {
        Some(name) => make(&rt, name.as_str(), &count),
        None => try_all(&rt),
    }
}

/// The first two words behind the program's name.
fn words<R: AllocGlobal + Env>(rt: &R) -> io::Result<(Option<String>, Option<String>)> {
    let mut words = env::args(rt)?;
    let name = words.nth(1);
    let count = words.next();
    Ok((name, count))
}

/// Makes each work once with a few parts.
fn try_all<R: Clock + AllocGlobal + Print>(rt: &R) -> Result<()> {
    for work in WORKS {
        try_work(rt, work)?;
    }
    Ok(())
}

fn try_work<R: Clock + AllocGlobal + Print>(rt: &R, work: Work) -> Result<()> {
    round_time(rt, work, FEW)?;
    println!(rt; "{}: {FEW} made", work.name())?;
    Ok(())
}

/// Makes the work of this name, or each, and prints the rows.
fn make<R: Clock + AllocGlobal + Print>(rt: &R, name: &str, count: &Option<String>) -> Result<()> {
    if name == "all" {
        return print_all(rt);
    }
    let work = work_named(name)?;
    print_rows(rt, work, parts(work, count)?)
}

/// How many parts a work gets: as many as the word says, or as it has of itself.
fn parts(work: Work, count: &Option<String>) -> Result<u32> {
    match count {
        Some(text) => text.as_str().parse::<u32>().context("a number of parts"),
        None => Ok(work.parts()),
    }
}

/// The work of this name.
fn work_named(name: &str) -> Result<Work> {
    match WORKS.into_iter().find(|work| work.name() == name) {
        Some(work) => Ok(work),
        None => bail!("no work has this name"),
    }
}
