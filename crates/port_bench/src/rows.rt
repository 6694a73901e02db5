//! The rows that are printed.
ghost use Rattle.std.specs.Prelude.{◌<◌, ◌≤◌};

use crate::loads::{Timed, best_run, idle_load, load_of, timed_run};
use crate::work::{BodyWork, WORKS, time_of};
use anyhow::Result;
use sched_load::Turns;
use std::io;
use std::rt::Clock;
use std::sync::Wait;
use std::thread::Threads;
use std::time::CpuClock;

/// How many schedulers are timed.
pub(crate) const SCHEDULERS: [u32; 3] = [1, 2, 4];

/// How it grew since a row before that took some time, in percent of that.
fn growth(time: u128, before: Option<u128>) -> Option<u128> {
    match before {
        Some(shorter) if shorter > 0 => Some(time.saturating_mul(100) / shorter),
        _ => None,
    }
}

/// Prints a name, how many commands it was, how many microseconds they took, and how many nanoseconds each.
fn print_words<R: Print>(rt: &R, name: &str, commands: u32, time: u128) -> io::Result<()> {
    let each = time / u128::from(commands.max(1));
    let micros = time / 1000;
    print!(rt; "{name} {commands} {micros} {each} ")
}

/// Prints how it grew.
fn print_growth<R: Print>(rt: &R, growth: Option<u128>) -> io::Result<()> {
    match growth {
        Some(percent) => print!(rt; "{percent}"),
        None => print!(rt; "-"),
    }
}

/// Prints how many nanoseconds so many commands took, and how that grew since the row before.
fn print_time<R: Print>(
    rt: &R,
    name: &str,
    commands: u32,
    time: u128,
    before: Option<u128>,
) -> io::Result<()> {
    print_words(rt, name, commands, time)?;
    print_growth(rt, growth(time, before))
}

/// Prints such a row, and nothing behind it.
fn print_row<R: Print>(
    rt: &R,
    name: &str,
    commands: u32,
    time: u128,
    before: Option<u128>,
) -> io::Result<()> {
    print_time(rt, name, commands, time, before)?;
    println!(rt; "")
}

/// Prints the row of a work with so many commands, and answers its nanoseconds.
fn print_work<R: Clock + AllocGlobal + Print + Wait>(
    rt: &R,
    work: BodyWork,
    commands: u32,
    before: Option<u128>,
) -> Result<u128> {
    let time = time_of(rt, work, commands)?.as_nanos();
    print_row(rt, work.name(), commands, time, before)?;
    Ok(time)
}

/// Prints the rows of a work with so many commands, and with eight times as many.
pub(crate) fn print_rows<R: Clock + AllocGlobal + Print + Wait>(
    rt: &R,
    work: BodyWork,
    commands: u32,
) -> Result<()> {
    let time = print_work(rt, work, commands, None)?;
    print_work(rt, work, commands.saturating_mul(8), Some(time))?;
    Ok(())
}

/// Prints the rows of every work on one port.
pub(crate) fn print_works<R: Clock + AllocGlobal + Print + Wait>(rt: &R) -> Result<()> {
    for work in WORKS {
        print_rows(rt, work, work.commands())?;
    }
    Ok(())
}

/// What the row of so many schedulers is called.
fn load_name(schedulers: u32) -> &'static str {
    match schedulers {
        1 => "schedulers_1",
        2 => "schedulers_2",
        _ => "schedulers_4",
    }
}

/// Prints what turns were made.
fn print_turns<R: Print>(rt: &R, turns: Turns) -> io::Result<()> {
    let share = u128::from(turns.stolen) * 100 / u128::from(turns.queued.max(1));
    println!(rt; " {} {} {share} {}", turns.queued, turns.stolen, turns.idle)
}

/// Prints the row of so many schedulers, and answers its nanoseconds.
fn print_load<R: Clock + CpuClock + AllocGlobal + Print + Wait + Threads + Sync>(
    rt: &R,
    schedulers: u32,
    commands: u32,
    before: Option<u128>,
) -> Result<u128>
    requires { (0 < schedulers) × (schedulers ≤ 16) }
{
    let Timed { time, turns, .. } = best_run(rt, load_of(schedulers, commands))?;
    let time = time.as_nanos();
    print_time(rt, load_name(schedulers), commands, time, before)?;
    print_turns(rt, turns)?;
    Ok(time)
}

/// Prints a row for each number of schedulers: also how many turns began with a ticket, the stolen tickets and their share of those turns in percent, and
/// the turns of ports that were found idle.
pub(crate) fn print_schedulers<R: Clock + CpuClock + AllocGlobal + Print + Wait + Threads + Sync>(
    rt: &R,
    commands: u32,
) -> Result<()> {
    let mut before = None;
    for schedulers in SCHEDULERS {
        before = Some(print_load(rt, schedulers, commands, before)?);
    }
    Ok(())
}

/// Prints how many microseconds a run waited for so many milliseconds, how many of processor time it took, and how many turns of idle ports.
fn print_idle_row<R: Print>(rt: &R, millis: u32, run: Timed) -> io::Result<()> {
    println!(rt;
        "schedulers_idle {millis} {} {} {}",
        run.time.as_micros(),
        run.processors.as_micros(),
        run.turns.idle
    )
}

/// Prints how many microseconds 4 schedulers waited for a job that does nothing for so many milliseconds, how many of processor time they took for it, and
/// how many turns of idle ports they made.
pub(crate) fn print_idle<R: Clock + CpuClock + AllocGlobal + Print + Wait + Threads + Sync>(
    rt: &R,
    millis: u32,
) -> Result<()> {
    let run = timed_run(rt, idle_load(4, millis))?;
    print_idle_row(rt, millis, run)?;
    Ok(())
}
