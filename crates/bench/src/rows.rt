//! The rows that are printed.
use crate::work::{WORKS, Work, time_of};
use anyhow::Result;
use std::io;
use std::rt::Clock;

/// Prints the rows of every work.
pub(crate) fn print_all<R: Clock + AllocGlobal + Print>(rt: &R) -> Result<()> {
    for work in WORKS {
        print_rows(rt, work, work.parts())?;
    }
    Ok(())
}

/// Prints the rows of a work with so many parts, with twice and with four times as many.
pub(crate) fn print_rows<R: Clock + AllocGlobal + Print>(
    rt: &R,
    work: Work,
    parts: u32,
) -> Result<()> {
    let mut before = None;
    for times in [1, 2, 4] {
        let parts = parts.saturating_mul(times).max(1);
        let time = time_of(rt, work, parts)?.as_nanos();
        print_time(rt, work, parts, time)?;
        print_growth(rt, growth(time, before))?;
        before = Some(time);
    }
    Ok(())
}

/// Prints the name of a work, the number of its parts, the microseconds that they took, and the nanoseconds of each.
fn print_time<R: Print>(rt: &R, work: Work, parts: u32, time: u128) -> io::Result<()> {
    let each = time / u128::from(parts.max(1));
    let micros = time / 1000;
    print!(rt; "{} {parts} {micros} {each} ", work.name())
}

/// How it grew since a row before that took some time, in percent of that.
fn growth(time: u128, before: Option<u128>) -> Option<u128> {
    match before {
        Some(shorter) if shorter > 0 => Some(time.saturating_mul(100) / shorter),
        _ => None,
    }
}

/// Prints how it grew, and ends the row.
fn print_growth<R: Print>(rt: &R, growth: Option<u128>) -> io::Result<()> {
    match growth {
        Some(percent) => println!(rt; "{percent}"),
        None => println!(rt; "-"),
    }
}
