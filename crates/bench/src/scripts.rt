//! Scripts that are read.
use anyhow::Result;
use gateway_script::{Piece, read_script};
use std::alloc::Global;
use std::rt::Clock;
use std::time::{Duration, Instant};

/// How many processes a script of all kinds of steps has, and how many ports.
const NAMED: u32 = 32;

/// How many processes a script of commands has.
const SENDERS: u32 = 8;

/// How many ports a script of commands has.
const RECEIVERS: u32 = 4;

/// The 33 bytes of a command.
const DATA: &str = "abcdefghijklmnopqrstuvwxyz0123456";

/// The steps of a process at a port, each as the words before and behind the port.
const STEPS: [(&str, &str); 14] = [
    ("monitor", ""),
    ("command", " \"abcdefgh\""),
    ("send", " [1, \"bcd\", [2, 255]]"),
    ("control", " 7 \"on\\n\""),
    ("call", " 4096 {set, <<\"key\">>, [1, -2]}"),
    ("link", ""),
    ("connect", " worker_0"),
    ("monitor", ""),
    ("sendconnect", " worker_31"),
    ("demonitor", ""),
    ("unlink", ""),
    ("exit", " normal"),
    ("sendclose", ""),
    ("close", ""),
];

/// A script of about so many bytes: declarations, rounds of steps, and the end of each process.
fn script_text(alloc: Global, size: usize) -> Result<String> {
    let mut text = String::new(alloc);
    declare(&mut text)?;
    for round in 0..u32::MAX {
        if text.len() >= size {
            break;
        }
        write_round(&mut text, round)?;
    }
    for process in 0..NAMED {
        writeln!(text, "worker_{process} die normal")?;
    }
    Ok(text)
}

/// Declares the processes, and a port of each.
fn declare(text: &mut String) -> Result<()> {
    for process in 0..NAMED {
        writeln!(text, "process worker_{process}")?;
    }
    for port in 0..NAMED {
        writeln!(text, "port port_{port} worker_{port} echo")?;
    }
    Ok(())
}

/// Writes the steps of one process at one port. Each pair of them comes once in 1,024 rounds.
fn write_round(text: &mut String, round: u32) -> Result<()> {
    let process = round % NAMED;
    let port = (process + round / NAMED) % NAMED;
    for step in STEPS {
        write_step(text, process, port, step)?;
    }
    Ok(())
}

fn write_step(text: &mut String, process: u32, port: u32, step: (&str, &str)) -> Result<()> {
    let (before, behind) = step;
    writeln!(text, "worker_{process} {before} port_{port}{behind}")?;
    Ok(())
}

/// A script of about so many bytes: declarations and commands, in which the processes and the ports take turns.
fn commands_text(alloc: Global, size: usize) -> Result<String> {
    let mut text = String::new(alloc);
    declare_senders(&mut text)?;
    for number in 0..u32::MAX {
        if text.len() >= size {
            break;
        }
        write_command(&mut text, number % SENDERS, number % RECEIVERS)?;
    }
    Ok(text)
}

/// Declares the processes and the ports of a script of commands.
fn declare_senders(text: &mut String) -> Result<()> {
    for process in 0..SENDERS {
        writeln!(text, "process p{process}")?;
    }
    for port in 0..RECEIVERS {
        writeln!(text, "port q{port} p{port} echo")?;
    }
    Ok(())
}

fn write_command(text: &mut String, process: u32, port: u32) -> Result<()> {
    writeln!(text, "p{process} command q{port} \"{DATA}\"")?;
    Ok(())
}

/// How long it takes to read a script of about so many bytes in all kinds of steps.
pub(crate) fn script_time<R: Clock + AllocGlobal>(rt: &R, size: u32) -> Result<Duration> {
    read_time(rt, script_text(rt.alloc(), size as usize)?)
}

/// How long it takes to read a script of about so many bytes in commands.
pub(crate) fn commands_time<R: Clock + AllocGlobal>(rt: &R, size: u32) -> Result<Duration> {
    read_time(rt, commands_text(rt.alloc(), size as usize)?)
}

fn read_time<R: Clock + AllocGlobal>(rt: &R, text: String) -> Result<Duration> {
    let text = Piece::of_vec(text.into_bytes())?;
    let start = Instant::now(rt)?;
    let _script = read_script(rt.alloc(), &text)?;
    Ok(start.elapsed(rt)?)
}
