use gateway_script::{Act, Config, Mode, Piece, Script, ScriptFault, Step, read_script};
use std::alloc::{AllocError, Global};

/// The script in one line of text.
fn shown(alloc: Global, script: &Script) -> Result<String, AllocError> {
    let mut text = String::new(alloc);
    for process in script.processes() {
        write!(text, "{} process {};", process.line, process.name.as_str())?;
    }
    for port in script.ports() {
        let name = port.name.as_str();
        let driver = port.driver.as_str();
        write!(text, "{} port {name} {} {driver}", port.line, port.owner)?;
        show_config(alloc, &mut text, &port.config)?;
    }
    if let Some(name) = script.journal() {
        write!(text, "journal {name:?};")?;
    }
    for save in script.saves() {
        let name = save.file.as_str();
        write!(
            text,
            "{} save {} {} {name:?};",
            save.line, save.process, save.port
        )?;
    }
    show_steps(alloc, &mut text, script.steps())?;
    Ok(text)
}

/// What is set of the options, behind a space each.
fn show_config(alloc: Global, text: &mut String, config: &Config) -> Result<(), AllocError> {
    if !config.msgq_on {
        write!(text, " msgq off")?;
    }
    if config.msgq_low != 4096 || config.msgq_high != 8192 {
        write!(text, " msgq {} {}", config.msgq_low, config.msgq_high)?;
    }
    if !config.run.is_empty() {
        write!(text, " run {:?}", config.run.as_slice())?;
    }
    let mode = shown_mode(alloc, config.mode)?;
    write!(text, "{mode}")?;
    if config.eof {
        write!(text, " eof")?;
    }
    if config.exit_status {
        write!(text, " exit_status")?;
    }
    if config.busy_low != 4096 || config.busy_high != 8192 {
        write!(text, " busy {} {}", config.busy_low, config.busy_high)?;
    }
    write!(text, ";")
}

fn shown_mode(alloc: Global, mode: Mode) -> Result<String, AllocError> {
    match mode {
        Mode::Packet1 => format!(in alloc; " packet 1"),
        Mode::Packet2 => format!(in alloc; " packet 2"),
        Mode::Packet4 => format!(in alloc; " packet 4"),
        Mode::Line(limit) => format!(in alloc; " line {limit}"),
        Mode::Stream => format!(in alloc; ""),
    }
}

fn show_steps(alloc: Global, text: &mut String, steps: &[Step]) -> Result<(), AllocError> {
    for step in steps {
        let act = shown_act(alloc, &step.act)?;
        write!(text, "{} {} {act};", step.line, step.process)?;
    }
    Ok(())
}

fn shown_act(alloc: Global, act: &Act) -> Result<String, AllocError> {
    match act {
        Act::Command {
            port,
            bytes,
            force,
            nosuspend,
        } => {
            let bytes = bytes.as_slice();
            format!(in alloc; "command {port} {bytes:?} {force} {nosuspend}")
        }
        Act::File {
            port,
            size,
            file,
            force,
            nosuspend,
        } => {
            let name = file.as_str();
            format!(in alloc; "file {port} {size} {name:?} {force} {nosuspend}")
        }
        Act::Send { port, bytes } => format!(in alloc; "send {port} {:?}", bytes.as_slice()),
        Act::Control { port, op, bytes } => {
            format!(in alloc; "control {port} {op} {:?}", bytes.as_slice())
        }
        Act::Call { port, op, bytes } => {
            format!(in alloc; "call {port} {op} {:?}", bytes.as_slice())
        }
        _ => shown_bare(alloc, act),
    }
}

/// A step that carries no bytes.
fn shown_bare(alloc: Global, act: &Act) -> Result<String, AllocError> {
    match act {
        Act::Close(port) => format!(in alloc; "close {port}"),
        Act::Connect { port, to } => format!(in alloc; "connect {port} {to}"),
        Act::SendClose(port) => format!(in alloc; "sendclose {port}"),
        Act::SendConnect { port, to } => format!(in alloc; "sendconnect {port} {to}"),
        Act::Link(port) => format!(in alloc; "link {port}"),
        Act::Unlink(port) => format!(in alloc; "unlink {port}"),
        Act::Monitor { port, number } => format!(in alloc; "monitor {port} {number}"),
        Act::Demonitor { port, number } => format!(in alloc; "demonitor {port} {number}"),
        Act::Exit { port, reason } => format!(in alloc; "exit {port} {}", reason.as_str()),
        Act::Expect { port, count } => format!(in alloc; "expect {port} {count}"),
        Act::Bytes { port, count } => format!(in alloc; "bytes {port} {count}"),
        Act::Die(reason) => format!(in alloc; "die {}", reason.as_str()),
        _ => format!(in alloc; "bytes that aren't shown"),
    }
}

/// The script that the text spells.
pub fn script_of(alloc: Global, text: &str) -> Result<Script, ScriptFault> {
    read_script(alloc, &Piece::of_slice(alloc, text.as_bytes())?)
}

/// What the text reads as, or its fault.
fn outcome(alloc: Global, text: &str) -> Result<String, AllocError> {
    match script_of(alloc, text) {
        Ok(script) => shown(alloc, &script),
        Err(fault) => format!(in alloc; "{fault:?}"),
    }
}

/// The first text that reads as something else than what is wanted, with what it reads as. `before` stands before each text, and `read_before` before what is wanted.
pub fn first_wrong(
    alloc: Global,
    before: &str,
    read_before: &str,
    rows: &[(&str, &str)],
) -> Result<String, AllocError> {
    for (text, wanted) in rows {
        let text = format!(in alloc; "{before}{text}")?;
        let wanted = format!(in alloc; "{read_before}{wanted}")?;
        let read = outcome(alloc, text.as_str())?;
        if read.as_str() != wanted.as_str() {
            return format!(in alloc; "{text:?} reads as {read}");
        }
    }
    Ok(String::new(alloc))
}
