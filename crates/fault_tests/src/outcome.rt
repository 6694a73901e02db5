//! What a run comes to: how it ended, and what it left outside.

use gateway::{CallEnd, Cause, Hosted};
use outside::{MemFiles, MemPoll, MemSink};
use port_driver::Life;
use std::test::Fail;

/// Why the port of the program closed, as the report tells it.
#[derive(Clone, Copy, PartialEq)]
pub enum ReportedEnd {
    Normal,
    Eio,
}

/// What a run comes to whose poll set and drivers all came back.
#[derive(Clone, Copy, PartialEq)]
pub struct RunOutcome {
    pub status: u8,
    pub cause: Cause,
    pub is_reported: bool,
    /// How many of the bytes `xyz` were saved, where a file was written.
    pub saved: Option<usize>,
    /// Whether the status of the program was sent, where a journal was written.
    pub status_sent: Option<bool>,
    /// The end of the port, where a report was put.
    pub end: Option<ReportedEnd>,
    /// How the driver of the program came back.
    pub program: Life,
}

impl RunOutcome {
    /// A run that wrote nothing.
    pub fn without_output(status: u8, cause: Cause, program: Life) -> RunOutcome {
        RunOutcome {
            status,
            cause,
            is_reported: false,
            saved: None,
            status_sent: None,
            end: None,
            program,
        }
    }

    /// A run whose port closed `eio` once so many bytes had come.
    pub fn with_eio(saved: usize) -> RunOutcome {
        RunOutcome {
            status: 0,
            cause: Cause::Done,
            is_reported: true,
            saved: Some(saved),
            status_sent: Some(false),
            end: Some(ReportedEnd::Eio),
            program: Life::Stopped,
        }
    }

    /// A run that was made, of whose output only so much was written.
    pub fn cut(saved: Option<usize>, status_sent: Option<bool>) -> RunOutcome {
        RunOutcome {
            status: 4,
            cause: Cause::WriteFault,
            is_reported: true,
            saved,
            status_sent,
            end: None,
            program: Life::Stopped,
        }
    }
}

/// How many of the bytes `xyz` these are.
fn count_of(bytes: &[u8]) -> Result<usize, Fail> {
    for front in &["", "xy", "xyz"] {
        if front.as_bytes() == bytes {
            return Ok(front.len());
        }
    }
    Err("other bytes were saved".into())
}

/// How many of the bytes `xyz` were saved, where a file was written.
fn saved(files: &MemFiles) -> Result<Option<usize>, Fail> {
    match files.held("saved") {
        None => Ok(None),
        Some(bytes) => Ok(Some(count_of(bytes)?)),
    }
}

/// Whether the status of the program was sent, where a journal was written.
fn status_sent(files: &MemFiles) -> Result<Option<bool>, Fail> {
    match files.held("j") {
        None => Ok(None),
        Some(journal) => Ok(Some(str::from_utf8(journal)?.contains("xstatus 3"))),
    }
}

/// The end that a report tells of its port, where one was put.
fn port_end(out: &MemSink) -> Result<Option<ReportedEnd>, Fail> {
    let report = str::from_utf8(out.bytes())?;
    if report.is_empty() {
        return Ok(None);
    }
    if report.contains(" end=normal\n") {
        return Ok(Some(ReportedEnd::Normal));
    }
    if report.contains(" end=eio\n") {
        return Ok(Some(ReportedEnd::Eio));
    }
    Err("the port has another end".into())
}

/// How the driver in this place came back.
fn life_at(drivers: &[Hosted], place: usize) -> Option<Life> {
    match drivers.get(place) {
        Some(
            Hosted {
                driver: Some(driver),
                ..
            },
        ) => Some(driver.life()),
        _ => None,
    }
}

/// Whether all drivers came back, and the one without a port as it was handed in.
fn are_back(drivers: &[Hosted]) -> bool {
    drivers.len() == 4
        && drivers.iter().all(|host| host.driver.is_some())
        && life_at(drivers, 1) == Some(Life::Fresh)
}

/// How the driver of the program came back from a run that ended so, where all came back.
fn program_life(ended: &CallEnd<MemPoll>) -> Result<Life, Fail> {
    if ended.poll.is_none() {
        return Err("the poll set is gone".into());
    }
    if !are_back(ended.drivers.as_slice()) {
        return Err("a driver is gone, or one without a port was started".into());
    }
    match life_at(ended.drivers.as_slice(), 0) {
        Some(program) => Ok(program),
        None => Err("the driver of the program is gone".into()),
    }
}

/// What a run comes to that ended so, and left these files and this sink.
pub fn outcome_of(
    ended: &CallEnd<MemPoll>,
    files: &MemFiles,
    out: &MemSink,
) -> Result<RunOutcome, Fail> {
    let program = program_life(ended)?;
    Ok(RunOutcome {
        status: ended.status,
        cause: ended.cause,
        is_reported: ended.report.is_some(),
        saved: saved(files)?,
        status_sent: status_sent(files)?,
        end: port_end(out)?,
        program,
    })
}
