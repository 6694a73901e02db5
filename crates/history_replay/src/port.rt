//! The verdict on one port.
ghost use Rattle.std.specs.Prelude.{◌≡◌, true, IfOk};
ghost use Rattle.journal_text.specs.Ports.{is_report};
ghost use Rattle.history_replay.specs.Verdicts.{IsVerdict};

use crate::walk::Walk;
use history_driver::DriverKind;
use journal_text::PortReport;
use port_model::NoMemory;
use std::alloc::Global;

/// Where a history first breaks a law: the row, from 0, and the least law that it breaks there, from 1. A law that only the end breaks is
/// told at the number of rows.
#[derive(Clone, Copy, Debug, PartialEq, Eq)]
pub struct BrokenLaw {
    pub row: u64,
    pub law: u32,
}

/// Where the history of this port, the one of this number from 0 among so many processes, first breaks a law, if it does.
pub fn first_broken(
    alloc: Global,
    number: u32,
    processes: u32,
    report: &PortReport,
) -> Result<Option<BrokenLaw>, NoMemory>
    requires { is_report processes report.now ≡ true }
    ensures { IfOk result (IsVerdict number processes report.now) }
{
    let Some(kind) = DriverKind::named(&report.driver) else {
        unreachable!();
    };
    let mut walk = Walk::start(alloc, kind, processes, report)?;
    let rows = report.journal.rows.as_slice();
    if let Some(broken) = walk.take_all(alloc, rows)? {
        return Ok(Some(broken));
    }
    let Some(law) = walk.broken_by_end() else {
        return Ok(None);
    };
    let row = rows.len() as u64;
    Ok(Some(BrokenLaw { row, law }))
}
