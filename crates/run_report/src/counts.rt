ghost use Rattle.std.specs.Prelude.{◌≡◌, ◌+◌, IfOk, OnOk, None, is_some, unwrap_or, if◌then◌else◌};
ghost use Rattle.run_report.specs.Walks.{end_with};

use no_memory::NoMemory;
use port_model::Reason;

/// What the rows of a port come to.
#[derive(Drop)]
pub struct PortCounts {
    /// How many commands called the driver.
    pub commands: u64,
    /// How many commands came when they couldn't be handled any more.
    pub late: u64,
    /// How many bytes the commands that called the driver have together.
    pub bytes: u64,
    /// The reason that linked processes were told, once a row closed the port.
    pub end: Option<Reason>,
}

impl PortCounts {
    /// What no row comes to.
    pub(crate) fn new() -> PortCounts
        ensures { result ≡ record { commands = 0; late = 0; bytes = 0; end = None } }
    {
        PortCounts {
            commands: 0,
            late: 0,
            bytes: 0,
            end: None,
        }
    }

    /// Counts a command that called the driver with so many bytes, if one did.
    pub(crate) fn count_handled(&mut self, bytes: Option<u64>) -> Result<(), NoMemory>
        ensures { OnOk result (self.new ≡ record self.old { commands = self.old.commands + (if is_some bytes then 1 else 0); bytes = self.old.bytes + unwrap_or bytes 0 }) }
    {
        if let Some(bytes) = bytes {
            self.commands = checked_sum(self.commands, 1)?;
            self.bytes = checked_sum(self.bytes, bytes)?;
        }
        Ok(())
    }

    /// Counts a signal that came late, if it is a command.
    pub(crate) fn count_late(&mut self, is_command: bool) -> Result<(), NoMemory>
        ensures { OnOk result (self.new ≡ record self.old { late = self.old.late + (if is_command then 1 else 0) }) }
    {
        if is_command {
            self.late = checked_sum(self.late, 1)?;
        }
        Ok(())
    }

    /// Notes for which reason a row closes the port, if one does.
    pub(crate) fn note_end(&mut self, reason: &Option<Reason>)
        ensures { self.new ≡ record self.old { end = end_with reason.now self.old.end } }
    {
        if let Some(reason) = reason {
            self.end = Some(reason.told());
        }
    }
}

/// The sum. One that 64 bits don't hold is answered as want of memory.
pub(crate) fn checked_sum(a: u64, b: u64) -> Result<u64, NoMemory>
    ensures { IfOk result (λ sum. sum ≡ a + b) }
{
    a.checked_add(b).ok_or(NoMemory)
}
