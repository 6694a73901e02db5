ghost use Rattle.std.specs.Prelude.{◌≡◌, IfOk, string_bytes};
ghost use Rattle.run_report.specs.Cause.{HasText, IsOfDriver, IsOfScript, cause_text_of, fault_line_of, refusal_text, status_of};

use no_memory::NoMemory;
use port_driver::StartRefusal;
use script_plan::ScriptFault;
use std::alloc::Global;

/// Why a call of the program ended. Lines of the script count from 1, and 0 stands for the main input as a whole. Ports, rows and bytes
/// count from 0.
#[derive(Clone, Copy, Debug, PartialEq, Eq)]
pub enum Cause {
    /// The work was done, and what it tells was written.
    Done,
    /// The words aren't served. `at` is the first word at which no accepted list goes on, from 1, or the place after the last word.
    Usage { at: u32 },
    /// The text is not a script.
    Script { fault: ScriptFault },
    /// The main input, or what this line names, was not read.
    ReadFault { line: u32 },
    /// A text was not written.
    WriteFault,
    /// No unused driver has the name that this line gives. `handed` is how many drivers of that name were handed in.
    NoDriver { line: u32, handed: u64 },
    /// The driver of the port on this line refused to start. It isn't for want of memory.
    StartRefused { line: u32, refusal: StartRefusal },
    /// The readiness of events was not told.
    PollFault,
    /// No memory was found.
    NoMemory,
    /// The history of this port breaks a law first at this row, and this is the least law that it breaks there. A law that only the end of
    /// the history breaks is told at the number of rows.
    Illegal { port: u32, row: u64, law: u32 },
    /// The main input, or the files up to what this line names, are larger than is allowed.
    Limit { line: u32 },
    /// The text is not a journal: the first line that isn't in the grammar begins at this byte.
    JournalText { at: u64 },
}

impl Cause {
    /// The status with which the program ends.
    pub fn status(&self) -> u8
        ensures { result ≡ status_of self.now }
    {
        match self {
            Cause::Done => 0,
            Cause::Usage { .. } => 1,
            Cause::Script { .. } => 2,
            Cause::ReadFault { .. } => 3,
            Cause::WriteFault => 4,
            Cause::NoDriver { .. } => 5,
            Cause::StartRefused { .. } => 6,
            Cause::PollFault => 7,
            Cause::NoMemory => 8,
            Cause::Illegal { .. } => 9,
            Cause::Limit { .. } => 10,
            Cause::JournalText { .. } => 11,
        }
    }
}

/// What the program says of a cause: one line, ended with byte 10, and nothing where the work was done.
pub fn cause_text(alloc: Global, cause: &Cause) -> Result<Vec<u8>, NoMemory>
    requires { HasText cause.now }
    ensures { IfOk result (λ text. text.items ≡ cause_text_of cause.now) }
{
    let text = match cause {
        Cause::Done => String::new(alloc),
        Cause::Usage { at } => format!(in alloc; "gateway: usage at word {at}\n")?,
        Cause::Script { fault } => fault_line(alloc, fault)?,
        Cause::ReadFault { line } => format!(in alloc; "gateway: read fault at line {line}\n")?,
        Cause::WriteFault => format!(in alloc; "gateway: write fault\n")?,
        Cause::NoDriver { line, handed } => {
            format!(in alloc; "gateway: no driver for line {line}, handed {handed}\n")?
        }
        Cause::StartRefused { line, refusal } => {
            let refusal = refusal_text(*refusal);
            format!(in alloc; "gateway: start refused at line {line}: {refusal}\n")?
        }
        Cause::PollFault => format!(in alloc; "gateway: poll fault\n")?,
        Cause::NoMemory => format!(in alloc; "gateway: no memory\n")?,
        Cause::Illegal { port, row, law } => {
            format!(in alloc; "gateway: port {port} row {row} breaks law {law}\n")?
        }
        Cause::Limit { line } => format!(in alloc; "gateway: limit at line {line}\n")?,
        Cause::JournalText { at } => format!(in alloc; "gateway: journal text at byte {at}\n")?,
    };
    Ok(text.into_bytes())
}

/// The line of a fault of the script.
fn fault_line(alloc: Global, fault: &ScriptFault) -> Result<String, NoMemory>
    requires { IsOfScript fault.now }
    ensures { IfOk result (λ line. string_bytes line ≡ fault_line_of fault.now) }
{
    match fault {
        ScriptFault::BadLine { line } => Ok(format!(in alloc;
            "gateway: script line {line}: bad line\n"
        )?),
        ScriptFault::UnknownName { line } => Ok(format!(in alloc;
            "gateway: script line {line}: unknown name\n"
        )?),
        ScriptFault::Repeated { line } => Ok(format!(in alloc;
            "gateway: script line {line}: repeated\n"
        )?),
        ScriptFault::Limit { line, which } => Ok(format!(in alloc;
            "gateway: script line {line}: limit {which}\n"
        )?),
        ScriptFault::NoMemory => unreachable!(),
    }
}

fn refusal_text(refusal: StartRefusal) -> &'static str
    requires { IsOfDriver refusal }
    ensures { result.now ≡ refusal_text refusal }
{
    match refusal {
        StartRefusal::General => "general",
        StartRefusal::Errno => "errno",
        StartRefusal::Badarg => "badarg",
        StartRefusal::StartFault => "fault",
        StartRefusal::NoMemory => unreachable!(),
    }
}
