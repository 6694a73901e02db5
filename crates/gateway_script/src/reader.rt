ghost use Rattle.std.specs.Prelude.{◌≡◌, Ok, OnOk, IfOk, IfErr};
ghost use Rattle.gateway_script.specs.Draft.{IsDraft, plan_of};
ghost use Rattle.gateway_script.specs.LineFault.{Tells};
ghost use Rattle.gateway_script.specs.Source.{EndsAt};
ghost use Rattle.script_plan.specs.Plan.{IsPlan};
ghost use Rattle.gateway_script.specs.Script.{script, with_line, IsFaultOf};

use crate::draft::Draft;
use crate::forms::statement_of;
use crate::line_fault::LineFault;
use crate::lines::{first_line, number_behind};
use crate::source::LineSource;
use script_plan::{Piece, Script, ScriptFault};
use std::alloc::Global;

/// The script that the text spells, or else the first faulty line, counted from 1, with the least fault in it by the order
/// of `ScriptFault`.
///
/// A line ends with byte 10, which the last one may lack, and has bytes 32 to 126. Empty lines and lines that begin with `#`
/// say nothing. In every other line one or more spaces stand between two words, and none before the first or behind the
/// last. It has one of these forms:
///
/// - `process NAME`
/// - `port NAME PROCESS DRIVER OPTIONS`, where OPTIONS are none or more, in any order: `msgq LOW HIGH` or `msgq off` for every
///   driver, and for the driver `spawn` alone `run TEXT`, `stream`, `packet N`, `line L`, `eof`, `exit_status` and `busy LOW HIGH`
/// - `journal TEXT`
/// - `save PROCESS PORT TEXT`
/// - `PROCESS command PORT IOLIST HOW`, where HOW is nothing, `force`, `nosuspend` or `force nosuspend`
/// - `PROCESS file PORT SIZE TEXT HOW`
/// - `PROCESS send PORT IOLIST`
/// - `PROCESS control PORT OP TEXT` or `PROCESS call PORT OP TERM`
/// - `PROCESS KIND PORT`, where KIND is `close`, `sendclose`, `link`, `unlink`, `monitor` or `demonitor`
/// - `PROCESS connect PORT PROCESS` or `PROCESS sendconnect PORT PROCESS`
/// - `PROCESS exit PORT REASON`
/// - `PROCESS expect PORT COUNT` or `PROCESS bytes PORT COUNT`
/// - `PROCESS die REASON`
///
/// NAME, PROCESS, PORT, DRIVER and REASON are a letter a to z, followed by up to 15 letters a to z, digits or `_`. LOW, HIGH, N,
/// L, SIZE, OP and COUNT are NUMBERs: LOW and HIGH from 1 to 1,073,741,824, L and SIZE from 1 to 262,143, N is 1, 2 or 4, and OP is
/// below 2^32. NUMBER, TEXT, IOLIST and TERM are those of `script_text`. The TEXT of `file`, `journal` and `save` names a file and is
/// UTF-8. `process`, `port`, `journal` and `save` can't be declared. DRIVER is the name of a known kind or not.
///
/// What a line names is declared above it, and a name is declared once, for a process or for a port. `msgq` stands once among the
/// options of a port, and so does each other option; `stream`, `packet` and `line` are one. A low limit above its high limit is
/// taken as the high limit. There is one journal at most, what a process gets from a port is saved once at most, and these are
/// all written to different files. `demonitor` ends the oldest monitor that the process has of the port. A process makes no step
/// after its `die`.
///
/// The bytes of an IOLIST are those of its parts from left to right, and those of a TERM its external form. The data of a TEXT without
/// escapes isn't copied: it shares the memory of the text.
pub fn read_script(alloc: Global, text: &Piece) -> Result<Script, ScriptFault>
    ensures ok { IfOk result (λ s. script text.now ≡ Ok s) }
    // What the script names by a number is there, and its numbers lie in their ranges.
    ensures plan { IfOk result IsPlan }
    ensures fault { IfErr result (λ f. IsFaultOf (script text.now) f) }
{
    let mut draft = Draft::for_text(alloc, text)?;
    let mut number = 0;
    let mut left = Some(text.as_slice());
    while let Some(lines) = left {
        number = number_behind(number)?;
        let (line, rest) = first_line(lines);
        let source = LineSource {
            text,
            end: text.len() - lines.len() + line.len(),
        };
        if let Err(fault) = take_line(alloc, &mut draft, source, number, line) {
            return Err(fault.at(number));
        }
        left = rest;
    }
    Ok(draft.into_script())
}

/// Takes in the line of this number.
#[tactic(auto, unfolding(crate::specs::Script::with_line))]
fn take_line(
    alloc: Global,
    draft: &mut Draft,
    source: LineSource<'_>,
    number: u32,
    line: &[u8],
) -> Result<(), LineFault>
    requires draft { IsDraft draft.old }
    requires ends { EndsAt source.text.now source.end line.now }
    ensures draft { OnOk result (IsDraft draft.new) }
    ensures ok { OnOk result (with_line (plan_of draft.old) (record { number = number; bytes = line.now }) ≡ Ok (plan_of draft.new)) }
    ensures fault { IfErr result (λ f. Tells (with_line (plan_of draft.old) (record { number = number; bytes = line.now })) f) }
{
    let statement = statement_of(alloc, source, line)?;
    draft.take_in(alloc, number, statement)
}
