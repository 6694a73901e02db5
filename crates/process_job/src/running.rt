// The steps of a process, one after another.
ghost use Rattle.std.specs.Prelude.{◌≡◌, ℕ, ◌<◌, length, IfOk};
ghost use Rattle.process_job.specs.Actions.{ActionWithin, asks_by, EndedWait};
ghost use Rattle.process_job.specs.Going.{state};
ghost use Rattle.process_job.specs.Jobs.{AreAmong, AreWithin};
ghost use Rattle.process_job.specs.Seats.{HasPorts, SeatsAfter};
ghost use Rattle.process_job.specs.Steps.{HasMadeSteps, HasTakenNone, MakesCallsOf};

use crate::action::{StepAction, action_of, content_for};
use crate::calling::{payload_of, send_command, send_file, send_signal};
use crate::halt::Halt;
use crate::log::MailLog;
use crate::seats::ProcessSeats;
use crate::waiting::wait_for_data;
use port_model::{Piece, Reason};
use port_sched::PortBody;
use process_end::Proc;
use script_plan::Step;
use std::alloc::Global;
use std::collections::VecDeque;
use std::sync::Wait;

/// Makes the calls of a step, and waits for what it waits for.
fn act<B: PortBody, R: Wait>(
    rt: &R,
    alloc: Global,
    seats: &mut ProcessSeats<B>,
    log: &mut MailLog,
    proc: Proc,
    action: StepAction,
) -> Result<Proc, Halt>
    requires ports { HasPorts seats.old proc }
    requires within { (processes : ℕ) × AreAmong processes proc.lanes × ActionWithin processes (length proc.lanes) action }
    ensures seats { SeatsAfter result seats.old seats.new }
    ensures calls { IfOk result (λ new. MakesCallsOf (asks_by action) (state proc log.old) (state new log.new)) }
    ensures waited { IfOk result (λ new. EndedWait action log.new new.seats) }
{
    let mut proc = proc;
    match action {
        StepAction::Command { form, bytes } => {
            let payload = payload_of(alloc, bytes);
            Ok(send_command(rt, seats, log, proc, form, payload)?.proc)
        }
        StepAction::File(file) => send_file(rt, alloc, seats, log, proc, file),
        StepAction::Signal(call) => {
            send_signal(rt, seats, log, &mut proc, call)?;
            Ok(proc)
        }
        StepAction::Wait { port, wanted } => {
            wait_for_data(rt, &mut seats.over, log, &mut proc, port, wanted)?;
            Ok(proc)
        }
    }
}

/// The steps of a process, and the contents of the files that they send.
#[derive(Drop)]
pub(crate) struct StepsToMake {
    pub steps: VecDeque<Step>,
    pub files: VecDeque<Piece>,
}

/// Makes the steps of a process, up to the one that ends it. Answers the reason of its end. Where there is no port, there is no step that takes mail.
pub(crate) fn make_steps<B: PortBody, R: Wait>(
    rt: &R,
    alloc: Global,
    seats: &mut ProcessSeats<B>,
    log: &mut MailLog,
    proc: Proc,
    own_steps: StepsToMake,
) -> Result<(Proc, Reason), Halt>
    requires ports { HasPorts seats.old proc }
    requires within { (processes : ℕ) × AreAmong processes proc.lanes × AreWithin processes (length proc.lanes) own_steps.steps.items }
    ensures seats { SeatsAfter result seats.old seats.new }
    ensures made { IfOk result (λ r. HasMadeSteps own_steps.steps.items own_steps.files.items (state proc log.old) (state r.0 log.new) r.1) }
    ensures silent { IfOk result (λ r. length proc.lanes ≡ 0 → HasTakenNone proc.mailbox log.old r.0.mailbox log.new) }
{
    let StepsToMake {
        mut steps,
        mut files,
    } = own_steps;
    let mut sender = proc;
    'steps: while let Some(step) = steps.pop_front() {
        let content = content_for(&step.act, &mut files);
        match action_of(step.line, step.act, content) {
            Ok(action) => sender = act(rt, alloc, seats, log, sender, action)?,
            Err(reason) => return Ok((sender, reason)),
        }
    }
    Ok((sender, Reason::normal()))
}
