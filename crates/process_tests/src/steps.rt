// What a test does step by step with a process and its port.
use crate::rig::TakenTask;
use crate::sender::{PortSender, SendAnswer, Why};
use process_end::{How, Outcome, Receipt};
use std::process::Abort;
use std::sync::Wait;
use suspend_list::StopNote;

/// What a process with one port does or sees, and what has to come of it.
#[derive(Clone, Copy)]
pub(crate) enum ProcessStep {
    /// A command of this line, of so many bytes, answers this.
    Send(u32, usize, How, SendAnswer),
    /// Of so many links the last one answers this, and the others are accepted.
    Link(u32, SendAnswer),
    /// The process finds this STAT word.
    Look(u64),
    /// The port takes this task, or none.
    Take(Option<TakenTask>),
    /// The process ends, and this is its first receipt.
    FirstReceipt(Receipt),
    /// The process ends, and has receipts of so many calls.
    ReceiptCount(usize),
    Stopped(StopStep),
}

/// What a suspended process does or sees, and what has to come of it.
#[derive(Clone, Copy)]
pub(crate) enum StopStep {
    /// The command that suspended it has this note.
    Note(StopNote),
    /// The resume of the command of this number comes, with this word.
    Resume(u64, u64),
    /// It tries to go on, and waits on.
    Wait(Why),
    GoOn,
    /// It goes on, and takes the resume of the command of this number.
    TakeResume(u64),
}

/// Whether this is the first receipt of the process, which ends now.
fn begins<R: Wait>(rt: &R, sender: &mut PortSender, receipt: &Receipt) -> bool {
    matches!(&sender.end(rt), Some(end) if end.receipts.as_slice().first() == Some(receipt))
}

/// Whether there are so many receipts, the last call was accepted, and the first one that wasn't told that the process had made all its
/// calls.
fn are_all(receipts: &[Receipt], calls: usize) -> bool {
    let told = receipts.last().map(|receipt| receipt.outcome);
    let refused = receipts.get(131_072).map(|receipt| receipt.outcome);
    receipts.len() == calls && told == Some(Outcome::Accepted) && refused == Some(Outcome::SentOut)
}

/// Whether a process that ends now made all its calls, and so many.
fn makes<R: Wait>(rt: &R, sender: &mut PortSender, calls: usize) -> bool {
    matches!(&sender.end(rt), Some(end) if are_all(end.receipts.as_slice(), calls))
}

/// Whether a step of a suspended process goes so.
fn stop_goes<R: Wait>(rt: &R, sender: &mut PortSender, step: StopStep) -> bool {
    match step {
        StopStep::Note(note) => sender.note() == Some(note),
        StopStep::Resume(seq, word) => sender.puts_resume(rt, seq, word),
        StopStep::Wait(why) => sender.try_resume(rt) == Some(why),
        StopStep::GoOn => sender.goes_on(rt),
        StopStep::TakeResume(seq) => sender.next_resume(rt) == Some(seq),
    }
}

/// Whether a step goes so.
fn goes<R: Wait>(rt: &R, sender: &mut PortSender, step: &ProcessStep) -> bool {
    match step {
        ProcessStep::Send(line, bytes, how, answer) => sender.send(rt, *line, *bytes, *how)
            == *answer,
        ProcessStep::Link(times, answer) => sender.links(rt, *times) == *answer,
        ProcessStep::Look(stat) => sender.look() == Some(*stat),
        ProcessStep::Take(task) => sender.port.take(rt) == *task,
        ProcessStep::FirstReceipt(receipt) => begins(rt, sender, receipt),
        ProcessStep::ReceiptCount(calls) => makes(rt, sender, *calls),
        ProcessStep::Stopped(step) => stop_goes(rt, sender, *step),
    }
}

/// The number of the first step that goes otherwise, if one does.
fn first_wrong<R: Wait>(rt: &R, sender: &mut PortSender, steps: &[ProcessStep]) -> Option<usize> {
    for (at, step) in steps.iter().enumerate() {
        if !goes(rt, sender, step) {
            return Some(at);
        }
    }
    None
}

/// The same, or the number behind the last step where the process wasn't set up.
fn first_wrong_of<R: Wait>(
    rt: &R,
    sender: Option<PortSender>,
    steps: &[ProcessStep],
) -> Option<usize> {
    match sender {
        Some(mut sender) => first_wrong(rt, &mut sender, steps),
        None => Some(steps.len()),
    }
}

/// Ends the test where a step goes otherwise.
pub(crate) fn follow<R: Wait + Abort>(rt: &R, sender: Option<PortSender>, steps: &[ProcessStep]) {
    assert_eq!(rt; first_wrong_of(rt, sender, steps), None);
}
