// The side of the port: takes the commands, and resumes those that they suspended.
use crate::rig::{CrowdPort, CrowdTask, resume};
use port_model::{Mail, Signal};
use port_words::busy::msgq_is_busy;
use std::alloc::Global;
use std::sync::Wait;
use std::thread::yield_now;
use task_queue::SendEnd;

/// A port, the ends that put mail for its senders, the suspended commands that wait for their resume, and how many senders have ended.
#[derive(Drop)]
pub(crate) struct Taker {
    pub(crate) port: CrowdPort,
    mails: Vec<SendEnd<Mail>>,
    listed: Vec<(u32, u64)>,
    ended: u32,
}

impl Taker {
    pub(crate) fn new(alloc: Global, port: CrowdPort, mails: Vec<SendEnd<Mail>>) -> Taker {
        Taker {
            port,
            mails,
            listed: Vec::new(alloc),
            ended: 0,
        }
    }

    /// Resumes the processes that are listed.
    fn resume_all<R: Wait>(&mut self, rt: &R, word: u64) -> Option<()> {
        while let Some((process, seq)) = self.listed.pop() {
            let mail = self.mails.get_mut(process as usize)?;
            mail.put(rt, resume(seq, word)).ok()?;
        }
        Some(())
    }

    /// Counts the end of a sender, lists a suspended one, and resumes all where the queue isn't busy after this task.
    fn note<R: Wait>(&mut self, rt: &R, taken: &CrowdTask) -> Option<()> {
        if matches!(taken.task.signal(), Signal::Gone(_)) {
            self.ended = self.ended.wrapping_add(1);
        }
        if taken.task.suspends() {
            self.listed.push((taken.sender, taken.seq)).ok()?;
        }
        match taken.msgq {
            Some(word) if !msgq_is_busy(word) => self.resume_all(rt, word),
            _ => Some(()),
        }
    }

    /// Takes the next task, where there is one.
    fn take_one<R: Wait>(&mut self, rt: &R) -> Option<()> {
        match self.port.take(rt) {
            Some(taken) => self.note(rt, &taken),
            None => {
                yield_now();
                Some(())
            }
        }
    }
}

/// Takes nothing before the queue is busy, and then all tasks until so many senders have ended.
pub(crate) fn take_all<R: Wait>(rt: &R, taker: Taker, senders: u32) -> Option<Taker> {
    let mut taker = taker;
    taker.port.wait_for_busy(rt);
    for _ in rt.forever() {
        if taker.ended >= senders {
            return Some(taker);
        }
        taker.take_one(rt)?;
    }
    unreachable!()
}
