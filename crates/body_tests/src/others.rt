//! Those beside the port: its processes, the poller and the workers.
ghost use Rattle.std.specs.Prelude.{◌≡◌, ℕ, true, false};
ghost use Rattle.port_model.specs.Signals.{is_command};
ghost use Rattle.process_end.specs.port_lanes.Keys.{sender_at};
ghost use Rattle.process_end.specs.port_lanes.Parcels.{names_below};
ghost use Rattle.process_end.specs.port_lanes.port_history.Laws.{may_send};
ghost use Rattle.body_tests.specs.Beside.{IsOfPoller, IsOfWorker};

use crate::peers::HandProcess;
use crate::text::{put_bytes, put_mail};
use async_jobs::{Done, Pool, SendEnd, TakeEnd, WorkItem, Worked};
use outside::MemPoll;
use port_body::Parcel;
use port_model::{IoVec, Mail, Piece, Reason, Signal, Task};
use process_end::{Ask, How};
use ready_select::{PollAsk, PollTable, poll_round};
use std::alloc::{AllocError, Global};
use std::sync::Wait;
use std::test::Fail;

/// Puts a signal of the poller or of a worker into the port's lane.
fn tell<R: Wait>(rt: &R, lane: &mut SendEnd<Parcel>, signal: Signal) -> Result<(), Fail>
    requires plain { is_command signal ≡ false }
    requires sends { may_send (sender_at lane.old.key lane.old.number) signal ≡ true }
    requires named { (processes : ℕ) → names_below processes signal ≡ true }
    ensures { lane.new ≡ record lane.old { sent = lane.new.sent } }
{
    match lane.put(rt, Parcel::plain(Task::new(signal))) {
        Ok(_) => Ok(()),
        Err(_) => Err("no memory".into()),
    }
}

/// The poller of the port.
#[derive(Drop)]
pub(crate) struct HandPoller {
    poll: MemPoll,
    table: PollTable,
    asks: TakeEnd<PollAsk>,
    lane: SendEnd<Parcel>,
    ghost sends: { IsOfPoller lane },
}

impl HandPoller {
    /// The poller that asks this poll set.
    pub(crate) fn new(
        alloc: Global,
        poll: MemPoll,
        asks: TakeEnd<PollAsk>,
        lane: SendEnd<Parcel>,
    ) -> HandPoller
        requires { IsOfPoller lane }
    {
        HandPoller {
            poll,
            table: PollTable::new(alloc),
            asks,
            lane,
        }
    }

    /// Tells the port what was found.
    #[tactic(auto, using(crate::proofs::OnePort::poller_tells_ready, crate::proofs::OnePort::poller_tells_dropped))]
    fn tell<R: Wait>(&mut self, rt: &R, found: PollAsk) -> Result<(), Fail> {
        match found {
            PollAsk::Arm { event, dir, .. } => tell(
                rt,
                &mut self.lane,
                Signal::Ready { event, dir },
            ),
            PollAsk::Drop { event, .. } => tell(rt, &mut self.lane, Signal::Dropped(event)),
            PollAsk::Finish => Ok(()),
        }
    }

    /// What one round finds.
    fn found<R: Wait>(&mut self, rt: &R, alloc: Global) -> Vec<PollAsk> {
        let mut found = Vec::new(alloc);
        poll_round(
            rt,
            alloc,
            &mut self.poll,
            &mut self.table,
            &mut self.asks,
            &mut found,
        );
        found
    }

    /// Makes one round, and tells the port what was found.
    fn round<R: Wait>(&mut self, rt: &R, alloc: Global) -> Result<(), Fail> {
        for ask in self.found(rt, alloc) {
            self.tell(rt, ask)?;
        }
        Ok(())
    }
}

/// A worker of the port.
#[derive(Drop)]
pub(crate) struct HandWorker {
    jobs: TakeEnd<WorkItem>,
    lane: SendEnd<Parcel>,
    ghost sends: { IsOfWorker lane },
}

impl HandWorker {
    pub(crate) fn new(jobs: TakeEnd<WorkItem>, lane: SendEnd<Parcel>) -> HandWorker
        requires { IsOfWorker lane }
    {
        HandWorker { jobs, lane }
    }

    /// Tells the port that a job was done.
    #[tactic(auto, using(crate::proofs::OnePort::worker_tells))]
    fn tell<R: Wait>(&mut self, rt: &R, done: Done) -> Result<(), Fail> {
        let Done { number, output, .. } = done;
        tell(rt, &mut self.lane, Signal::AsyncDone { number, output })
    }

    /// Does the next job.
    fn work<R: Wait>(&mut self, rt: &R, alloc: Global) -> Result<(), Fail> {
        match Pool::worker_turn(rt, alloc, &mut self.jobs) {
            Worked::Did(done) => self.tell(rt, done),
            _ => Err("no job was done".into()),
        }
    }
}

/// Those beside the port, and what was seen of them.
#[derive(Drop)]
pub(crate) struct OthersBeside {
    pub(crate) peers: Vec<HandProcess>,
    pub(crate) poller: HandPoller,
    pub(crate) workers: Vec<HandWorker>,
    /// What the acts came to.
    pub(crate) text: String,
    /// The data that came.
    pub(crate) data: String,
    /// The receipts of those who have ended.
    pub(crate) receipts: String,
}

impl OthersBeside {
    /// A process puts a command of these bytes.
    pub(crate) fn command<R: Wait>(
        &mut self,
        rt: &R,
        alloc: Global,
        process: u32,
        bytes: &[u8],
        how: How,
    ) -> Result<(), Fail> {
        let payload = IoVec::of_piece(alloc, Piece::of_slice(alloc, bytes)?);
        match self.peers.get_mut(process as usize) {
            Some(peer) => peer.command(rt, process, payload, how, &mut self.text),
            None => Err("no process".into()),
        }
    }

    /// A process puts another signal.
    pub(crate) fn ask<R: Wait>(&mut self, rt: &R, process: u32, ask: Ask) -> Result<(), Fail> {
        match self.peers.get_mut(process as usize) {
            Some(peer) => peer.ask(rt, process, ask, &mut self.text),
            None => Err("no process".into()),
        }
    }

    /// A suspended process tries to go on.
    pub(crate) fn resume<R: Wait>(&mut self, rt: &R, process: u32) -> Result<(), Fail> {
        match self.peers.get_mut(process as usize) {
            Some(peer) => peer.resume(rt, process, &mut self.text),
            None => Err("no process".into()),
        }
    }

    /// A process looks at the port.
    pub(crate) fn look(&mut self, process: u32) -> Result<(), Fail> {
        match self.peers.get_mut(process as usize) {
            Some(peer) => peer.look(process, &mut self.text),
            None => Err("no process".into()),
        }
    }

    /// A process ends.
    pub(crate) fn end<R: Wait>(
        &mut self,
        rt: &R,
        process: u32,
        reason: Reason,
    ) -> Result<(), Fail> {
        match self.peers.get_mut(process as usize) {
            Some(peer) => peer.end(rt, process, reason, &mut self.receipts),
            None => Err("no process".into()),
        }
    }

    fn next_mail<R: Wait>(&mut self, rt: &R, process: u32) -> Option<Mail> {
        match self.peers.get_mut(process as usize) {
            Some(peer) => peer.next_mail(rt),
            None => None,
        }
    }

    /// A mail came to a process.
    fn note_mail(&mut self, process: u32, mail: &Mail) -> Result<(), AllocError> {
        if let Mail::Message { bytes, .. } = mail {
            put_bytes(&mut self.data, bytes.as_slice())?;
        }
        put_mail(&mut self.text, process, mail)
    }

    /// A process takes the next mail, if there is one, and says whether there was.
    fn take_mail<R: Wait>(&mut self, rt: &R, process: u32) -> Result<bool, AllocError> {
        match self.next_mail(rt, process) {
            Some(mail) => {
                self.note_mail(process, &mail)?;
                Ok(true)
            }
            None => Ok(false),
        }
    }

    /// A process takes all mail that it has.
    pub(crate) fn mail<R: Wait>(&mut self, rt: &R, process: u32) -> Result<(), Fail> {
        for _ in rt.forever() {
            if !self.take_mail(rt, process)? {
                return Ok(());
            }
        }
        unreachable!()
    }

    /// The poller makes a round.
    pub(crate) fn poll<R: Wait>(&mut self, rt: &R, alloc: Global) -> Result<(), Fail> {
        self.poller.round(rt, alloc)
    }

    /// A worker does a job.
    pub(crate) fn work<R: Wait>(&mut self, rt: &R, alloc: Global, worker: u32) -> Result<(), Fail> {
        match self.workers.get_mut(worker as usize) {
            Some(worker) => worker.work(rt, alloc),
            None => Err("no worker".into()),
        }
    }

    /// Ends each process that may send, so that its receipts are there.
    pub(crate) fn end_all<R: Wait>(&mut self, rt: &R) -> Result<(), Fail> {
        for process in 0..3u32 {
            if let Some(HandProcess::Sending(_)) = self.peers.get(process as usize) {
                self.end(rt, process, Reason::normal())?;
            }
        }
        Ok(())
    }
}
