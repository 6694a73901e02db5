//! Processes of one port, by hand.
ghost use Rattle.std.specs.Prelude.{◌≡◌, length};
ghost use Rattle.run_lanes.specs.Opened.{CanBegin};

use anyhow::{Result, bail, ensure};
use port_model::{IoVec, Piece};
use process_end::{Ask, Commanded, How, Proc, ProcParts};
use run_lanes::ProcessLanes;
use std::alloc::Global;
use std::sync::Wait;

/// A process of one port.
#[derive(Drop)]
pub(crate) struct Peer {
    proc: Proc,
    ghost one: { length proc.lanes ≡ 1 },
}

impl Peer {
    /// The process of this number, which has made no call.
    pub(crate) fn new(alloc: Global, number: u32, lanes: ProcessLanes) -> Result<Peer>
        requires { CanBegin 1 number lanes }
    {
        let soft = vec![in alloc; false; 1]?;
        ensure!(lanes.lanes.len() == 1, "a process of other ports");
        let parts = ProcParts {
            number,
            mailbox: lanes.mailbox,
            lanes: lanes.lanes,
            seats: lanes.seats,
            soft,
        };
        let proc = Proc::new(alloc, parts);
        Ok(Peer { proc })
    }

    /// Puts a command of these bytes, which are shared.
    fn command<R: Wait>(self, rt: &R, alloc: Global, bytes: &Piece) -> Result<Peer> {
        let payload = IoVec::of_piece(alloc, bytes.share()?);
        match self.proc.command(rt, 1, 0, payload, How::Plain) {
            Commanded::Accepted(proc, _) => Ok(Peer { proc }),
            _ => bail!("a command wasn't accepted"),
        }
    }

    /// Puts so many commands of these bytes, one after another.
    pub(crate) fn put_all<R: Wait>(
        self,
        rt: &R,
        alloc: Global,
        bytes: &Piece,
        count: u32,
    ) -> Result<Peer> {
        let mut peer = self;
        for _ in 0..count {
            peer = peer.command(rt, alloc, bytes)?;
        }
        Ok(peer)
    }

    /// Puts a control without data.
    pub(crate) fn control<R: Wait>(&mut self, rt: &R, op: u32) -> Result<()> {
        let bytes = Piece::empty();
        let answer = self.proc.signal(rt, 1, 0, Ask::Control { op, bytes });
        ensure!(answer.is_ok(), "a control wasn't accepted");
        Ok(())
    }

    /// Takes the next mail, if there is one.
    fn takes_mail<R: Wait>(&mut self, rt: &R) -> bool {
        self.proc.mail(rt).is_some()
    }

    /// Takes mail until none is found, and answers how much came.
    pub(crate) fn take_mail<R: Wait>(&mut self, rt: &R) -> u32 {
        let mut taken = 0u32;
        for _ in rt.forever() {
            if !self.takes_mail(rt) {
                return taken;
            }
            taken = taken.saturating_add(1);
        }
        unreachable!()
    }
}
