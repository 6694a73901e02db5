//! The processes of a port.
use crate::peers::Peer;
use anyhow::{Result, bail};
use port_model::Piece;
use std::alloc::Global;
use std::collections::VecDeque;
use std::sync::Wait;

/// How many processes put commands.
pub(crate) const SENDERS: u32 = 8;

/// How many commands each of them puts before the port makes its next turn.
pub(crate) const BURST: u32 = 8;

/// The owner of a port, the processes that put commands, and what each command carries.
#[derive(Drop)]
pub(crate) struct Crew {
    alloc: Global,
    owner: Peer,
    senders: VecDeque<Peer>,
    bytes: Piece,
}

impl Crew {
    /// These processes, of which the first is the owner.
    pub(crate) fn new(alloc: Global, mut senders: VecDeque<Peer>) -> Result<Crew> {
        let bytes = Piece::of_slice(alloc, b"abcdefgh")?;
        let Some(owner) = senders.pop_front() else {
            bail!("no owner");
        };
        Ok(Crew {
            alloc,
            owner,
            senders,
            bytes,
        })
    }

    /// The owner puts a control without data.
    pub(crate) fn control<R: Wait>(&mut self, rt: &R, op: u32) -> Result<()> {
        self.owner.control(rt, op)
    }

    /// Each sender puts so many commands, one after another.
    pub(crate) fn put<R: Wait>(&mut self, rt: &R, each: u32) -> Result<()> {
        for _ in 0..SENDERS {
            let Some(sender) = self.senders.pop_front() else {
                bail!("no sender");
            };
            let sender = sender.put_all(rt, self.alloc, &self.bytes, each)?;
            self.senders.push_back(sender)?;
        }
        Ok(())
    }

    /// The owner takes mail until none is found. How much came.
    pub(crate) fn take_mail<R: Wait>(&mut self, rt: &R) -> u32 {
        self.owner.take_mail(rt)
    }
}
