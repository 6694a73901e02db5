// What a process has beside its ports' lanes and words.
ghost use Rattle.std.specs.Prelude.{◌<◌, length, IsTrue};
ghost use Rattle.port_sched.specs.Homes.{AreHomes};
ghost use Rattle.port_sched.specs.Running.{Looked};
ghost use Rattle.process_job.specs.Seats.{SawStop, SeatsAfter};

use crate::halt::Halt;
use port_sched::{JobSeats, PortBody};
use port_words::over::OverSeat;
use std::sync::Wait;

/// What the job of a process has beside its process: the seats by which it wakes ports, and its counted seat of OVER.
#[derive(Drop)]
pub struct ProcessSeats<B: PortBody> {
    pub ports: JobSeats<B>,
    pub over: OverSeat,
}

const ONE_STOP: u64 = 1 << 32;

/// Whether somebody has stopped the run.
pub(crate) fn is_stopped(over: &mut OverSeat) -> bool
    ensures looked { Looked over.old over.new }
    ensures stopped { IsTrue result → SawStop over.new }
{
    over.look() / ONE_STOP > 0
}

impl<B: PortBody> ProcessSeats<B> {
    /// Wakes a port for which something was put.
    pub(crate) fn wake<R: Wait>(&mut self, rt: &R, port: usize) -> Result<(), Halt>
        requires homes { AreHomes self.old.ports.homes.items }
        requires port { port < length self.old.ports.homes.items }
        ensures { SeatsAfter result self.old self.new }
    {
        self.ports.wake(rt, port)?;
        Ok(())
    }
}
