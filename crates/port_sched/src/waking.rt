// What a job beside the schedulers does once it put something for a port.
ghost use Rattle.std.specs.Prelude.{◌<◌, List, length};
ghost use Rattle.port_words.specs.declared.home.homes.Ticket.{Ticket};
ghost use Rattle.port_sched.specs.Homes.{AreHomes};
ghost use Rattle.port_sched.specs.Serving.{KeptBy};
ghost use Rattle.port_sched.specs.Waking.{Wakes, Refuses};

use crate::body::PortBody;
use crate::scheduling::ticket_at;
use crate::turns::Home;
use no_memory::NoMemory;
use run_queue::EntrySeat;
use std::sync::Wait;

/// What one job beside the schedulers has: a seat of each port's home, in the order of ports, and its end of the injector.
#[derive(Drop)]
pub struct JobSeats<B: PortBody> {
    pub homes: Vec<Home<B>>,
    pub entry: EntrySeat,
    /// Whether a ticket found no memory.
    pub refused: bool,
}

impl<B: PortBody> JobSeats<B> {
    /// Wakes each scheduler that waits, so that it looks whether the run is over.
    pub fn wake_schedulers(&self) {
        self.entry.wake_all();
    }

    /// Queues the next turn of this port, where it is idle. Where its ticket can't be put for want of memory, the ticket is dropped and stays waiting: the run has to
    /// be stopped then. It may spin while another thread is in a call.
    pub fn wake<R: Wait>(&mut self, rt: &R, port: usize) -> Result<(), NoMemory>
        requires homes { AreHomes self.old.homes.items }
        requires port { port < length self.old.homes.items }
        ensures homes { AreHomes self.new.homes.items }
        ensures refused { Refuses result self.old.refused self.new.refused }
        ensures tickets { (kept : List Ticket) × KeptBy result kept × Wakes kept self.old.homes.items self.old.entry self.new.homes.items self.new.entry }
    {
        let Some(ticket) = ticket_at(&mut self.homes, port) else {
            return Ok(());
        };
        match self.entry.put(rt, ticket) {
            Ok(()) => Ok(()),
            Err((_, no_memory)) => {
                self.refused = true;
                Err(no_memory)
            }
        }
    }
}
