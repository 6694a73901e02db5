use run_queue::{EntrySeat, RunSeat, Ticket, run_queue};
use std::alloc::Global;
use std::sync::Wait;
use std::test::Fail;

/// The seats of two schedulers, and the ends of the injector.
#[derive(Drop)]
struct Queues {
    seats: Vec<RunSeat>,
    ends: Vec<EntrySeat>,
}

impl Queues {
    /// Queues with so many ends of the injector.
    fn new(alloc: Global, entries: u32) -> Result<Queues, Fail> {
        let (seats, ends) = run_queue(alloc, 2, entries)?;
        Ok(Queues { seats, ends })
    }

    /// Pushes a ticket of this port into the deque of this scheduler. Whether it lies there.
    fn push(&mut self, scheduler: usize, port: u32) -> bool {
        match self.seats.get_mut(scheduler) {
            Some(seat) => seat.push(Ticket { port, turn: 0 }).is_ok(),
            None => false,
        }
    }

    /// Puts a ticket of this port into the injector. Whether it lies there.
    fn put<R: Wait>(&mut self, rt: &R, port: u32) -> bool {
        match self.ends.get_mut(0) {
            Some(end) => end.put(rt, Ticket { port, turn: 0 }).is_ok(),
            None => false,
        }
    }

    /// Whether the next ticket of this scheduler is of this port, or there is none.
    fn next_is<R: Wait>(&mut self, rt: &R, scheduler: usize, port: Option<u32>) -> bool {
        match self.seats.get_mut(scheduler) {
            Some(seat) => seat.next(rt).map(|ticket| ticket.port) == port,
            None => false,
        }
    }

    /// How many tickets this scheduler stole.
    fn stolen(&self, scheduler: usize) -> Option<u64> {
        match self.seats.get(scheduler) {
            Some(seat) => Some(seat.stolen()),
            None => None,
        }
    }
}

#[test]
fn the_second_scheduler_steals_the_first_ticket(rt: HostRuntime) -> Result<(), Fail> {
    let mut queues = Queues::new(rt.alloc(), 0)?;
    assert!(rt; queues.push(0, 0));
    assert!(rt; queues.push(0, 1));
    for (scheduler, port) in [(1, Some(0)), (0, Some(1)), (0, None), (1, None)] {
        assert!(rt; queues.next_is(&rt, scheduler, port));
    }
    assert!(rt; queues.stolen(1) == Some(1));
    assert!(rt; queues.stolen(0) == Some(0));
    Ok(())
}

#[test]
fn the_own_deque_comes_before_the_injector(rt: HostRuntime) -> Result<(), Fail> {
    let mut queues = Queues::new(rt.alloc(), 1)?;
    assert!(rt; queues.push(0, 0));
    assert!(rt; queues.put(&rt, 1));
    assert!(rt; queues.push(1, 2));
    for (port, stolen) in [(Some(2), 0), (Some(1), 0), (Some(0), 1), (None, 1)] {
        assert!(rt; queues.next_is(&rt, 1, port));
        assert!(rt; queues.stolen(1) == Some(stolen));
    }
    Ok(())
}
