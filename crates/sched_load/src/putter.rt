ghost use Rattle.std.specs.Prelude.{◌≡◌, ◌<◌, length};
ghost use Rattle.port_sched.specs.Homes.{AreHomes};
ghost use Rattle.sched_load.specs.Putting.{CanPut, HasPut};

use crate::till::{Number, Till};
use port_sched::{JobSeats, NoMemory, ThreadJob};
use port_words::over::OverSeat;
use std::sync::Wait;
use std::thread::Parker;
use std::time::Duration;
use task_queue::SendEnd;

/// A job that waits for so many milliseconds, and then puts so many numbers for each port. Where it finds no memory it stops the run.
#[derive(Drop)]
pub struct Putter {
    pub seats: JobSeats<Till>,
    pub lanes: Vec<SendEnd<Number>>,
    pub over: OverSeat,
    pub numbers: u64,
    pub pause: u64,
}

// Waits, though it may end early.
fn rest<R: Wait>(rt: &R, millis: u64) {
    if millis > 0 {
        Parker::new().park_timeout(rt, Duration::from_millis(millis));
    }
}

// Puts a number for one port, and wakes it.
fn put_one<R: Wait>(
    rt: &R,
    seats: &mut JobSeats<Till>,
    lanes: &mut Vec<SendEnd<Number>>,
    port: usize,
    number: u64,
) -> Result<(), NoMemory>
    requires homes { AreHomes seats.old.homes.items }
    requires port { (port < length seats.old.homes.items) × (port < length lanes.old.items) }
    ensures many { length lanes.new.items ≡ length lanes.old.items }
    ensures woke { HasPut result seats.old seats.new }
{
    if lanes[port].put(rt, Number(number)).is_err() {
        return Err(NoMemory);
    }
    seats.wake(rt, port)
}

// Puts this number for each port.
fn put_round<R: Wait>(
    rt: &R,
    seats: &mut JobSeats<Till>,
    lanes: &mut Vec<SendEnd<Number>>,
    number: u64,
) -> Result<(), NoMemory>
    requires homes { AreHomes seats.old.homes.items }
    requires ports { length seats.old.homes.items ≡ length lanes.old.items }
    ensures many { length lanes.new.items ≡ length lanes.old.items }
    ensures woke { HasPut result seats.old seats.new }
{
    'ports: for port in 0..lanes.len() {
        put_one(rt, seats, lanes, port, number)?;
    }
    Ok(())
}

// Puts all numbers for each port.
fn put_all<R: Wait>(
    rt: &R,
    seats: &mut JobSeats<Till>,
    lanes: &mut Vec<SendEnd<Number>>,
    numbers: u64,
) -> Result<(), NoMemory>
    requires homes { AreHomes seats.old.homes.items }
    requires ports { length seats.old.homes.items ≡ length lanes.old.items }
    ensures { HasPut result seats.old seats.new }
{
    'numbers: for number in 0..numbers {
        put_round(rt, seats, lanes, number)?;
    }
    Ok(())
}

impl ThreadJob for Putter {
    ghost use Rattle.sched_load.specs.Putting.{CanPut, HasGoneOn};

    ghost can_run = { CanPut };

    ghost went = { HasGoneOn };

    fn run<R: Wait>(&mut self, rt: &R) {
        rest(rt, self.pause);
        if put_all(rt, &mut self.seats, &mut self.lanes, self.numbers).is_err() {
            self.over.stop();
        }
    }
}
