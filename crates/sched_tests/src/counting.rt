ghost use Rattle.port_words.specs.over.Over.{HasNotStopped};
ghost use Rattle.sched_tests.specs.Seats.{IsSeatOfTwo};

use crate::bodies::{
    ErrandHome, Nothing, one_home, places, queue, three_turns, two_queues, two_seats,
};
use outside::OpenGate;
use port_sched::{SchedSeats, Scheduler, TurnCounts, run};
use port_words::over::OverSeat;
use run_queue::RunSeat;
use std::alloc::Global;
use std::sync::Wait;
use std::test::Fail;
use std::thread::Threads;

// Whose deque the first ticket of the port lies in.
#[derive(Clone, Copy)]
enum FirstTicket {
    Own,
    Other,
    Nowhere,
}

// What a scheduler that has run tells: how many turns it made, and how many tickets it stole.
#[derive(Clone, Copy, Debug, PartialEq, Eq)]
struct Told {
    counts: TurnCounts,
    stolen: u64,
}

fn wanted(queued: u64, idle: u64, stolen: u64) -> Option<Told> {
    let counts = TurnCounts { queued, idle };
    Some(Told { counts, stolen })
}

// Runs one scheduler on one port.
fn run_one<R: Threads + Wait + Sync>(
    rt: &R,
    alloc: Global,
    home: ErrandHome,
    queue: RunSeat,
    over: OverSeat,
) -> Option<Told>
    requires home { IsSeatOfTwo 0 home }
    requires over { HasNotStopped over.known.places }
{
    let homes = one_home(alloc, home).ok()?;
    let seats = SchedSeats {
        homes,
        run: queue,
        over,
    };
    let mut schedulers = [Scheduler::new(seats)];
    let mut others = [Nothing];
    run(rt, &OpenGate, &mut schedulers, &mut others);
    Some(Told {
        counts: schedulers[0].counts,
        stolen: schedulers[0].seats.run.stolen(),
    })
}

// One scheduler makes the three turns of a port.
fn serve<R: Threads + Wait + Sync>(rt: &R, alloc: Global, first: FirstTicket) -> Option<Told> {
    let (counted, over, _) = places(alloc)?;
    let (mine, theirs) = two_seats(alloc, three_turns(0, true), 0, counted)?;
    let (own, other) = two_queues(alloc)?;
    match first {
        FirstTicket::Own => {
            let (_theirs, own) = queue(theirs, own)?;
            run_one(rt, alloc, mine, own, over)
        }
        FirstTicket::Other => {
            let (_theirs, _other) = queue(theirs, other)?;
            run_one(rt, alloc, mine, own, over)
        }
        FirstTicket::Nowhere => run_one(rt, alloc, mine, own, over),
    }
}

#[test]
fn each_turn_that_began_with_a_ticket_is_counted(rt: HostRuntime) -> Result<(), Fail> {
    assert_eq!(rt; serve(&rt, rt.alloc(), FirstTicket::Own), wanted(3, 0, 0));
    Ok(())
}

#[test]
fn a_stolen_ticket_counts_as_a_ticket_and_as_stolen(rt: HostRuntime) -> Result<(), Fail> {
    assert_eq!(rt; serve(&rt, rt.alloc(), FirstTicket::Other), wanted(3, 0, 1));
    Ok(())
}

#[test]
fn a_turn_of_a_port_that_was_found_idle_is_counted_apart(rt: HostRuntime) -> Result<(), Fail> {
    assert_eq!(rt;
        serve(&rt, rt.alloc(), FirstTicket::Nowhere),
        wanted(2, 1, 0)
    );
    Ok(())
}
