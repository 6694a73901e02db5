ghost use Rattle.std.specs.Prelude.{◌≡◌, None, IfSome};
ghost use Rattle.port_words.specs.over.Over.{HasNotStopped};
ghost use Rattle.sched_tests.specs.Seats.{IsSeatOfTwo, IsSeatBack};

use crate::bodies::{ErrandHome, one_home, places, queue, three_turns, two_queues, two_seats};
use outside::OpenGate;
use port_sched::{SchedEnd, SchedSeats, scheduler};
use port_words::over::OverSeat;
use run_queue::RunSeat;
use std::alloc::Global;
use std::sync::Wait;
use std::test::Fail;

// Runs one scheduler on one port, and gives the port's seat back.
fn serve_one<R: Wait>(
    rt: &R,
    alloc: Global,
    home: ErrandHome,
    run: RunSeat,
    over: OverSeat,
) -> Option<(ErrandHome, SchedEnd)>
    requires home { IsSeatOfTwo 0 home }
    requires over { HasNotStopped over.known.places }
    ensures { IfSome result (λ r. IsSeatBack home r.0) }
{
    let Ok(homes) = one_home(alloc, home) else {
        return None;
    };
    let mut seats = SchedSeats { homes, run, over };
    let end = scheduler(rt, &mut seats, &OpenGate);
    let home = seats.homes.pop()?;
    Some((home, end))
}

// Closes the home, and tells how many turns are left.
fn left(home: ErrandHome, other: ErrandHome) -> u32
    requires rests { (home.known.running ≡ None) × (other.known.running ≡ None) }
    requires home { other.home ≡ home.home }
    requires all { (home.known.shares ≡ 1) × (other.known.shares ≡ 1) × (home.known.seats ≡ 2) }
{
    let mut home = home;
    home.join(other);
    home.close_home().body.left
}

// The second scheduler alone serves a port whose ticket lies in the first one's deque.
fn steal<R: Wait>(rt: &R, alloc: Global) -> Option<(u32, SchedEnd)> {
    let (counted, over, _) = places(alloc)?;
    let (mine, theirs) = two_seats(alloc, three_turns(0, true), 0, counted)?;
    let (zero, one) = two_queues(alloc)?;
    let (theirs, _zero) = queue(theirs, zero)?;
    let (mine, end) = serve_one(rt, alloc, mine, one, over)?;
    Some((left(theirs, mine), end))
}

// A scheduler serves a port whose turns find no memory. What OVER says then, too.
fn starve<R: Wait>(rt: &R, alloc: Global) -> Option<(u32, SchedEnd, u64)> {
    let (counted, over, mut witness) = places(alloc)?;
    let (mine, theirs) = two_seats(alloc, three_turns(0, false), 0, counted)?;
    let (zero, _one) = two_queues(alloc)?;
    let (mine, end) = serve_one(rt, alloc, mine, zero, over)?;
    Some((left(theirs, mine), end, witness.look()))
}

#[test]
fn another_scheduler_finishes_a_port_whose_ticket_it_steals(rt: HostRuntime) -> Result<(), Fail> {
    assert_eq!(rt; steal(&rt, rt.alloc()), Some((0, SchedEnd::Done)));
    Ok(())
}

#[test]
fn a_turn_without_memory_stops_the_run_and_the_body_comes_back(
    rt: HostRuntime,
) -> Result<(), Fail> {
    assert_eq!(rt;
        starve(&rt, rt.alloc()),
        Some((3, SchedEnd::NoMemory, 1 << 32))
    );
    Ok(())
}
