ghost use Rattle.std.specs.Prelude.{◌≡◌, ℕ, None};

use crate::busy::same;
use port_words::home::{HomeSeat, Lodged, Ticket, home};
use std::process::Abort;
use std::test::Fail;
use std::thread::{Threads, join};

// A lodger that counts its turns.
#[derive(Drop)]
struct CountedBody {
    name: u32,
    turns: u32,
}

impl Lodged for CountedBody {
    ghost Name = { ℕ };

    ghost name = { λ lodger. lodger.name };
}

// Counts a turn of the body.
fn count_turn(body: &mut CountedBody)
    ensures { body.new.name ≡ body.old.name }
{
    body.turns = body.turns.wrapping_add(1);
}

// Ends the test where this isn't the ticket of the first turn of port 7, or where the turn could be queued once more.
fn is_queued<R: Abort>(rt: &R, ticket: Ticket, again: Result<Ticket, u64>) {
    assert!(rt; ticket.port == 7 && ticket.turn == 0 && matches!(again, Err(1)));
}

#[test]
fn a_ticket_runs_its_turn_once(rt: HostRuntime) -> Result<(), Fail> {
    let Ok(mut seats) = home(rt.alloc(), 7, CountedBody { name: 3, turns: 0 }, 2) else {
        panic!(rt; "there is memory")
    };
    let mut other = seats.pop().ok_or("no seat")?;
    let mut seat = seats.pop().ok_or("no other seat")?;
    let Ok(ticket) = seat.schedule() else {
        panic!(rt; "the port is idle")
    };
    is_queued(&rt, ticket, other.schedule());
    match other.claim(ticket) {
        Ok(mut running) => {
            count_turn(running.body());
            match seat.claim_idle() {
                Err(found) => same(&rt, found, 2),
                Ok(taken) => seat.put_home(taken),
            }
            other.put_home(running);
        }
        Err(_) => panic!(rt; "the turn is queued"),
    }
    match seat.claim(ticket) {
        Err(found) => same(&rt, found, 4),
        Ok(again) => seat.put_home(again),
    }
    match seat.claim_idle() {
        Ok(running) => seat.put_home(running),
        Err(_) => panic!(rt; "the port is idle"),
    }
    other.join(seat);
    same(&rt, other.look(), 8);
    same(&rt, u64::from(other.close_home().turns), 1);
    Ok(())
}

// Queues a turn and runs it, where no other seat was first.
fn run_one(mut seat: HomeSeat<CountedBody>) -> HomeSeat<CountedBody>
    requires { seat.known.running ≡ None }
    ensures { (result.home ≡ seat.home) × (result.known.running ≡ None) × (result.known.shares ≡ seat.known.shares) × (result.known.seats ≡ seat.known.seats) }
{
    let Ok(ticket) = seat.schedule() else {
        return seat;
    };
    match seat.claim(ticket) {
        Ok(mut running) => {
            count_turn(running.body());
            seat.put_home(running);
            seat
        }
        Err(_) => seat,
    }
}

fn run_two<R: Threads + Sync>(
    rt: &R,
    a: HomeSeat<CountedBody>,
    b: HomeSeat<CountedBody>,
) -> (HomeSeat<CountedBody>, HomeSeat<CountedBody>)
    requires { (a.known.running ≡ None) × (b.known.running ≡ None) }
    ensures a { (result.0.home ≡ a.home) × (result.0.known.running ≡ None) × (result.0.known.shares ≡ a.known.shares) × (result.0.known.seats ≡ a.known.seats) }
    ensures b { (result.1.home ≡ b.home) × (result.1.known.running ≡ None) × (result.1.known.shares ≡ b.known.shares) × (result.1.known.seats ≡ b.known.seats) }
{
    join(rt, move || run_one(a), move || run_one(b))
}

// Ends the test where this word of an idle home doesn't tell the turns that the body counted.
fn counts_turns<R: Abort>(rt: &R, run: u64, body: CountedBody) {
    assert!(rt; run == 4 * u64::from(body.turns) && run > 0);
}

#[test]
fn two_and_four_threads_run_one_body(rt: HostRuntime) -> Result<(), Fail> {
    let Ok(mut seats) = home(rt.alloc(), 0, CountedBody { name: 3, turns: 0 }, 4) else {
        panic!(rt; "there is memory")
    };
    let fourth = seats.pop().ok_or("no fourth")?;
    let third = seats.pop().ok_or("no third")?;
    let second = seats.pop().ok_or("no second")?;
    let first = seats.pop().ok_or("no first")?;
    let (first, second) = run_two(&rt, first, second);
    let (left, right) = join(
        &rt,
        || run_two(&rt, first, second),
        || run_two(&rt, third, fourth),
    );
    let (mut all, second) = left;
    let (third, fourth) = right;
    all.join(second);
    all.join(third);
    all.join(fourth);
    let run = all.look();
    counts_turns(&rt, run, all.close_home());
    Ok(())
}
