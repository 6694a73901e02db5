ghost use Rattle.std.specs.Prelude.{◌≡◌};
ghost use Rattle.port_words.specs.over.Over.{HasToFinish, HasNotStopped};

use crate::busy::same;
use port_words::over::{OverSeat, over_word};
use std::test::Fail;
use std::thread::{Threads, join};

const STOP: u64 = 1 << 32;

#[test]
fn counts_who_finished_and_who_stopped(rt: HostRuntime) -> Result<(), Fail> {
    let mut seats = over_word(rt.alloc(), 2, 1)?;
    let mut job = seats.pop().ok_or("no job")?;
    let mut process = seats.pop().ok_or("no process")?;
    let mut port = seats.pop().ok_or("no port")?;
    assert!(rt; seats.is_empty() && port.counted() == 2);
    same(&rt, port.finished(), 0);
    same(&rt, job.stop(), 1);
    same(&rt, process.finished(), STOP + 1);
    same(&rt, process.stop(), STOP + 2);
    job.join(process);
    job.join(port);
    same(&rt, job.look(), 2 * STOP + 2);
    Ok(())
}

fn finish(mut seat: OverSeat) -> OverSeat
    requires { HasToFinish seat.known.size.counted seat.known.places }
    ensures word { result.word ≡ seat.word }
    ensures stopped { HasNotStopped seat.known.places → HasNotStopped result.known.places }
{
    seat.finished();
    seat
}

fn stop(mut seat: OverSeat) -> OverSeat
    requires { HasNotStopped seat.known.places }
    ensures { result.word ≡ seat.word }
{
    seat.stop();
    seat
}

fn finish_both<R: Threads + Sync>(rt: &R, a: OverSeat, b: OverSeat) -> (OverSeat, OverSeat)
    requires a { HasToFinish a.known.size.counted a.known.places }
    requires b { HasToFinish b.known.size.counted b.known.places }
    ensures words { (result.0.word ≡ a.word) × (result.1.word ≡ b.word) }
    ensures stopped { (HasNotStopped a.known.places → HasNotStopped result.0.known.places) × (HasNotStopped b.known.places → HasNotStopped result.1.known.places) }
{
    join(rt, move || finish(a), move || finish(b))
}

fn stop_both<R: Threads + Sync>(rt: &R, a: OverSeat, b: OverSeat) -> (OverSeat, OverSeat)
    requires { HasNotStopped a.known.places × HasNotStopped b.known.places }
    ensures { (result.0.word ≡ a.word) × (result.1.word ≡ b.word) }
{
    join(rt, move || stop(a), move || stop(b))
}

#[test]
fn two_threads_and_then_four_are_all_counted(rt: HostRuntime) -> Result<(), Fail> {
    let mut seats = over_word(rt.alloc(), 4, 0)?;
    let fourth = seats.pop().ok_or("no fourth")?;
    let third = seats.pop().ok_or("no third")?;
    let second = seats.pop().ok_or("no second")?;
    let first = seats.pop().ok_or("no first")?;
    let (first, second) = finish_both(&rt, first, second);
    let (stopped, finished) = join(
        &rt,
        || stop_both(&rt, first, second),
        || finish_both(&rt, third, fourth),
    );
    let (mut all, other) = stopped;
    all.join(other);
    all.join(finished.0);
    all.join(finished.1);
    same(&rt, all.look(), 2 * STOP + 4);
    Ok(())
}
