use port_sched::Idle;
use std::sync::Wait;
use std::test::Fail;
use std::time::{Clock, Duration, Instant};

// So many waits after a reset sleep no time.
const SHORT: u32 = 11;

// Of each kind of wait the shortest of so many is told: what else the machine does only makes one longer.
const ROUNDS: u32 = 20;

fn wait_often<R: Wait>(rt: &R, idle: &Idle, times: u32) {
    for _ in 0..times {
        idle.wait(rt);
    }
}

// The shortest time of eleven waits, each time after a reset, or never.
fn shortest<R: Clock + Wait>(rt: &R, idle: &Idle, resets: bool) -> Result<Duration, Fail> {
    let mut best = Duration::MAX;
    for _ in 0..ROUNDS {
        if resets {
            idle.reset();
        }
        let start = Instant::now(rt)?;
        wait_often(rt, idle, SHORT);
        best = best.min(start.elapsed(rt)?);
    }
    Ok(best)
}

#[test]
fn waits_grow_until_each_is_a_sleep(rt: HostRuntime) -> Result<(), Fail> {
    let idle = Idle::new();
    wait_often(&rt, &idle, SHORT + 4);
    // Eleven sleeps of a millisecond; the system may end one early.
    assert!(rt; shortest(&rt, &idle, false)? >= Duration::from_millis(5));
    Ok(())
}

#[test]
fn waits_are_short_again_after_a_reset(rt: HostRuntime) -> Result<(), Fail> {
    let idle = Idle::new();
    wait_often(&rt, &idle, SHORT + 4);
    assert!(rt; shortest(&rt, &idle, true)? < Duration::from_millis(1));
    Ok(())
}
