use crate::{Idle, Waiter};
use std::sync::Wait;
use std::thread::join;
use std::time::Duration;

// A sleep that nobody ends takes longer than a test may take.
fn too_long() -> Duration {
    Duration::from_secs(1_000)
}

// Announces a wait, and sleeps until it is woken.
fn sleep_at<R: Wait>(rt: &R, waiter: &Waiter) {
    waiter.announce();
    waiter.sleep(rt, too_long());
}

// Waits so often by an `Idle` that hasn't grown yet.
fn wait_at<R: Wait>(rt: &R, waiter: &Waiter, times: u32) {
    let idle = Idle::new();
    for _ in 0..times {
        idle.wait_at(rt, waiter);
    }
}

// Wakes the thread that waits, as soon as there is one.
fn wake_soon<R: Wait>(rt: &R, waiter: &Waiter) {
    for _ in rt.forever() {
        if waiter.wake() {
            return;
        }
    }
}

#[test]
fn a_wake_up_where_nobody_waits_is_told(rt: HostRuntime) {
    let waiter = Waiter::new();
    assert!(rt; !waiter.wake());
}

#[test]
fn a_wait_is_announced_once(rt: HostRuntime) {
    let waiter = Waiter::new();
    let first = waiter.announce();
    let second = waiter.announce();
    assert!(rt; first && !second);
}

#[test]
fn a_wake_up_before_the_sleep_ends_it(rt: HostRuntime) {
    let waiter = Waiter::new();
    waiter.announce();
    let was_woken = waiter.wake();
    waiter.sleep(&rt, too_long());
    assert!(rt; was_woken && !waiter.wake());
}

#[test]
fn a_wake_up_ends_the_sleep_of_another_thread(rt: HostRuntime) {
    let waiter = Waiter::new();
    join(&rt, || sleep_at(&rt, &waiter), || wake_soon(&rt, &waiter));
    assert!(rt; !waiter.wake());
}

#[test]
fn an_idle_announces_that_it_will_sleep(rt: HostRuntime) {
    let waiter = Waiter::new();
    // Eleven waits spin and yield, two sleep for a short time, and the next one announces a longer sleep.
    wait_at(&rt, &waiter, 14);
    assert!(rt; waiter.wake());
}
