use crate::checks::is_right;
use std::alloc::Global;
use std::snapshot::Snapshot;
use std::sync::Wait;
use task_queue::{Fits, lane};

// Every value fits.
#[derive(Drop)]
struct EmptyValue;

impl Fits for EmptyValue {
    type Key = ();

    ghost fits = { λ key number value. Unit {0} };
}

// Whether a put wakes the taker that announced a wait: then nobody waits any more.
fn put_wakes<R: Wait>(rt: &R, alloc: Global) -> bool {
    let Ok((mut end, taker)) = lane::<EmptyValue>(alloc, Snapshot::of(&())) else {
        return false;
    };
    let is_announced = taker.waiter().announce();
    let is_put = end.put(rt, EmptyValue).is_ok();
    is_announced && is_put && !taker.waiter().wake()
}

#[test]
fn a_put_wakes_the_taker_that_waits(rt: HostRuntime) {
    is_right(&rt, put_wakes(&rt, rt.alloc()));
}
