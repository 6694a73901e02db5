//! The turns that the ports make once nobody sends any more.
ghost use Rattle.std.specs.Prelude.{◌≡◌, All, true, false};
ghost use Rattle.port_body.specs.Body.{name_of};
ghost use Rattle.port_body.specs.LanePort.{IsSameLanePort};
ghost use Rattle.closed_ports.specs.Settling.{AreSettled, AreSamePorts, IsAtRest, IsSettled, IsUnsettled, SomeIsUnsettled};

use crate::{Body, Driver};
use port_body::Turn;
use std::sync::Wait;

// How many steps a turn makes at most.
const STEPS: u32 = 64;

/// Makes turns until one finds no task that may go and the lane empty, or no memory. Answers whether the port has finished, and isn't broken.
pub fn settle<D: Driver, R: Wait>(rt: &R, body: &mut Body<D>) -> bool
    ensures name { name_of body.new ≡ name_of body.old }
    ensures same { IsSameLanePort body.old.lane_port body.new.lane_port }
    ensures settled { result ≡ true → IsSettled body.new }
    ensures unsettled { result ≡ false → IsUnsettled body.new }
{
    for _ in rt.forever() {
        match body.turn(rt, STEPS) {
            Turn::More => {}
            Turn::Idle => return body.is_finished(),
            Turn::NoMemory => return false,
        }
    }
    unreachable!()
}

/// Settles each port, the first one first. Answers whether all have finished, and none is broken. A port that hasn't doesn't keep the later ones from it.
pub fn settle_all<D: Driver, R: Wait>(rt: &R, bodies: &mut Vec<Body<D>>) -> bool
    ensures same { AreSamePorts bodies.old.items bodies.new.items }
    ensures rest { All IsAtRest bodies.new.items }
    ensures settled { result ≡ true → AreSettled bodies.new.items }
    ensures unsettled { result ≡ false → SomeIsUnsettled bodies.new.items }
{
    let mut all = true;
    'ports: for port in 0..bodies.len() {
        if !settle(rt, &mut bodies[port]) {
            all = false;
        }
    }
    all
}
