//! The ends of lanes that are given back.
ghost use Rattle.std.specs.Prelude.{◌≡◌, ◌<◌, length, slice_index_or, slice_set};
ghost use Rattle.port_body.specs.Body.{BodyView};
ghost use Rattle.closed_ports.specs.Ends.{AreOfBodies, TakeEndsIn, with_end};

use crate::{Body, Driver, Parcel};
use task_queue::SendEnd;

// Takes in an end of the lane of the port at a place.
fn take_in_at<D: Driver>(bodies: &mut Vec<Body<D>>, port: usize, end: SendEnd<Parcel>)
    requires place { port < length bodies.old.items }
    requires lane { (v : BodyView) → end.lane ≡ (slice_index_or bodies.old.items port v).lane_port.lane.lane }
    ensures { (v : BodyView) → bodies.new.items ≡ slice_set bodies.old.items port (with_end (slice_index_or bodies.old.items port v) end) }
{
    bodies[port].take_in(end);
}

/// Takes in one end of each port's lane, in the order of the ports: what a process, a worker or the poller gives back. It takes no memory.
pub fn take_in_ends<D: Driver>(bodies: &mut Vec<Body<D>>, ends: Vec<SendEnd<Parcel>>)
    requires { AreOfBodies bodies.old.items ends.items }
    ensures { TakeEndsIn bodies.old.items ends.items bodies.new.items }
{
    let mut port = 0;
    'ends: for end in ends {
        take_in_at(bodies, port, end);
        port += 1;
    }
}
