// The end of a run: its homes are closed, and its bodies come home.
ghost use Rattle.std.specs.Prelude.{◌≡◌, ◌≤◌, [], length, map, vec_capacity};
ghost use Rattle.ticket_account.specs.Run.{HasRun};
ghost use Rattle.run_seats.specs.Homing.{IsHomeRoom, KeepTheirNames};

use crate::adding::add;
use port_sched::{JobSeats, Lodger, PortBody, Scheduler, close_homes};
use std::sync::Wait;
use ticket_account::gather;

/// Empty lists with room for the bodies of a run.
#[derive(Drop)]
pub struct HomeRoom<B: PortBody> {
    pub lodgers: Vec<Lodger<B>>,
    pub bodies: Vec<B>,
}

// The bodies without their seats of OVER.
fn bodies_of<B: PortBody>(lodgers: Vec<Lodger<B>>, room: Vec<B>) -> Vec<B>
    requires empty { room.items ≡ [] }
    requires room { length lodgers.items ≤ vec_capacity room }
    ensures { result.items ≡ map (λ l. l.body) lodgers.items }
{
    let mut all = room;
    'lodgers: for lodger in lodgers {
        add(&mut all, lodger.body);
    }
    all
}

/// The bodies of a run that is over, out of their homes, in the order of ports. It takes no memory.
pub fn bring_home<B: PortBody, R: Wait>(
    rt: &R,
    schedulers: Vec<Scheduler<B>>,
    jobs: Vec<JobSeats<B>>,
    room: HomeRoom<B>,
) -> Vec<B>
    requires { (run : HasRun schedulers.items jobs.items) × IsHomeRoom (length run.opened.bodies) room }
    ensures { (run : HasRun schedulers.items jobs.items) → KeepTheirNames B.name run.opened.bodies result.items }
{
    let HomeRoom {
        mut lodgers,
        bodies,
    } = room;
    let homes = gather(rt, schedulers, jobs);
    close_homes(homes, &mut lodgers);
    bodies_of(lodgers, bodies)
}
