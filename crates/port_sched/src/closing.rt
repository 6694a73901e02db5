// The end of a run: the seats of all schedulers are joined, and the homes are closed.
ghost use Rattle.std.specs.Prelude.{◌≡◌, ◌+◌, ◌<◌, ◌≤◌, List, [], ◌∷◌, ◌++◌, length, slice_get, Some, vec_len, vec_capacity, All};
ghost use Rattle.port_words.specs.home.Seats.{HomeKnown};
ghost use Rattle.port_words.specs.over.Over.{over_known, joined as joined_places};
ghost use Rattle.run_queue.specs.Seats.{changed_at, AreOfOneQueue, joined_entry, joined_seat};
ghost use Rattle.port_sched.specs.Closing.{joined_home, joined_homes, CanJoinHome, CanJoinHomes, IsWhole, AreLastBodies};

use crate::body::PortBody;
use crate::lodger::Lodger;
use crate::scheduling::SchedSeats;
use crate::waking::JobSeats;
use port_words::home::{HomeSeat, Lodged};

// Takes in a seat of the home of this port.
fn join_at<B: Lodged>(homes: &mut Vec<HomeSeat<B>>, port: usize, other: HomeSeat<B>)
    requires join { (s : HomeKnown B) → slice_get homes.old.items port ≡ Some s → CanJoinHome s other }
    requires exists { port < length homes.old.items }
    ensures { homes.new.items ≡ changed_at (λ s. joined_home s other) port homes.old.items }
{
    homes[port].join(other);
}

/// Takes in the seats that another job has of the same homes, in the order of ports.
pub fn join_homes<B: Lodged>(homes: &mut Vec<HomeSeat<B>>, mut others: Vec<HomeSeat<B>>)
    requires { CanJoinHomes homes.old.items others.items }
    ensures { homes.new.items ≡ joined_homes homes.old.items others.items }
{
    'homes: while let Some(other) = others.pop() {
        join_at(homes, others.len(), other);
    }
}

// A push that has room.
fn add<B: Drop>(bodies: &mut Vec<B>, body: B)
    requires { vec_len bodies.old < vec_capacity bodies.old }
    ensures items { bodies.new.items ≡ bodies.old.items ++ body ∷ [] }
    ensures len { vec_len bodies.new ≡ vec_len bodies.old + 1 }
    ensures capacity { vec_capacity bodies.old ≤ vec_capacity bodies.new }
{
    if bodies.push(body).is_err() {
        unreachable!();
    }
}

/// Closes the homes, of which all other seats were joined into these, and puts each one's body behind the bodies, in the order of ports. There has to be room for
/// them, so that no body is lost for want of memory.
pub fn close_homes<B: Lodged>(homes: Vec<HomeSeat<B>>, bodies: &mut Vec<B>)
    requires whole { All IsWhole homes.items }
    requires room { vec_len bodies.old + vec_len homes ≤ vec_capacity bodies.old }
    ensures { (last : List B) × (bodies.new.items ≡ bodies.old.items ++ last) × AreLastBodies B.name homes.items last }
{
    'homes: for home in homes {
        add(bodies, home.close_home());
    }
}

impl<B: PortBody> SchedSeats<B> {
    /// Takes in the seats of another scheduler of the same run.
    pub fn join(&mut self, other: SchedSeats<B>)
        requires homes { CanJoinHomes self.old.homes.items other.homes.items }
        requires run { AreOfOneQueue self.old.run other.run }
        requires over { other.over.word ≡ self.old.over.word }
        ensures homes { self.new.homes.items ≡ joined_homes self.old.homes.items other.homes.items }
        ensures run { self.new.run ≡ joined_seat self.old.run other.run }
        ensures over { self.new.over ≡ over_known self.old.over.word (joined_places self.old.over.known other.over.known) }
    {
        let SchedSeats { homes, run, over } = other;
        join_homes(&mut self.homes, homes);
        self.run.join(run);
        self.over.join(over);
    }

    /// Takes in the seats of a job beside the schedulers of the same run.
    pub fn join_job(&mut self, job: JobSeats<B>)
        requires homes { CanJoinHomes self.old.homes.items job.homes.items }
        requires entry { job.entry.injector ≡ self.old.run.entry.injector }
        ensures homes { self.new.homes.items ≡ joined_homes self.old.homes.items job.homes.items }
        ensures run { self.new.run ≡ record self.old.run { entry = joined_entry self.old.run.entry job.entry } }
        ensures over { self.new.over ≡ self.old.over }
    {
        let JobSeats {
            homes: theirs,
            entry,
            refused: _,
        } = job;
        join_homes(&mut self.homes, theirs);
        self.run.join_entry(entry);
    }
}
