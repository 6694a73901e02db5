// Bodies for the tests, and the seats of a run.
ghost use Rattle.std.specs.Prelude.{◌≡◌, ℕ, nat_eq, false, true, [], ◌∷◌, None, IfSome, IfOk};
ghost use Rattle.port_words.specs.over.Over.{HasNotStopped};
ghost use Rattle.port_sched.specs.Homes.{AreHomes};
ghost use Rattle.port_sched.specs.Lodging.{is_counted, has_finished};
ghost use Rattle.sched_tests.specs.Seats.{IsSeatOfTwo, IsSeatBack};

use port_sched::{Lodger, NoMemory, PortBody, ThreadJob, Turn};
use port_words::home::{HomeSeat, home};
use port_words::over::{OverSeat, over_word};
use run_queue::{RunSeat, run_queue};
use std::alloc::Global;
use std::sync::Wait;

/// A port with so many turns to make, of which the last finishes it. Its name is its number.
#[derive(Drop)]
pub struct Errand {
    pub port: u32,
    pub left: u32,
    pub memory: bool,
}

impl PortBody for Errand {
    ghost Name = { ℕ };

    ghost name = { λ errand. errand.port };

    ghost done = { λ errand. nat_eq errand.left 0 };

    fn turn<R: Wait>(&mut self, _rt: &R, _max: u32) -> Turn {
        if !self.memory {
            return Turn::NoMemory;
        }
        if self.left == 0 {
            return Turn::Idle;
        }
        self.left -= 1;
        if self.left == 0 {
            Turn::Idle
        } else {
            Turn::More
        }
    }

    fn is_finished(&self) -> bool {
        self.left == 0
    }
}

/// No other job.
#[derive(Drop)]
pub struct Nothing;

impl ThreadJob for Nothing {
    ghost can_run = { λ _. Unit {0} };

    ghost went = { λ _ _. Unit {0} };

    fn run<R: Wait>(&mut self, _rt: &R) {}
}

pub type ErrandHome = HomeSeat<Lodger<Errand>>;

/// An errand of three turns.
pub fn three_turns(port: u32, memory: bool) -> Errand {
    Errand {
        port,
        left: 3,
        memory,
    }
}

/// A counted seat of a new word OVER, and two others.
pub fn places(alloc: Global) -> Option<(OverSeat, OverSeat, OverSeat)>
    ensures counted { IfSome result (λ r. (is_counted r.0.known ≡ true) × (has_finished r.0.known ≡ false)) }
    ensures others { IfSome result (λ r. HasNotStopped r.1.known.places × HasNotStopped r.2.known.places) }
{
    let mut all = over_word(alloc, 1, 2).ok()?;
    let second = all.pop()?;
    let first = all.pop()?;
    let counted = all.pop()?;
    Some((counted, first, second))
}

/// The two seats of the home of an errand.
pub fn two_seats(
    alloc: Global,
    errand: Errand,
    port: u32,
    over: OverSeat,
) -> Option<(ErrandHome, ErrandHome)>
    requires counted { (is_counted over.known ≡ true) × (has_finished over.known ≡ false) }
    ensures { IfSome result (λ r. IsSeatOfTwo port r.0 × IsSeatOfTwo port r.1 × (r.1.home ≡ r.0.home)) }
{
    let Ok(mut all) = home(alloc, port, Lodger::new(errand, over), 2) else {
        return None;
    };
    let second = all.pop()?;
    let first = all.pop()?;
    Some((first, second))
}

/// The seats of two schedulers.
pub fn two_queues(alloc: Global) -> Option<(RunSeat, RunSeat)> {
    let (mut all, _) = run_queue(alloc, 2, 0).ok()?;
    let one = all.pop()?;
    let zero = all.pop()?;
    Some((zero, one))
}

/// The seats of the one port of a run.
pub fn one_home(alloc: Global, home: ErrandHome) -> Result<Vec<ErrandHome>, NoMemory>
    requires { (home.port ≡ 0) × (home.known.running ≡ None) }
    ensures { IfOk result (λ homes. (homes.items ≡ home ∷ []) × AreHomes homes.items) }
{
    let mut homes = Vec::new(alloc);
    homes.push(home)?;
    Ok(homes)
}

/// Queues the next turn in the deque of this seat.
pub fn queue(home: ErrandHome, run: RunSeat) -> Option<(ErrandHome, RunSeat)>
    requires { IsSeatOfTwo 0 home }
    ensures { IfSome result (λ r. IsSeatBack home r.0) }
{
    let mut home = home;
    let mut run = run;
    let ticket = home.schedule().ok()?;
    run.push(ticket).ok()?;
    Some((home, run))
}
