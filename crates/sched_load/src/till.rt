ghost use Rattle.std.specs.Prelude.{◌≡◌, ℕ, nat_eq};

use port_sched::{PortBody, Turn};
use std::sync::Wait;
use task_queue::{Fits, Item, TakeEnd};

/// What a job puts for a port.
#[derive(Clone, Copy, Debug, Drop)]
pub struct Number(pub u64);

impl Fits for Number {
    type Key = ();

    ghost fits = { λ _ _ _. Unit {0} };
}

/// A port that takes numbers, and has finished once none is left to come. Its name is its number.
#[derive(Drop)]
pub struct Till {
    port: u32,
    lane: TakeEnd<Number>,
    left: u64,
    /// By sender, the number that has to come next.
    next: Vec<u64>,
    amiss: bool,
}

impl Till {
    /// A port that took nothing yet, and waits for so many numbers in all. There is an entry for each sender, which sends from 0 on.
    pub fn new(port: u32, lane: TakeEnd<Number>, left: u64, next: Vec<u64>) -> Till {
        Till {
            port,
            lane,
            left,
            next,
            amiss: false,
        }
    }

    /// Whether it took each number of each sender once, in the order from 0, and so many of each.
    pub fn took_each_once(&self, numbers: u64) -> bool {
        !self.amiss && self.left == 0 && self.next.iter().all(|next| *next == numbers)
    }

    // Takes a number in.
    fn note(&mut self, item: Item<Number>)
        ensures port { self.new.port ≡ self.old.port }
        ensures left { self.old.left ≡ 0 → self.new.left ≡ 0 }
    {
        self.left = self.left.saturating_sub(1);
        match self.next.get_mut(item.sender as usize) {
            Some(next) if *next == item.value.0 => *next = next.wrapping_add(1),
            _ => self.amiss = true,
        }
    }
}

impl PortBody for Till {
    ghost Name = { ℕ };

    ghost name = { λ till. till.port };

    ghost done = { λ till. nat_eq till.left 0 };

    fn turn<R: Wait>(&mut self, rt: &R, max: u32) -> Turn {
        'steps: for _ in 0..max {
            match self.lane.take(rt) {
                Some(item) => self.note(item),
                None => return Turn::Idle,
            }
        }
        Turn::More
    }

    fn is_finished(&self) -> bool {
        self.left == 0
    }
}
