ghost use Rattle.std.specs.Prelude.{◌≡◌, true, false};
ghost use Rattle.port_sched.specs.Lodging.{is_counted, has_finished, Told};

use crate::body::{PortBody, Turn};
use port_words::home::Lodged;
use port_words::over::OverSeat;
use std::sync::Wait;

/// A body beside its port's counted seat of OVER, as they stand at home.
#[derive(Drop)]
pub struct Lodger<B: PortBody> {
    pub body: B,
    over: OverSeat,
    told: bool,
    ghost counted: { is_counted over.known ≡ true },
    ghost told_is: { told ≡ has_finished over.known },
    ghost finished: { told ≡ true → B.done body ≡ true },
}

impl<B: PortBody> Lodged for Lodger<B> {
    ghost use Rattle.atomic_table.specs.Seated.{TableId};

    ghost Name = { B.Name × TableId };

    ghost name = { λ l. (B.name l.body, l.over.word) };
}

impl<B: PortBody> Lodger<B> {
    /// A body with its seat, which hasn't finished.
    pub fn new(body: B, over: OverSeat) -> Lodger<B>
        requires counted { is_counted over.known ≡ true }
        requires waits { has_finished over.known ≡ false }
        ensures { (result.body ≡ body) × (result.over ≡ over) × (result.told ≡ false) }
    {
        Lodger {
            body,
            over,
            told: false,
        }
    }

    /// Makes at most `max` steps. The turn that makes the body finished tells it to OVER, and no other turn does.
    pub fn turn<R: Wait>(&mut self, rt: &R, max: u32) -> Turn
        ensures name { B.name self.new.body ≡ B.name self.old.body }
        ensures word { self.new.over.word ≡ self.old.over.word }
        ensures tells { B.done self.new.body ≡ true → self.new.told ≡ true }
        ensures once { Told self.old.told self.new.told self.old.over self.new.over }
    {
        let turn = self.body.turn(rt, max);
        if !self.told && self.body.is_finished() {
            self.over.finished();
            self.told = true;
        }
        turn
    }
}
