//! The effects of a callback, as they select events and give them up.
ghost use Rattle.std.specs.Prelude.{◌≡◌, ◌∷◌, [], OnOk, IfErr};
ghost use Rattle.port_history.specs.Events.{give_up};
ghost use Rattle.port_events.specs.Table.{KeepsEnd};
ghost use Rattle.port_events.specs.Asks.{drop_asks};
ghost use Rattle.port_events.specs.Parts.{Does, HasNoRoom, following, one, back_now};

use crate::{Dir, Effect, EventFault, NoMemory, PollAsk, PortEvents};
use ready_select::Unused;
use std::sync::Wait;

impl PortEvents {
    /// Gives the event up. The poller is to drop it where it is held and armed, and it is given back at once where it isn't armed.
    pub(crate) fn give_up<R: Wait>(
        &mut self,
        rt: &R,
        event: u32,
        given_back: &mut Vec<u32>,
    ) -> Result<(), NoMemory>
        ensures ok { OnOk result (Does (one give_up (drop_asks self.old.port) back_now event) self.old self.new given_back.old.items given_back.new.items) }
        ensures same { KeepsEnd self.old self.new }
    {
        let waits = self.events.is_waiting(event);
        let drop = PollAsk::Drop {
            port: self.port(),
            event,
        };
        match self.events.give_up(event) {
            Unused::Now => given_back.push(event)?,
            Unused::Later if waits => {}
            Unused::Later => self.ask(rt, drop)?,
        }
        Ok(())
    }

    /// Turns a selection on or off.
    fn select(&mut self, event: u32, dir: Dir, on: bool) -> Result<(), EventFault>
        ensures ok { OnOk result (Does (following self.old.port (Effect.Select event dir on ∷ [])) self.old self.new [] []) }
        ensures fault { IfErr result (λ fault. fault ≡ EventFault.NoRoom) }
        ensures room { IfErr result (λ fault. HasNoRoom (following self.old.port (Effect.Select event dir on ∷ [])) self.old) }
        ensures same { KeepsEnd self.old self.new }
    {
        if self.events.select(event, dir, on).is_err() {
            return Err(EventFault::NoRoom);
        }
        Ok(())
    }

    fn follow_effect<R: Wait>(
        &mut self,
        rt: &R,
        effect: &Effect,
        given_back: &mut Vec<u32>,
    ) -> Result<(), EventFault>
        ensures ok { OnOk result (Does (following self.old.port (effect.now ∷ [])) self.old self.new given_back.old.items given_back.new.items) }
        ensures room { IfErr result (λ fault. fault ≡ EventFault.NoRoom → HasNoRoom (following self.old.port (effect.now ∷ [])) self.old) }
        ensures same { KeepsEnd self.old self.new }
    {
        match effect {
            Effect::Select { event, dir, on } => self.select(*event, *dir, *on)?,
            Effect::Unuse(event) => self.give_up(rt, *event, given_back)?,
            _ => {}
        }
        Ok(())
    }

    /// Follows the effects of a callback, and appends the events that are given back at once.
    #[inline(always)]
    pub(crate) fn follow<R: Wait>(
        &mut self,
        rt: &R,
        effects: &[Effect],
        given_back: &mut Vec<u32>,
    ) -> Result<(), EventFault>
        ensures ok { OnOk result (Does (following self.old.port effects.now) self.old self.new given_back.old.items given_back.new.items) }
        ensures room { IfErr result (λ fault. fault ≡ EventFault.NoRoom → HasNoRoom (following self.old.port effects.now) self.old) }
        ensures same { KeepsEnd self.old self.new }
    {
        for effect in effects {
            self.follow_effect(rt, effect, given_back)?;
        }
        Ok(())
    }
}
