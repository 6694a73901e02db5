//! The events that a driver holds.
ghost use Rattle.std.specs.Prelude.{◌≡◌, ◌≤◌, ◌∷◌, [], length, OnOk};
ghost use Rattle.driver_model.specs.Drivers.{held_by, is_held, with_event, without_event};

use port_driver::MAX_EVENTS;
use port_model::{Effect, NoMemory};
use std::alloc::Global;
use std::marker::Model;

/// The events that a driver holds, each once, in the order in which they were first used: at most 64.
#[derive(Drop)]
pub(crate) struct HeldEvents {
    events: Vec<u32>,
}

impl Model for HeldEvents {
    ghost use Rattle.std.specs.Prelude.{◌≤◌, ℕ, List, vec_len};

    ghost Value = { List ℕ };

    ghost view = { λ h. h.events.items };

    ghost invariant = { λ h. vec_len h.events ≤ 64 };
}

/// Whether the event is among these.
fn is_held(held: &[u32], event: u32) -> bool
    ensures { result ≡ is_held event held.now }
{
    held.iter().any(|other| *other == event)
}

impl HeldEvents {
    /// No event. It takes no memory.
    pub(crate) fn new(alloc: Global) -> HeldEvents
        ensures { result ≡ [] }
    {
        HeldEvents {
            events: Vec::new(alloc),
        }
    }

    pub(crate) fn as_slice(&self) -> &[u32]
        ensures events { result.now ≡ self.now }
        ensures few { length result.now ≤ 64 }
    {
        self.events.as_slice()
    }

    /// Takes in an event that is used.
    fn hold(&mut self, event: u32) -> Result<(), NoMemory>
        ensures { OnOk result (self.new ≡ with_event event self.old) }
    {
        if is_held(self.events.as_slice(), event) {
            return Ok(());
        }
        if self.events.len() >= MAX_EVENTS {
            return Err(NoMemory);
        }
        self.events.push(event)?;
        Ok(())
    }

    /// Takes out an event that is given up.
    fn give_up(&mut self, event: u32)
        ensures { self.new ≡ without_event event self.old }
    {
        self.events.retain(|other| *other != event);
    }

    /// Takes in what an effect does to the events.
    fn note_effect(&mut self, effect: &Effect) -> Result<(), NoMemory>
        ensures { OnOk result (self.new ≡ held_by (effect.now ∷ []) self.old) }
    {
        match effect {
            Effect::Select { event, .. } => self.hold(*event),
            Effect::Unuse(event) => {
                self.give_up(*event);
                Ok(())
            }
            _ => Ok(()),
        }
    }

    /// Takes in what these effects do to the events.
    pub(crate) fn note(&mut self, effects: &[Effect]) -> Result<(), NoMemory>
        ensures { OnOk result (self.new ≡ held_by effects.now self.old) }
    {
        for effect in effects {
            self.note_effect(effect)?;
        }
        Ok(())
    }
}
