//! Which processes the driver watches, as flags by their numbers.
ghost use Rattle.std.specs.Prelude.{◌≡◌, ◌==◌, ◌<◌, ◌||◌, ◌∷◌, [], ℕ, false, true, List, length, slice_index_or};
ghost use Rattle.port_history.specs.Ties.{watched_by};
ghost use Rattle.port_service.specs.Callbacks.{is_flagged};
ghost use Rattle.port_service.specs.Serves.{Watches};

use port_model::{Effect, Sender};

/// Whether the driver is told of the end of this sender.
pub(crate) fn is_flagged(watched: &[bool], from: Sender) -> bool
    ensures { result ≡ is_flagged watched.now from }
{
    match from {
        Sender::Process(process) => watched.get(process as usize).copied().unwrap_or(false),
        Sender::Poller | Sender::Worker(_) | Sender::Timer => false,
    }
}

/// Notes that the driver watches a process, where there is such a process.
fn note_process(watched: &mut Vec<bool>, process: u32)
    ensures len { length watched.new.items ≡ length watched.old.items }
    ensures flags { (other : ℕ) → other < length watched.old.items
        → slice_index_or watched.new.items other false ≡ ((process == other) || slice_index_or watched.old.items other false) }
{
    let process = process as usize;
    if process < watched.len() {
        watched[process] = true;
    }
}

/// Notes the process that an effect asks to watch, if it does.
fn note_effect(watched: &mut Vec<bool>, effect: &Effect)
    ensures len { length watched.new.items ≡ length watched.old.items }
    ensures watches { (before : List ℕ) → Watches watched.old.items before → Watches watched.new.items (watched_by (effect.now ∷ []) before) }
{
    if let Effect::Watch(process) = effect {
        note_process(watched, *process);
    }
}

/// Notes which processes the driver asked to watch by these effects.
pub(crate) fn note_watches(watched: &mut Vec<bool>, effects: &[Effect])
    ensures len { length watched.new.items ≡ length watched.old.items }
    ensures watches { (before : List ℕ) → Watches watched.old.items before → Watches watched.new.items (watched_by effects.now before) }
{
    for effect in effects {
        note_effect(watched, effect);
    }
}
