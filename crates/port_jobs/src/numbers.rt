//! Whether the jobs of a row are the next ones of their port.
ghost use Rattle.std.specs.Prelude.{◌≡◌, ◌==◌, ◌&&◌, ◌+◌, ◌<◌, ◌≤◌, ◌^◌, ◌∷◌, List, false, IfSome, IfNone};
ghost use Rattle.port_model.specs.declared.effect.Effect.{Effect as EffectView};
ghost use Rattle.port_jobs.specs.Jobs.{are_next, is_code};

use port_model::Effect;

/// Whether a job has the number at this place behind `first`, and the code of a job.
fn is_next(first: u64, place: u64, number: u64, code: u8) -> bool
    ensures { result ≡ ((number == first + place) && is_code code) }
{
    number.checked_sub(first) == Some(place) && (1..=3).contains(&code)
}

/// The place of the job after those of this effect, whose jobs are to begin at `place`. None where they aren't the next ones.
fn place_after(first: u64, place: u64, effect: &Effect) -> Option<u64>
    requires { place < 2 ^ 63 }
    ensures some { IfSome result (λ after. (after ≤ place + 1) × ((rest : List EffectView) → are_next (first + place) (effect.now ∷ rest) ≡ are_next (first + after) rest)) }
    ensures none { IfNone result ((rest : List EffectView) → are_next (first + place) (effect.now ∷ rest) ≡ false) }
{
    match effect {
        Effect::Async { number, code, .. } => if is_next(first, place, *number, *code) {
            Some(place + 1)
        } else {
            None
        },
        _ => Some(place),
    }
}

/// Whether the jobs of these effects have the numbers from `first` on, and codes of jobs.
pub(crate) fn are_next(first: u64, effects: &[Effect]) -> bool
    ensures { result ≡ are_next first effects.now }
{
    let mut place = 0;
    for effect in effects {
        match place_after(first, place, effect) {
            Some(after) => place = after,
            None => return false,
        }
    }
    true
}
