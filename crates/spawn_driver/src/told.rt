//! What the answers of a row tell of a program.
ghost use Rattle.std.specs.Prelude.{◌≡◌, ◌≤◌, ◌∷◌, ℕ, true, false, length, MatchOption, OnOk};
ghost use Rattle.port_signal.specs.declared.outside.Outside.TheVariants as said;
ghost use Rattle.driver_model.specs.Calls.{ReadyInput};
ghost use Rattle.driver_model.specs.Spawn.{answers_fetch};
ghost use Rattle.spawn_driver.specs.Recorded.{Adds};
ghost use Rattle.spawn_driver.specs.Steps.{answers_to};
ghost use Rattle.spawn_driver.specs.Told.{GoesOnBy, fetch_answers};

use crate::kept::Kept;
use outside::StatusGot;
use port_driver::DriverCtx;
use port_model::{Effect, NoMemory, Outside, Piece};
use std::alloc::Global;

/// The most bytes of one fetch.
pub(crate) const MOST_FETCHED: usize = 65_536;

/// What one fetch was answered.
#[derive(Clone, Copy)]
pub(crate) enum ToldFetch<'a> {
    Got(&'a Piece),
    Again,
    Failed,
    /// The program's output ended, and this was answered where its status was asked for.
    End(Option<StatusGot>),
}

/// What was answered to a question for the status, which is asked or not. There is none where the answers aren't those to it.
fn told_status(answers: &[Outside], asks: bool) -> Option<Option<StatusGot>>
    ensures { MatchOption result (answers_fetch asks (said.End ∷ answers.now) ≡ false) (λ status. (answers_fetch asks (said.End ∷ answers.now) ≡ true) × (answers.now ≡ answers_to status)) }
{
    if !asks {
        return if answers.is_empty() { Some(None) } else { None };
    }
    let [answer] = answers else {
        return None;
    };
    match answer {
        Outside::Status(status) => Some(Some(StatusGot::Ended(*status))),
        Outside::Failed => Some(Some(StatusGot::Failed)),
        _ => None,
    }
}

/// What was answered to a fetch, and behind the end of the output to a question for the status, where it is asked. There is none where the
/// answers aren't those to it.
pub(crate) fn told_fetch(answers: &[Outside], asks: bool) -> Option<ToldFetch<'_>>
    ensures { MatchOption result (answers_fetch asks answers.now ≡ false) (λ told. (answers_fetch asks answers.now ≡ true) × (answers.now ≡ fetch_answers told)) }
{
    let [first, others @ ..] = answers else {
        return None;
    };
    match first {
        Outside::End => Some(ToldFetch::End(told_status(others, asks)?)),
        _ if !others.is_empty() => None,
        Outside::Got(bytes) if !bytes.is_empty() && bytes.len() <= MOST_FETCHED => Some(
            ToldFetch::Got(bytes),
        ),
        Outside::Again => Some(ToldFetch::Again),
        Outside::Failed => Some(ToldFetch::Failed),
        _ => None,
    }
}

impl Kept {
    /// Does what a fetch that was answered so asks for.
    pub(crate) fn follow(
        &mut self,
        alloc: Global,
        ctx: &mut DriverCtx,
        told: &ToldFetch<'_>,
        row: &[Effect],
    ) -> Result<(), NoMemory>
        requires told { answers_fetch self.old.config.exit_status (fetch_answers told.now) ≡ true }
        requires effects { length ctx.old.effects ≤ 524288 }
        ensures ok { OnOk result ((event : ℕ) → GoesOnBy (ReadyInput event) (fetch_answers told.now) row.now self.old self.new ctx.old ctx.new) }
        ensures adds { Adds 131000 ctx.old ctx.new }
    {
        match *told {
            ToldFetch::Got(bytes) => self.take_as_told(alloc, ctx, bytes, row),
            ToldFetch::Again => Ok(()),
            ToldFetch::Failed => self.give_up(ctx),
            ToldFetch::End(status) => self.tell_end(ctx, status),
        }
    }
}
