//! What is counted in the receipts of a process.
ghost use Rattle.std.specs.Prelude.{◌≡◌};
ghost use Rattle.process_receipts.specs.Asks.{is_suspended};
ghost use Rattle.process_receipts.specs.Counts.{is_dropped};
ghost use Rattle.run_report.specs.Processes.{dropped_receipts, suspended_receipts};

use process_receipts::{Outcome, Receipt};

/// How many receipts are of a dropped command.
pub(crate) fn dropped_receipts(receipts: &[Receipt]) -> usize
    ensures { result ≡ dropped_receipts receipts.now }
{
    receipts
        .iter()
        .filter(|receipt| is_dropped(receipt.outcome))
        .count()
}

/// How many receipts are of a command that suspended the process.
pub(crate) fn suspended_receipts(receipts: &[Receipt]) -> usize
    ensures { result ≡ suspended_receipts receipts.now }
{
    receipts
        .iter()
        .filter(|receipt| is_suspended(receipt.outcome))
        .count()
}

fn is_dropped(outcome: Outcome) -> bool
    ensures { result ≡ is_dropped outcome }
{
    matches!(outcome, Outcome::Dropped)
}

fn is_suspended(outcome: Outcome) -> bool
    ensures { result ≡ is_suspended outcome }
{
    matches!(outcome, Outcome::Suspended)
}
