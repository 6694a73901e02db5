// The refusals that need no look at the port.
ghost use Rattle.std.specs.Prelude.{◌≡◌, ℕ, None, IfNone, IfSome};
ghost use Rattle.process_receipts.specs.Asks.{asked, is_gone};
ghost use Rattle.process_receipts.specs.Receipts.{HasCause, MayLook};

use port_model::Signal;
use process_receipts::{How, Outcome, Receipt};

/// The most calls that a process makes.
pub(crate) const MOST_CALLS: u64 = 131_072;

/// The most bytes of data of one signal.
const MOST_BYTES: u64 = 262_143;

fn is_gone(signal: &Signal) -> bool
    ensures { result ≡ is_gone signal.now }
{
    matches!(signal, Signal::Gone(_))
}

/// Why a call is refused before it looks at its port, after so many calls of its process.
pub(crate) fn refusal(calls: u64, soft: bool, signal: &Signal, how: How) -> Option<Outcome>
    ensures none { IfNone result ((line port : ℕ) → MayLook calls soft (asked line port signal.now how)) }
    ensures some { IfSome result (λ outcome. (line port : ℕ) → HasCause calls soft (asked line port signal.now how) outcome None None) }
{
    if calls >= MOST_CALLS && !is_gone(signal) {
        Some(Outcome::SentOut)
    } else if signal.size() > MOST_BYTES {
        Some(Outcome::TooLong)
    } else if how.is_forcing() && !soft {
        Some(Outcome::NotSupported)
    } else {
        None
    }
}

/// The receipt of a call that didn't look at its port.
pub(crate) fn refused_receipt(line: u32, port: u32, outcome: Outcome) -> Receipt
    ensures { result ≡ record { line = line; port = port; seq = None; stat = None; msgq = None; outcome = outcome } }
{
    Receipt {
        line,
        port,
        seq: None,
        stat: None,
        msgq: None,
        outcome,
    }
}
