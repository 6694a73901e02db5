//! Which signals a sender may send.
ghost use Rattle.std.specs.Prelude.{◌≡◌};
ghost use Rattle.port_history.specs.Laws.{may_send, poller_sends, worker_sends};

use crate::{Sender, Signal};

fn poller_sends(signal: &Signal) -> bool
    ensures { result ≡ poller_sends signal.now }
{
    matches!(signal, Signal::Ready { .. } | Signal::Dropped(_))
}

fn worker_sends(signal: &Signal) -> bool
    ensures { result ≡ worker_sends signal.now }
{
    matches!(signal, Signal::AsyncDone { .. })
}

/// Whether the sender may send the signal.
pub(crate) fn may_send(from: Sender, signal: &Signal) -> bool
    ensures { result ≡ may_send from signal.now }
{
    match from {
        Sender::Process(_) => !(poller_sends(signal) || worker_sends(signal)),
        Sender::Poller => poller_sends(signal),
        Sender::Worker(_) => worker_sends(signal),
        Sender::Timer => false,
    }
}
