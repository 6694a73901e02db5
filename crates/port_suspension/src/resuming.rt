ghost use Rattle.std.specs.Prelude.{◌≡◌, ◌||◌, not};
ghost use Rattle.port_history.specs.Suspension.{is_queue_busy};

use port_words::busy::msgq_is_busy;

/// Whether the first listed process may be resumed, where one load found this word in MSGQ: the port isn't open, or it is not
/// busy and its message queue isn't either.
pub fn may_resume(word: u64, is_open: bool, is_busy: bool) -> bool
    ensures { result ≡ (not is_open || not (is_busy || is_queue_busy word)) }
{
    !is_open || !(is_busy || msgq_is_busy(word))
}
