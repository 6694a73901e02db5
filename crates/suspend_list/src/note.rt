ghost use Rattle.std.specs.Prelude.{◌≡◌, ◌↔◌, false};
ghost use Rattle.suspend_list.specs.Notes.{MustWait};

use port_words::busy::{msgq_is_busy, msgq_period, stat_closed};

/// What a suspended process keeps: the port, the number of its command there, from 0, and the MSGQ word that this command left.
#[derive(Debug, Clone, Copy, PartialEq, Eq)]
pub struct StopNote {
    pub port: u32,
    pub seq: u64,
    pub msgq: u64,
}

/// Whether a suspended process may go on, by the words MSGQ and STAT as they are now.
pub fn may_go(note: &StopNote, msgq: u64, stat: u64) -> bool
    ensures { (result ≡ false) ↔ MustWait note.now msgq stat }
{
    msgq_period(msgq) != msgq_period(note.msgq) || !msgq_is_busy(msgq) || stat_closed(stat)
}
