// The word that an add and a removal leave.
ghost use Rattle.std.specs.Prelude.{◌≡◌, ◌≤◌, ◌↔◌, ◌%◌, IsTrue};
ghost use Rattle.port_words.specs.busy.Queue.{IsQueueWord, period_of, bytes_of, fills, frees, added, taken};

use crate::busy::view::QueueLimits;

// MSGQ is period * PERIOD + bytes.
const PERIOD: u64 = 1 << 40;

/// The period of MSGQ.
pub fn msgq_period(word: u64) -> u64
    ensures { result ≡ period_of word }
{
    word / PERIOD
}

/// Whether the message queue is busy: its period is odd.
pub fn msgq_is_busy(word: u64) -> bool
    ensures { IsTrue result ↔ (period_of word % 2 ≡ 1) }
{
    word / PERIOD % 2 == 1
}

fn is_filled(limits: QueueLimits, word: u64, size: u64) -> bool
    requires { size ≤ 262143 }
    ensures { result ≡ fills limits word size }
{
    limits.on && (word / PERIOD % 2 == 0 && limits.high as u64 <= word % PERIOD + size)
}

fn is_freed(limits: QueueLimits, word: u64, size: u64) -> bool
    requires { size ≤ bytes_of word }
    ensures { result ≡ frees limits word size }
{
    word / PERIOD % 2 == 1 && word % PERIOD - size < limits.low as u64
}

/// The word after an add.
pub(crate) fn after_add(limits: QueueLimits, word: u64, size: u32) -> u64
    requires word { IsQueueWord limits word }
    requires small { size ≤ 262143 }
    ensures { result ≡ added limits word size }
{
    let size = size as u64;
    if is_filled(limits, word, size) {
        word + size + PERIOD
    } else {
        word + size
    }
}

/// The word after a removal.
pub(crate) fn after_removal(limits: QueueLimits, word: u64, size: u32) -> u64
    requires word { IsQueueWord limits word }
    requires within { size ≤ bytes_of word }
    ensures { result ≡ taken limits word size }
{
    let size = size as u64;
    if is_freed(limits, word, size) {
        word - size + PERIOD
    } else {
        word - size
    }
}
