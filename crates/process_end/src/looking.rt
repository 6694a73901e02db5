// Looks at the words of a port, which have no receipt.
ghost use Rattle.std.specs.Prelude.{◌≡◌, ◌≢◌, ◌<◌, ℕ, length, slice_index_or};
ghost use Rattle.port_words.specs.busy.Known.{SendKnown};
ghost use Rattle.process_end.specs.Steps.{looked, Looks};
ghost use Rattle.process_end.specs.Looked.{FindsWords, HasFoundWords, HasLookedAt};

use crate::sides::Sides;
use port_words::busy::SendSeat;

/// The STAT word of a port.
fn look_at(seats: &mut Vec<SendSeat>, port: u32) -> u64
    requires { port < length seats.old.items }
    ensures same { (k : ℕ) (d : SendKnown) → k ≢ port → slice_index_or seats.new.items k d ≡ slice_index_or seats.old.items k d }
    ensures many { length seats.new.items ≡ length seats.old.items }
    ensures seat { (d : SendKnown) → slice_index_or seats.new.items port d ≡ looked (slice_index_or seats.old.items port d) result }
    ensures looks { (d : SendKnown) → Looks (slice_index_or seats.old.items port d) result }
{
    let seat = &mut seats[port as usize];
    seat.look()
}

/// The words MSGQ and STAT, in this order.
fn find_words(seat: &mut SendSeat) -> (u64, u64)
    ensures { FindsWords seat.old seat.new result.0 result.1 }
{
    let msgq = seat.look_msgq();
    let stat = seat.look();
    (msgq, stat)
}

/// The words MSGQ and STAT of a port, in this order.
fn find_words_at(seats: &mut Vec<SendSeat>, port: u32) -> (u64, u64)
    requires { port < length seats.old.items }
    ensures same { (k : ℕ) (d : SendKnown) → k ≢ port → slice_index_or seats.new.items k d ≡ slice_index_or seats.old.items k d }
    ensures many { length seats.new.items ≡ length seats.old.items }
    ensures finds { (d : SendKnown) → FindsWords (slice_index_or seats.old.items port d) (slice_index_or seats.new.items port d) result.0 result.1 }
{
    let seat = &mut seats[port as usize];
    find_words(seat)
}

impl Sides {
    /// The STAT word of a port.
    pub(crate) fn look(&mut self, port: u32) -> u64
        requires { port < length self.old.lanes }
        ensures { HasLookedAt port self.old self.new result }
    {
        look_at(&mut self.seats, port)
    }

    /// The words MSGQ and STAT of a port, in this order.
    pub(crate) fn find_words(&mut self, port: u32) -> (u64, u64)
        requires { port < length self.old.lanes }
        ensures { HasFoundWords port self.old self.new result.0 result.1 }
    {
        find_words_at(&mut self.seats, port)
    }
}
