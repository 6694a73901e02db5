// The end of a process.
ghost use Rattle.std.specs.Prelude.{◌<◌, IfOk};
ghost use Rattle.port_sched.specs.Homes.{AreHomes};
ghost use Rattle.port_words.specs.over.Over.{HasToFinish};
ghost use Rattle.process_end.specs.Ended.{HasEnded};
ghost use Rattle.process_job.specs.Seats.{SeatsAfter, SeatsAtEnd};

use crate::halt::Halt;
use crate::seats::ProcessSeats;
use port_model::Reason;
use port_sched::PortBody;
use process_end::{Proc, ProcEnd, Receipt};
use std::sync::Wait;

/// Wakes the ports that were told of the end. The last receipts tell which: there is one for each port, by rising number.
fn wake_told<B: PortBody, R: Wait>(
    rt: &R,
    seats: &mut ProcessSeats<B>,
    receipts: &[Receipt],
) -> Result<(), Halt>
    requires { AreHomes seats.old.ports.homes.items }
    ensures { SeatsAfter result seats.old seats.new }
{
    let ports = seats.ports.homes.len();
    let first = receipts.len().saturating_sub(ports);
    let told = &receipts[first..];
    'ports: for port in 0..ports {
        if told.get(port).is_some_and(|receipt| receipt.seq.is_some()) {
            seats.wake(rt, port)?;
        }
    }
    Ok(())
}

/// Ends a process for this reason: each port is told and woken, and then the seat of OVER says that the process has finished.
pub(crate) fn end_process<B: PortBody, R: Wait>(
    rt: &R,
    seats: &mut ProcessSeats<B>,
    proc: Proc,
    reason: Reason,
) -> Result<ProcEnd, Halt>
    requires homes { AreHomes seats.old.ports.homes.items }
    requires counted { HasToFinish seats.old.over.known.size.counted seats.old.over.known.places }
    ensures seats { SeatsAtEnd result seats.old seats.new }
    ensures ended { IfOk result (λ end. HasEnded reason proc end.receipts end.mailbox end.lanes.items end.seats.items) }
{
    let Ok(end) = proc.exit_process(rt, reason) else {
        return Err(Halt::NoMemory);
    };
    wake_told(rt, seats, end.receipts.as_slice())?;
    seats.over.finished();
    seats.ports.wake_schedulers();
    Ok(end)
}
