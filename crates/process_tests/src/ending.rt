ghost use Rattle.std.specs.Prelude.{◌≡◌, [], IfOk};

use crate::rig::{WatchedPort, end, no_limits, one_port, two_ports, unmailed_process};
use process_end::{Outcome, Proc, Receipt};
use std::alloc::Global;
use std::sync::Wait;
use std::test::Fail;
use task_queue::NoMemory;

/// Three ports of a process.
#[derive(Drop)]
struct ThreePorts {
    one: WatchedPort,
    two: WatchedPort,
    three: WatchedPort,
}

impl ThreePorts {
    /// Whether the second port marks that it is closed, and the third that it is busy.
    fn mark(&mut self) -> bool
        requires { (self.old.two.seat.known.marks ≡ []) × (self.old.three.seat.known.marks ≡ []) }
    {
        self.two.marks_closed(6) && self.three.marks_busy()
    }

    /// Whether the next task of the first port and of the third is the end of process 0, and the second one has none.
    fn are_told<R: Wait>(&mut self, rt: &R) -> bool {
        is_told(rt, &mut self.one) && is_told(rt, &mut self.three) && self.two.take(rt).is_none()
    }
}

/// Whether the next task of a port is the end of process 0, for the reason normal.
fn is_told<R: Wait>(rt: &R, port: &mut WatchedPort) -> bool {
    matches!(port.take(rt), Some(taken) if taken.is_end)
}

/// Process 0 and its three ports, of which the last takes forced commands.
fn three_ports(alloc: Global) -> Result<(Proc, ThreePorts), NoMemory>
    ensures { IfOk result (λ r. (r.1.two.seat.known.marks ≡ []) × (r.1.three.seat.known.marks ≡ [])) }
{
    let (first, second, one, two) = two_ports(alloc)?;
    let (third, three) = one_port(alloc, no_limits(), true)?;
    let proc = unmailed_process(alloc, first, second, third)?;
    Ok((proc, ThreePorts { one, two, three }))
}

/// The receipts of a process that ends, of which the second port is closed and the third is busy.
const TOLD: [Receipt; 3] = [
    Receipt {
        line: 0,
        port: 0,
        seq: Some(0),
        stat: Some(0),
        msgq: None,
        outcome: Outcome::Accepted,
    },
    Receipt {
        line: 0,
        port: 1,
        seq: None,
        stat: Some(6),
        msgq: None,
        outcome: Outcome::Closed,
    },
    Receipt {
        line: 0,
        port: 2,
        seq: Some(0),
        stat: Some(5),
        msgq: None,
        outcome: Outcome::Accepted,
    },
];

/// Whether the receipts of a process that ends now are these.
fn ends_with<R: Wait>(rt: &R, proc: Proc, wanted: &[Receipt]) -> bool {
    matches!(&end(rt, proc), Some(end) if end.receipts.as_slice() == wanted)
}

#[test]
fn the_end_of_a_process_is_told_to_its_open_ports(rt: HostRuntime) -> Result<(), Fail> {
    let (proc, mut ports) = three_ports(rt.alloc())?;
    assert!(rt; ports.mark());
    assert!(rt; ends_with(&rt, proc, &TOLD));
    assert!(rt; ports.are_told(&rt));
    Ok(())
}
