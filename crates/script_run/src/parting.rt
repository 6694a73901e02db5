//! What the ports and the processes of a run leave is taken apart, each part by place.
ghost use Rattle.std.specs.Prelude.{◌≡◌, length, IfOk};
ghost use Rattle.script_run.specs.Parted.{AreLeftOf, ArePartedPorts, AreProcessParts};

use crate::running::{PortLeft, ProcessLeft};
use closed_lanes::{ClosedPort, PortPeers, ProcessPeers};
use no_memory::NoMemory;
use port_lanes::Parcel;
use port_model::Mail;
use process_end::ProcEnd;
use process_receipts::Receipts;
use run_lanes::next_of;
use seated_script::EndedProcess;
use std::alloc::Global;
use task_queue::SendEnd;

/// The ends of the ports' lanes, the receipts, and what ties a process to its ports, of each process of a run.
#[derive(Drop)]
pub(crate) struct ProcessParts {
    pub(crate) lanes: Vec<Vec<SendEnd<Parcel>>>,
    pub(crate) receipts: Vec<Receipts>,
    pub(crate) peers: ProcessPeers,
}

/// What is reported of each port, and what ties it to the processes.
#[derive(Drop)]
pub(crate) struct PartedPorts {
    pub(crate) left: Vec<PortLeft>,
    pub(crate) peers: PortPeers,
}

/// Takes the processes apart.
pub(crate) fn part_processes(
    alloc: Global,
    processes: Vec<EndedProcess>,
) -> Result<ProcessParts, NoMemory>
    ensures { IfOk result (AreProcessParts processes.items) }
{
    let mut lanes = Vec::new(alloc);
    let mut receipts = Vec::new(alloc);
    let mut mailboxes = Vec::new(alloc);
    let mut mails = Vec::new(alloc);
    let mut seats = Vec::new(alloc);
    for process in processes {
        let EndedProcess { proc, mails: mail } = process;
        let ProcEnd {
            receipts: own,
            mailbox,
            lanes: ends,
            seats: row,
        } = proc;
        lanes.push(ends)?;
        receipts.push(own)?;
        mailboxes.push(mailbox)?;
        mails.push(mail)?;
        seats.push(row)?;
    }
    let peers = ProcessPeers {
        mailboxes,
        mails,
        seats,
    };
    Ok(ProcessParts {
        lanes,
        receipts,
        peers,
    })
}

/// Takes the ports apart.
pub(crate) fn part_ports(alloc: Global, closed: Vec<ClosedPort>) -> Result<PartedPorts, NoMemory>
    ensures { IfOk result (ArePartedPorts closed.items) }
{
    let mut left = Vec::new(alloc);
    let mut ends = Vec::new(alloc);
    let mut seats = Vec::new(alloc);
    for port in closed {
        let ClosedPort {
            config,
            events,
            journal,
            mailboxes,
            seat,
        } = port;
        left.push(PortLeft {
            config,
            events,
            journal,
        })?;
        ends.push(mailboxes.into_ends())?;
        seats.push(seat)?;
    }
    let peers = PortPeers { ends, seats };
    Ok(PartedPorts { left, peers })
}

/// What each process leaves: its receipts and its mail.
pub(crate) fn processes_left(
    alloc: Global,
    receipts: Vec<Receipts>,
    mails: Vec<Vec<Mail>>,
) -> Result<Vec<ProcessLeft>, NoMemory>
    requires { length mails.items ≡ length receipts.items }
    ensures { IfOk result (λ left. AreLeftOf receipts.items mails.items left.items) }
{
    let many = receipts.len();
    let mut receipts = receipts.into_iter();
    let mut mails = mails.into_iter();
    let mut left = Vec::new(alloc);
    'processes: for _process in 0..many {
        let own = next_of(&mut receipts);
        let mail = next_of(&mut mails);
        left.push(ProcessLeft {
            receipts: own,
            mails: mail,
        })?;
    }
    Ok(left)
}
