ghost use Rattle.std.specs.Prelude.{List, map, IfOk};
ghost use Rattle.run_opening.specs.port_body.Body.{BodyName};
ghost use Rattle.run_end.specs.Ran.{RanProcess};
ghost use Rattle.run_opening.specs.Setting.{Setting, IsSetting, AreNamedIn};
ghost use Rattle.run_opening.specs.Jobs.{HaveRunIn};
ghost use Rattle.closed_lanes.specs.Joined.{AreJoined, AreOfProcesses, ArePortsNamed};

use no_memory::NoMemory;
use port_model::Mail;
use port_words::busy::{PortSeat, SendSeat};
use run_end::{join_all_seats, take_all_rest};
use std::alloc::Global;
use std::sync::Wait;
use task_queue::{SendEnd, TakeEnd};

/// What the ports have of the processes: an end of each mailbox, and the seat of its words. Ports and mailboxes stand by their numbers, from 0.
#[derive(Drop)]
pub struct PortPeers {
    pub ends: Vec<Vec<SendEnd<Mail>>>,
    pub seats: Vec<PortSeat>,
}

/// What the processes have of the ports: the mailbox, the mail that came so far, and a seat of the words of each port. Processes and ports stand by their numbers, from 0.
#[derive(Drop)]
pub struct ProcessPeers {
    pub mailboxes: Vec<TakeEnd<Mail>>,
    pub mails: Vec<Vec<Mail>>,
    pub seats: Vec<Vec<SendSeat>>,
}

/// Takes the mail that is left, and joins the seats of the ports' words. Answers the mail of each process, in the order of processes. Where no memory is found, all is dropped.
pub fn join_peers<R: Wait>(
    rt: &R,
    alloc: Global,
    ports: PortPeers,
    processes: ProcessPeers,
) -> Result<Vec<Vec<Mail>>, NoMemory>
    requires { (s : Setting) × (names : List BodyName) × (ran : List RanProcess) × IsSetting s × AreNamedIn s names × HaveRunIn s ran × ArePortsNamed s names ports × AreOfProcesses ran processes }
    ensures { (s : Setting) (names : List BodyName) (ran : List RanProcess) → IsSetting s → AreNamedIn s names → HaveRunIn s ran → ArePortsNamed s names ports → AreOfProcesses ran processes
        → IfOk result (λ mails. AreJoined s ran ports (map (λ m. m.items) mails.items)) }
{
    let PortPeers { ends, mut seats } = ports;
    let ProcessPeers {
        mailboxes,
        mails,
        seats: rows,
    } = processes;
    join_all_seats(alloc, &mut seats, rows)?;
    take_all_rest(rt, alloc, mailboxes, ends, mails)
}
