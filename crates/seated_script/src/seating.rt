ghost use Rattle.std.specs.Prelude.{◌≡◌, ◌≢◌, All, Some, IfOk, IfErr};
ghost use Rattle.run_opening.specs.driver_hosts.Back.{AllCameBack};
ghost use Rattle.run_opening.specs.driver_hosts.Hosts.{IsUnused};
ghost use Rattle.run_opening.specs.declared.opening.OpenFault.TheVariants as fault;
ghost use Rattle.run_opening.specs.Faults.{AreNotOpened};
ghost use Rattle.run_opening.specs.Script.{IsRunnable, size_of};
ghost use Rattle.seated_script.specs.Seated.{IsSeatedScript};

use crate::dealing::{JobParts, seat_bodies};
use crate::ending::end_opened;
use outside::PollSet;
use port_sched::PortBody;
use run_opening::{
    Body, Driver, EndedProcess, Hosted, LaneSize, OpenFault, OpenPorts, RunScript, SeatedRun,
    open_ports_of,
};
use std::alloc::Global;
use std::sync::Wait;

/// A run of a script that can begin: the run, the places of the drivers of its ports among those that were handed in, and room for what becomes of its processes.
#[derive(Drop)]
pub struct SeatedScript<B: PortBody, S: PollSet> {
    pub run: SeatedRun<B, S>,
    pub places: Vec<usize>,
    pub ended: Vec<EndedProcess>,
}

/// Why a run wasn't seated, and the poll set, unless memory was wanting.
#[derive(Drop)]
pub struct Unseated<S> {
    pub fault: OpenFault,
    pub poll: Option<S>,
}

// How many processes and workers the run of a script has, and for how many rows its ports get room.
fn size_of(script: &RunScript) -> LaneSize
    requires { IsRunnable script.now }
    ensures { result ≡ size_of script.now }
{
    LaneSize {
        processes: script.process_steps.len() as u32,
        workers: script.workers,
        rows: script.rows,
    }
}

// Why a run wasn't seated whose poll set no job had got.
fn refused_with<S>(fault: OpenFault, poll: S) -> Unseated<S>
    ensures { result ≡ record { fault = fault; poll = Some poll } }
{
    Unseated {
        fault,
        poll: Some(poll),
    }
}

/// Opens the ports of a script and seats its run. Where that fails no port is open, and each driver is back.
pub fn seat_script<D: Driver, S: PollSet + Drop, R: Wait>(
    rt: &R,
    alloc: Global,
    hosts: &mut Vec<Hosted<D>>,
    script: RunScript,
    poll: S,
) -> Result<SeatedScript<Body<D>, S>, Unseated<S>>
    requires runnable { IsRunnable script }
    requires unused { All (IsUnused D.stage) hosts.old.items }
    ensures seated { IfOk result (IsSeatedScript D.kind D.faults script poll hosts.old.items hosts.new.items) }
    ensures fault { IfErr result (λ u. AreNotOpened D.kind D.stage D.faults script.ports.items hosts.old.items hosts.new.items u.fault) }
    ensures back { IfErr result (λ u. AllCameBack D.kind D.stage D.faults hosts.old.items hosts.new.items) }
    ensures poll { IfErr result (λ u. u.fault ≢ fault.NoMemory → u.poll ≡ Some poll) }
{
    let Ok(ended) = Vec::with_capacity(alloc, script.process_steps.len()) else {
        return Err(refused_with(OpenFault::NoMemory, poll));
    };
    let size = size_of(&script);
    let open = match open_ports_of(rt, alloc, hosts, script.ports, size) {
        Ok(open) => open,
        Err(fault) => return Err(refused_with(fault, poll)),
    };
    let parts = JobParts {
        soft: open.soft,
        lanes: open.lanes,
        process_steps: script.process_steps,
    };
    match seat_bodies(alloc, open.bodies, parts, script.schedulers, poll) {
        Ok(run) => Ok(SeatedScript {
            run,
            places: open.places,
            ended,
        }),
        Err(bodies) => {
            end_opened(alloc, hosts, open.places.as_slice(), bodies);
            Err(Unseated {
                fault: OpenFault::NoMemory,
                poll: None,
            })
        }
    }
}
