ghost use Rattle.std.specs.Prelude.{◌≡◌, IfOk, map};
ghost use Rattle.script_input.specs.Names.{port_name, AreNamesOf};

use crate::{PortName, RunNames};
use no_memory::NoMemory;
use port_model::Reason;
use script_plan::{PortDecl, ProcessDecl, Script};
use std::alloc::Global;

fn process_names(alloc: Global, processes: &[ProcessDecl]) -> Result<Vec<Reason>, NoMemory>
    ensures { IfOk result (λ names. names.items ≡ map (λ p. p.name) processes.now) }
{
    let mut names = Vec::new(alloc);
    for process in processes {
        names.push(process.name.same())?;
    }
    Ok(names)
}

fn port_name(port: &PortDecl) -> PortName
    ensures { result ≡ port_name port.now }
{
    PortName {
        name: port.name.same(),
        driver: port.driver.same(),
        owner: port.owner,
    }
}

fn port_names(alloc: Global, ports: &[PortDecl]) -> Result<Vec<PortName>, NoMemory>
    ensures { IfOk result (λ names. names.items ≡ map port_name ports.now) }
{
    let mut names = Vec::new(alloc);
    for port in ports {
        names.push(port_name(port))?;
    }
    Ok(names)
}

/// The names of a script's processes and ports.
pub(crate) fn names_of(alloc: Global, script: &Script) -> Result<RunNames, NoMemory>
    ensures { IfOk result (AreNamesOf script.now) }
{
    let processes = process_names(alloc, script.processes())?;
    let ports = port_names(alloc, script.ports())?;
    Ok(RunNames { processes, ports })
}
