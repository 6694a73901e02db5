//! The declarations.

ghost use Rattle.std.specs.Prelude.{◌≡◌, ◌<◌, ◌≤◌, ◌∷◌, [], IfOk, map};
ghost use Rattle.script_load.specs.Load.{name as name_with, process_of, port_with, processes as all_processes, ports as all_ports};

use no_memory::NoMemory;
use script_plan::{Config, PortDecl, ProcessDecl, Reason};
use std::alloc::Global;

/// A letter and a digit.
fn name(letter: u8, number: u32) -> Reason
    requires letter { (97 ≤ letter) × (letter ≤ 122) }
    requires number { number < 10 }
    ensures { result ≡ name_with letter number }
{
    match Reason::of_bytes([letter, b'0' + number as u8].as_slice()) {
        Ok(name) => name,
        Err(_) => unreachable!(),
    }
}

/// The declaration of a process.
fn process_of(number: u32) -> ProcessDecl
    requires { number < 8 }
    ensures { result ≡ process_of number }
{
    ProcessDecl {
        line: number + 1,
        name: name(b'a', number),
    }
}

/// The declaration of a port.
fn port_with(alloc: Global, number: u32) -> Result<PortDecl, NoMemory>
    requires { number < 4 }
    ensures { IfOk result (λ port. port ≡ port_with number) }
{
    Ok(PortDecl {
        line: number + 9,
        name: name(b'q', number),
        owner: number,
        driver: echo(),
        config: Config::plain(alloc)?,
    })
}

/// The driver of each port.
fn echo() -> Reason
    ensures { result ≡ 101 ∷ 99 ∷ 104 ∷ 111 ∷ [] }
{
    match Reason::of_bytes(b"echo") {
        Ok(name) => name,
        Err(_) => unreachable!(),
    }
}

/// The eight processes.
pub(crate) fn processes(alloc: Global) -> Result<Vec<ProcessDecl>, NoMemory>
    ensures { IfOk result (λ v. v.items ≡ map process_of all_processes) }
{
    let mut all = Vec::new(alloc);
    for number in 0..8 {
        all.push(process_of(number))?;
    }
    Ok(all)
}

/// The four ports.
pub(crate) fn ports(alloc: Global) -> Result<Vec<PortDecl>, NoMemory>
    ensures { IfOk result (λ v. v.items ≡ map port_with all_ports) }
{
    let mut all = Vec::new(alloc);
    for number in 0..4 {
        all.push(port_with(alloc, number)?)?;
    }
    Ok(all)
}
