//! The numbers of which the commands are made.

ghost use Rattle.std.specs.Prelude.{◌≡◌, ◌+◌, ◌<◌, IfOk, ◌==◌};
ghost use Rattle.script_load.specs.Load.{next, values, port_of, bytes_of, command_count};

use no_memory::NoMemory;
use script_plan::Piece;
use std::alloc::Global;

/// The number behind this one.
fn next(x: u64) -> u64
    ensures { result ≡ next x }
{
    x.wrapping_mul(6_364_136_223_846_793_005)
        .wrapping_add(1_442_695_040_888_963_407)
}

/// So many numbers behind this one.
pub(crate) fn values(alloc: Global, count: usize, number: u64) -> Result<Vec<u64>, NoMemory>
    ensures { IfOk result (λ v. v.items ≡ values count number) }
{
    let mut all = Vec::with_capacity(alloc, count)?;
    let mut x = number;
    for _ in 0..count {
        x = next(x);
        all.push(x)?;
    }
    Ok(all)
}

/// The port to which the command of a number goes.
pub(crate) fn port_of(x: u64) -> u32
    ensures { result ≡ port_of x }
{
    ((x >> 33) % 4) as u32
}

/// The bytes of the command of a number.
pub(crate) fn bytes_of(alloc: Global, process: u32, x: u64) -> Result<Piece, NoMemory>
    requires { process < 8 }
    ensures { IfOk result (λ piece. piece ≡ bytes_of process x) }
{
    let count = 1 + (x >> 40) % 64;
    let bytes = vec![in alloc; b'a' + process as u8; count as usize]?;
    Ok(Piece::of_vec(bytes)?)
}

/// How many commands go to a port.
pub(crate) fn command_count(port: u32, xs: &[u64]) -> usize
    ensures { result ≡ command_count port xs.now }
{
    xs.iter().filter(|x| port_of(**x) == port).count()
}
