//! Which driver each port gets: the first one of its name that no earlier port got.
ghost use Rattle.std.specs.Prelude.{◌≡◌, ◌<◌, ◌≤◌, ◌≢◌, ℕ, length, take, count_by, true, IfSome, IfNone, IfOk, IfErr, Err, slice_index_or};
ghost use Rattle.std.specs.Str.{bytes_eq};
ghost use Rattle.driver_hosts.specs.Hosts.{is_named, named_count};
ghost use Rattle.driver_hosts.specs.Finding.{Found, HasDrivers, Lacks, next_of};

use crate::{Driver, Hosted, PortDecl};
use port_model::Reason;
use std::alloc::{AllocFailed, Global};
use std::collections::HashMap;

/// Why the ports don't get their drivers.
#[derive(Clone, Copy, Debug, PartialEq, Eq)]
pub enum Lacking {
    /// Earlier ports got all drivers that have the name that the port at this place wants; `handed` is how many these are.
    NoDriver { at: u32, handed: u64 },
    NoMemory,
}

impl<T: Drop> From<AllocFailed<T>> for Lacking {
    ghost use Rattle.std.specs.Prelude.{◌≡◌};
    ghost use Rattle.driver_hosts.specs.declared.finding.Lacking.TheVariants as lacking;

    ghost from_gives = { λ _ l. l ≡ lacking.NoMemory };

    fn from(_: AllocFailed<T>) -> Lacking {
        Lacking::NoMemory
    }
}

/// Whether a driver has this name.
fn is_named<D: Driver>(host: &Hosted<D>, name: &Reason) -> bool
    ensures { result ≡ is_named D.kind name.now host.now }
{
    match &host.driver {
        Some(driver) => driver.name().as_bytes() == name.as_bytes(),
        None => false,
    }
}

/// The place of the next driver of this name, from a place on.
fn find_next<D: Driver>(hosts: &[Hosted<D>], from: usize, name: &Reason) -> Option<usize>
    requires { from ≤ length hosts.now }
    ensures within { IfSome result (λ at. at < length hosts.now) }
    ensures named { IfSome result (λ at. (d : Hosted D) → is_named D.kind name.now (slice_index_or hosts.now at d) ≡ true) }
    ensures next { IfSome result (λ at. named_count D.kind name.now (take at hosts.now) ≡ named_count D.kind name.now (take from hosts.now)) }
    ensures last { IfNone result (named_count D.kind name.now hosts.now ≡ named_count D.kind name.now (take from hosts.now)) }
{
    for at in from..hosts.len() {
        if is_named(&hosts[at], name) {
            return Some(at);
        }
    }
    None
}

/// Where the search for the next driver of this name goes on.
fn next_place(behind: &HashMap<&str, usize>, name: &Reason) -> usize
    ensures { result ≡ next_of behind.now name.now }
{
    behind.get(name.as_str()).copied().unwrap_or(0)
}

/// How many of the ports want a driver of this name.
fn wanting(ports: &[PortDecl], name: &Reason) -> u64
    requires { length ports.now ≤ 32 }
    ensures { result ≡ count_by (λ p. bytes_eq p.driver name.now) ports.now }
{
    let mut count = 0;
    for port in ports {
        count += u64::from(port.driver.as_bytes() == name.as_bytes());
    }
    count
}

/// Finds for each port the first driver of its name that no earlier port got: its place among those that were handed in, from 0. Ports go by their places in the
/// list, from 0. The drivers are walked at most once for each name.
pub fn find_drivers<D: Driver>(
    alloc: Global,
    hosts: &[Hosted<D>],
    ports: &[PortDecl],
) -> Result<Vec<usize>, Lacking>
    requires { length ports.now ≤ 32 }
    ensures found { IfOk result (λ places. Found D.kind hosts.now ports.now places.items) }
    ensures lacking { IfErr result (Lacks D.kind hosts.now ports.now) }
    ensures complete { HasDrivers D.kind hosts.now ports.now → (at handed : ℕ) → result ≢ Err (Lacking.NoDriver at handed) }
{
    let mut places = Vec::new(alloc);
    // Behind the last driver of each name that a port got.
    let mut behind: HashMap<&str, usize> = HashMap::new(alloc);
    for (at, port) in ports.iter().enumerate() {
        let from = next_place(&behind, &port.driver);
        let Some(place) = find_next(hosts, from, &port.driver) else {
            return Err(Lacking::NoDriver {
                at: at as u32,
                handed: wanting(&ports[..at], &port.driver),
            });
        };
        behind.insert(port.driver.as_str(), place + 1)?;
        places.push(place)?;
    }
    Ok(places)
}
