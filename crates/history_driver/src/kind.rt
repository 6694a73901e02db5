ghost use Rattle.std.specs.Prelude.{◌≡◌, None, IfSome};
ghost use Rattle.driver_model.specs.Drivers.{kind_name};
ghost use Rattle.history_driver.specs.Kinds.{kind_of, IsNoName};

use port_model::Reason;

/// The kinds of driver that may have a history: those that don't refuse to start.
#[derive(Clone, Copy, Debug, PartialEq, Eq)]
pub enum DriverKind {
    Echo,
    Tally,
    Valve,
    SoftValve,
    Store,
    Digest,
    Spawn,
}

impl DriverKind {
    /// The kind of this name.
    pub fn named(name: &Reason) -> Option<DriverKind>
        ensures some { IfSome result (λ kind. kind_name (kind_of kind) ≡ name.now) }
        ensures none { result ≡ None → IsNoName name.now }
    {
        match name.as_str() {
            "echo" => Some(DriverKind::Echo),
            "tally" => Some(DriverKind::Tally),
            "valve" => Some(DriverKind::Valve),
            "valve_soft" => Some(DriverKind::SoftValve),
            "store" => Some(DriverKind::Store),
            "digest" => Some(DriverKind::Digest),
            "spawn" => Some(DriverKind::Spawn),
            _ => None,
        }
    }
}
