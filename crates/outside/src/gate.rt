/// What a scheduler passes round each turn of a port, so that a test can hold a turn up.
///
/// A gate may wait, and decides nothing.
pub trait Gate {
    /// A turn of the port begins.
    fn enter(&self, port: u32);

    /// The turn has ended.
    fn leave(&self, port: u32);
}

/// The gate that holds nobody up.
#[derive(Clone, Copy, Debug, Default, PartialEq, Eq)]
pub struct OpenGate;

impl Gate for OpenGate {
    fn enter(&self, _port: u32) {}

    fn leave(&self, _port: u32) {}
}
