use port_mail::{Closing, Handling};
use port_model::{Effect, Items, Outside};

/// What the row of a handled task tells, and what its mail is made of.
#[derive(Drop)]
pub struct Served {
    /// The outside's answers to the driver in this row, in their order.
    pub outside: Items<Outside>,
    /// What the driver did, in its order.
    pub effects: Items<Effect>,
    /// What was known of the port before the row.
    pub handling: Handling,
    /// What the closing of the port adds to the row's mail.
    pub closing: Closing,
    /// Whether the row closes the port.
    pub closes: bool,
}
