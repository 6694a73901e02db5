use port_state::Served;

/// What came of a task.
#[derive(Drop)]
pub enum HandledOrLate {
    /// The port handled it.
    Handled(Served),
    /// The port found it late.
    Late,
}
