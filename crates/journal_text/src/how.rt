/// The flags of a command: whether it suspends its sender, or is forced on a busy port.
#[derive(Clone, Copy, Debug, PartialEq, Eq)]
pub(crate) enum CommandFlags {
    Plain,
    Suspends,
    Forced,
}
