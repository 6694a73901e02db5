ghost use Rattle.std.specs.Prelude.{◌≡◌};
ghost use Rattle.process_receipts.specs.Asks.{add_how, is_dropping, is_forcing, is_stopping};

use port_words::busy::AddHow;

/// How a command is sent: the options of `port_command`, and the owner's form `Port ! {Owner, {command, Data}}`. Every other signal goes `Plain`.
#[derive(Debug, Clone, Copy, PartialEq, Eq)]
pub enum How {
    /// A busy port suspends the sender.
    Plain,
    /// The owner's form. A busy port suspends the sender.
    Owner,
    /// A busy port gets nothing, and the sender goes on.
    NoSuspend,
    /// A busy port takes it too, where its driver allows that.
    Force,
    /// As `Force`, which leaves nothing to be dropped.
    ForceNoSuspend,
}

impl How {
    /// Whether a busy port takes the command too.
    pub fn is_forcing(self) -> bool
        ensures { result ≡ is_forcing self }
    {
        matches!(self, How::Force | How::ForceNoSuspend)
    }

    /// Whether a busy port gets nothing.
    pub fn is_dropping(self) -> bool
        ensures { result ≡ is_dropping self }
    {
        matches!(self, How::NoSuspend)
    }

    /// Whether a busy port suspends the sender of the command.
    pub fn is_stopping(self) -> bool
        ensures { result ≡ is_stopping self }
    {
        matches!(self, How::Plain | How::Owner)
    }

    /// How the bytes of the command are added to the port's word MSGQ.
    pub fn add_how(self) -> AddHow
        ensures { result ≡ add_how self }
    {
        match self {
            How::Plain | How::Owner => AddHow::Plain,
            How::NoSuspend => AddHow::NoSuspend,
            How::Force | How::ForceNoSuspend => AddHow::Forced,
        }
    }
}
