//! What the commands among the rows of a port come to: how many there are, what is sent back for them, and what leaves the port open.
//!
//! These are laws of the definitions alone, as contracts of functions that do nothing.
#![tactic(auto)]

ghost use Rattle.command_counts.specs.Laws.{EachCommandIsCounted, EchoSendsOneMessageEach, QuietPortsStayOpen};

/// The commands that called the driver and those that came late are no more than the commands among the rows; and where all of them called the driver, they have as many bytes.
pub fn each_command_is_counted()
    ensures { EachCommandIsCounted }
{}

/// A driver that sends the data of each command back sends no process more messages than commands called it, and all of them from its own port.
pub fn echo_sends_one_message_each()
    ensures { EchoSendsOneMessageEach }
{}

/// The port of such a driver stays open where its owner's end isn't told, and nobody else asks for its close, fails it or becomes its owner. So its history isn't finished.
pub fn quiet_ports_stay_open()
    ensures { QuietPortsStayOpen }
{}
