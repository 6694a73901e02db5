//! The driver of a history, started again: for each handled task it makes the calls that the task's row tells of, and answers whether the
//! effects and the outside's answers in the row are those of the calls. It is never stopped, since a journal may tell of calls behind a stop.
#![tactic(auto)]

mod comparing;
mod driver;
mod handling;
mod held;
mod kind;
mod running;
mod sample;
mod starting;

pub use driver::{HandledTask, HistoryDriver};
pub use history_state::{HistoryState, RowEnd};
pub use kind::DriverKind;
pub use port_config::Config;
pub use port_model::{Effect, Items, NoMemory, Outside, Reason, Sender, Task};
