//! What a run needs before it begins: the words that ask for it, the script, and the files that the script's steps send.
#![tactic(auto)]

mod dealing;
mod input;
mod loading;
mod naming;
mod reading;
mod words;

pub use input::{PortName, RunInput, RunNames, RunWrites};
pub use loading::load_steps;
pub use program_io::{InputFault, input_cause, read_run_script};
pub use run_opening::{ProcessSteps, RunScript};
pub use words::{RunSource, RunWords, run_words};
