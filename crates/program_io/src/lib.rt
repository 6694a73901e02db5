//! What the commands of the program have in common: the words that name files, the files and scripts that they read, and what a sink shows of a text that is put out.
#![tactic(auto)]

mod cause;
mod fault;
mod reading;
mod word;

pub use cause::input_cause;
pub use fault::InputFault;
pub use reading::{read_file, read_run_script};
pub use script_plan::{Script, ScriptFault};
pub use word::may_name_file;
