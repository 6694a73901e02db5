//! What a script says: its processes, its ports with their options, what is saved, and the steps of each process.
//!
//! It is data alone. `gateway_script` reads it from a text, and a run makes its steps.
#![tactic(auto)]

mod decl;
mod fault;
mod file_name;
mod script;
mod step;

pub use decl::{PortDecl, ProcessDecl, SaveDecl};
pub use fault::ScriptFault;
pub use file_name::FileName;
pub use io_vector::Piece;
pub use port_config::{Config, Mode};
pub use port_model::Reason;
pub use script::{Script, ScriptParts};
pub use step::{Act, Step};
