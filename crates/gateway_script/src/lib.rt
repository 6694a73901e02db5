//! The language of scripts: `read_script` reads a whole script from its text, or tells the first line that isn't right and the
//! least fault in it.
//!
//! It is for the text alone: it runs no step, opens no file, and knows no kind of driver but `spawn`, whose ports have options
//! of their own. A text is read in layers, each a module with its definitions: lines and their numbers, words, the forms of a
//! line, and the script as its lines go on.
#![tactic(auto)]

mod actions;
mod config;
mod draft;
mod forms;
mod laws;
mod line_fault;
mod lines;
mod options;
mod reader;
mod source;
mod statement;
mod steps;
mod words;

pub use laws::each_line_says_what_it_spells;
pub use reader::read_script;
pub use script_plan::{
    Act, Config, FileName, Mode, Piece, PortDecl, ProcessDecl, Reason, SaveDecl, Script,
    ScriptFault, Step,
};
