//! What each kind of driver holds and does, as functions of all its calls: definitions alone, on which the trait of drivers, the
//! histories of ports and their checker stand. Each kind has a file of its own in specs/, and Drivers.antt is the table of them.
#![tactic(auto)]

pub use port_model::{
    Dir, Effect, Flag, IoVec, Items, Log, Mail, Monitor, NoMemory, Outside, Piece, Reason, Sender,
    Signal, Task,
};
