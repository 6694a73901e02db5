//! What a program meets outside itself: files, its output, other programs, the readiness of events, and
//! a gate round each turn of a port. Each is a trait with two kinds of object, one in memory for tests,
//! whose calls can be made to fail, and a real one. The real programs and their readiness stand in
//! `outside_programs`.
//!
//! A trait counts its faults, and a call answers `Failed` only where the count rose in that call. So
//! a caller that blames the outside can be held to it. What the calls answered is told by every object,
//! the real ones too: names and bytes of reads and writes, the bytes that puts took, those that a
//! program was given and those that were fetched from it, the events that waits answered. What an object
//! holds is told where it can be: the objects in memory tell it, the real ones tell nothing.
//!
//! This crate isn't a file system: it has no directories, no positions and no partial writes. It
//! starts no program and no thread, and waits for nothing but the system's own calls.
#![tactic(auto)]

mod call_plan;
mod child;
mod chunk;
mod fault_count;
mod files;
mod gate;
mod log;
mod mem_child;
mod mem_files;
mod mem_poll;
mod mem_program;
mod mem_sink;
mod mem_spawner;
mod part_writer;
mod poll_set;
mod real_files;
mod real_sink;
mod sink;
mod spawner;

pub use child::{Child, Fetched, Offered, StatusGot};
pub use fault_count::FaultCount;
pub use files::{FileFault, Files};
pub use gate::{Gate, OpenGate};
pub use log::{ByteLog, EventLog, FileLog};
pub use mem_child::MemChild;
pub use mem_files::MemFiles;
pub use mem_poll::MemPoll;
pub use mem_program::MemProgram;
pub use mem_sink::MemSink;
pub use mem_spawner::MemSpawner;
pub use no_memory::NoMemory;
pub use poll_set::{PollFault, PollSet};
pub use real_files::RealFiles;
pub use real_sink::RealSink;
pub use sink::{Sink, SinkFault};
pub use spawner::{SpawnFault, Spawner};
