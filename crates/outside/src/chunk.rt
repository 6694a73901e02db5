ghost use Rattle.std.specs.Prelude.{◌≡◌, ◌<◌, IfOk, length};

use crate::NoMemory;
use std::alloc::Global;

/// Bytes that a program of memory gives, once it was given so many.
#[derive(Debug, Drop)]
pub(crate) struct Chunk {
    pub(crate) need: u64,
    pub(crate) bytes: Vec<u8>,
    ghost some: { 0 < length bytes.items },
}

impl Chunk {
    pub(crate) fn new(alloc: Global, need: u64, bytes: &[u8]) -> Result<Self, NoMemory>
        requires { 0 < length bytes.now }
        ensures need { IfOk result (λ chunk. chunk.need ≡ need) }
        ensures bytes { IfOk result (λ chunk. chunk.bytes.items ≡ bytes.now) }
    {
        Ok(Chunk {
            need,
            bytes: Vec::from_slice(alloc, bytes)?,
        })
    }
}

/// The status with which a program's output ends, once it was given so many bytes.
#[derive(Clone, Copy, Debug)]
pub(crate) struct Ending {
    pub(crate) need: u64,
    pub(crate) status: i32,
}
