//! Chunks of a child's output that grow until they are taken.
use outside::NoMemory;
use std::alloc::Global;
use std::sync::{Arc, Mutex, Wait};

/// The most bytes of one chunk.
pub(crate) const CHUNK: usize = 65_536;

/// What a reading thread has read and nobody has taken yet. It has two holders: the thread, which appends what it reads meanwhile, and who will take it.
/// So a child that writes faster than it is fetched is fetched in few large chunks.
#[derive(Drop)]
pub(crate) struct GrowingChunk {
    bytes: Arc<Mutex<Option<Vec<u8>>>, Global>,
}

impl GrowingChunk {
    /// A chunk of these bytes, which takes no more memory than they do.
    pub(crate) fn new(alloc: Global, bytes: &[u8]) -> Result<Self, NoMemory> {
        let Ok(bytes) = Vec::from_slice(alloc, bytes) else {
            return Err(NoMemory);
        };
        match Arc::new(alloc, Mutex::new(Some(bytes))) {
            Ok(bytes) => Ok(GrowingChunk { bytes }),
            Err(_) => Err(NoMemory),
        }
    }

    /// The same chunk, for its other holder.
    pub(crate) fn share(&self) -> Result<Self, NoMemory> {
        match Arc::try_clone(&self.bytes) {
            Ok(bytes) => Ok(GrowingChunk { bytes }),
            Err(_) => Err(NoMemory),
        }
    }

    /// Whether its other holder is there, so that it may still be taken.
    pub(crate) fn has_taker(&self) -> bool {
        Arc::strong_count(&self.bytes) > 1
    }

    /// Appends these bytes. Answers whether it did: it doesn't where the chunk was taken, has no room for them or gets none.
    pub(crate) fn append<R: Wait>(&self, rt: &R, bytes: &[u8]) -> bool {
        let mut held = self.bytes.lock(rt);
        let Some(chunk) = &mut *held else {
            return false;
        };
        let room = CHUNK.saturating_sub(chunk.len());
        bytes.len() <= room
            && chunk.reserve_exact(room).is_ok()
            && chunk.extend_from_slice(bytes).is_ok()
    }

    /// Takes what it holds, in as much memory as that has bytes. Nothing is appended any more.
    pub(crate) fn take<R: Wait>(&self, rt: &R) -> Option<Vec<u8>> {
        let mut chunk = self.bytes.lock(rt).take()?;
        chunk.shrink_to_fit();
        Some(chunk)
    }
}
