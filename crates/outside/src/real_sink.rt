ghost use Rattle.std.specs.Prelude.{◌≡◌, [], None, OnOk};
ghost use Rattle.std.specs.Io.KnownBytes.{Appends};

use crate::{ByteLog, FaultCount, Sink, SinkFault};
use std::io;
use std::io::Write;

/// The standard output of the machine. It tells nothing of what was written.
///
/// A put that answers `Ok` has handed all its bytes to the system: none waits in a buffer. So a closed
/// pipe and a full device are `Failed`.
#[derive(Debug, Drop)]
pub struct RealSink<R> {
    rt: R,
    faults: FaultCount,
    took: ByteLog,
}

impl<R: Print> RealSink<R> {
    /// The output that `rt` reaches.
    pub fn new(rt: R) -> Self
        ensures faults { ⟦<RealSink<R> as Sink>⟧.faults result ≡ 0 }
        ensures took { ⟦<RealSink<R> as Sink>⟧.took result ≡ [] }
    {
        RealSink {
            rt,
            faults: FaultCount::new(),
            took: ByteLog::new(),
        }
    }
}

/// Writes all the bytes, and leaves none in a buffer.
pub(crate) fn write_out<W: Write>(output: &mut W, bytes: &[u8]) -> io::Result<()>
    ensures { OnOk result (Appends (W.contents output.old) (W.contents output.new) bytes.now) }
{
    output.write_all(bytes)?;
    output.flush()
}

impl<R: Print> Sink for RealSink<R> {
    ghost faults = { λ s. s.faults };

    ghost written = { λ _. None };

    ghost took = { λ s. s.took };

    fn put(&mut self, bytes: &[u8]) -> Result<(), SinkFault> {
        if write_out(&mut io::writer(&self.rt), bytes).is_err() {
            self.faults.rise();
            return Err(SinkFault::Failed);
        }
        self.took.note(bytes);
        Ok(())
    }
}
