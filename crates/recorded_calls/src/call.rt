use port_model::{Effect, IoVec, Outside, Piece};

/// A callback of a started driver, with its arguments: those of the structure `driver_entry` of the Erlang/OTP manual.
#[derive(Clone, Copy)]
pub enum Callback<'a> {
    Outputv(&'a IoVec),
    Control { op: u32, bytes: &'a Piece },
    Call { op: u32, bytes: &'a Piece },
    ReadyInput(u32),
    ReadyOutput(u32),
    ReadyAsync { number: u64, output: &'a Piece },
    ProcessExit(u32),
    Flush,
}

/// A call as its row tells it: what the outside answered, and the effects of the row, whose messages say how a stream was cut.
#[derive(Clone, Copy)]
pub struct RecordedCall<'a> {
    pub callback: Callback<'a>,
    pub outside: &'a [Outside],
    pub effects: &'a [Effect],
}
