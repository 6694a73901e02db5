//! What the port of a program sent of its program's output, by the history of the port: the messages of the bytes that the port took, however these came in chunks; and what the program took of
//! what it was asked to. Definitions and laws alone.
#![tactic(auto)]

ghost use Rattle.unframed_output.specs.Laws.{ChunkFails, EndIsTold, InputIsTaken, InputIsWhole, MessagesAreDeclared, OutputIsSaved, OutputIsTaken, OutputIsUnframed};

/// The calls of the driver took the bytes that the rows tell, and were told their end where the rows tell it. The messages that the rows of a program's port sent are those of these bytes, but for a chunk that failed the port; and what its opener saves of
/// them, as long as it stays the owner, is a function of these bytes and of whether their end was told.
pub fn output_is_unframed()
    ensures taken { OutputIsTaken }
    ensures ended { EndIsTold }
    ensures messages { OutputIsUnframed }
    ensures saved { OutputIsSaved }
{}

/// A chunk fails the port exactly where all bytes that were taken are too many, or a header among them tells too many.
pub fn chunk_fails()
    ensures { ChunkFails }
{}

/// The messages of bytes below 256, which are a function of them, are those of the options `packet` and `line`: the contents of the whole frames, and the pieces of the lines.
pub fn messages_are_declared()
    ensures { MessagesAreDeclared }
{}

/// The program took no more bytes than the frames of the commands have, and the driver counts what it answered; and it took as many where the port has ended, wasn't killed, and no call of the program failed.
pub fn input_is_taken()
    ensures taken { InputIsTaken }
    ensures whole { InputIsWhole }
{}
