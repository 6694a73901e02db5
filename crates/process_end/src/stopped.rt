// A suspended process.
ghost use Rattle.std.specs.Prelude.{◌≡◌, List};
ghost use Rattle.process_receipts.specs.Asks.{Asked};
ghost use Rattle.process_end.specs.Calls.{HasAsked};
ghost use Rattle.process_end.specs.Resumed.{is_resume, proc_after, HasGoneOn, HasTried};

use crate::answers::NotYet;
use crate::proc::Proc;
use crate::sides::Sides;
use port_model::Mail;
use std::marker::Model;
use std::sync::Wait;
use suspend_list::{StopNote, may_go};
use task_queue::Idle;

/// A process that a busy port suspended. It has no call that sends.
#[derive(Drop)]
pub struct Stopped {
    pub(crate) sides: Sides,
    pub(crate) note: StopNote,
    pub(crate) resumed: bool,
}

impl Model for Stopped {
    ghost use Rattle.process_end.specs.Views.{StoppedView};
    ghost use Rattle.process_end.specs.Ports.{HasStopped};

    ghost Value = { StoppedView };

    ghost view = { λ s. record { proc = s.sides; note = s.note; resumed = s.resumed } };

    ghost invariant = { λ s. HasStopped (record { proc = s.sides; note = s.note; resumed = s.resumed }) };
}

/// Whether a mail resumes the command of this note.
fn is_resume(note: &StopNote, mail: &Mail) -> bool
    ensures { result ≡ is_resume note.now mail.now }
{
    match mail {
        Mail::Resume { port, seq, .. } => *port == note.port && *seq == note.seq,
        _ => false,
    }
}

impl Stopped {
    /// The port, the number of the command and the MSGQ word that it left.
    pub fn note(&self) -> StopNote
        ensures { result ≡ self.now.note }
    {
        self.note
    }

    /// Waits a little for mail, longer each time, as `Idle::wait_at`. Mail that is put ends the wait, as the one that resumes does. It takes none.
    pub fn rest<R: Wait>(&self, rt: &R, idle: &Idle) {
        self.sides.rest(rt, idle);
    }

    /// Looks at the port's words, and goes on where the busy period of the command is over or the port is closed.
    fn go_on(self) -> Result<Proc, (Stopped, NotYet)>
        ensures tried { HasGoneOn self result }
        ensures asked { (asks : List Asked) → HasAsked asks self.proc → HasAsked asks (proc_after result) }
    {
        let Stopped {
            mut sides,
            note,
            resumed,
        } = self;
        let (msgq, stat) = sides.find_words(note.port);
        if may_go(&note, msgq, stat) {
            return Ok(Proc { sides });
        }
        let stopped = Stopped {
            sides,
            note,
            resumed,
        };
        Err((stopped, NotYet::SamePeriod { word: msgq }))
    }

    /// Takes at most one mail, and goes on where the resume of its command has come and the words of the port say that the busy period of the command is over, or that
    /// the port is closed. Once the resume has come it takes no mail. It takes no memory.
    pub fn try_resume<R: Wait>(self, rt: &R) -> Result<Proc, (Stopped, NotYet)>
        ensures tried { HasTried self result }
        ensures asked { (asks : List Asked) → HasAsked asks self.proc → HasAsked asks (proc_after result) }
    {
        if self.resumed {
            return self.go_on();
        }
        let Stopped {
            mut sides,
            note,
            ..
        } = self;
        let Some(mail) = sides.mail(rt) else {
            let stopped = Stopped {
                sides,
                note,
                resumed: false,
            };
            return Err((stopped, NotYet::Empty));
        };
        let resumed = is_resume(&note, &mail);
        let stopped = Stopped {
            sides,
            note,
            resumed,
        };
        if resumed {
            stopped.go_on()
        } else {
            Err((stopped, NotYet::Other(mail)))
        }
    }
}
