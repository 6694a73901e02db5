//! The whole mail of a row.
ghost use Rattle.std.specs.Prelude.{◌≡◌, not};
ghost use Rattle.port_model.specs.Tasks.{TaskView};
ghost use Rattle.port_model.specs.declared.row.Row.TheVariants.{Late, Resumed};
ghost use Rattle.port_links.specs.port_history.Opening.{Opening, Taken};
ghost use Rattle.port_links.specs.port_history.State.{State, is_open};
ghost use Rattle.port_links.specs.port_history.Mail.{handled_mail, row_mail};
ghost use Rattle.port_mail.specs.Ends.{Puts};
ghost use Rattle.port_mail.specs.Rows.{IsRowOf};

use crate::{
    Closing, HandledRow, Links, Mail, Mailboxes, NoMemory, Origin, Resumption, Sender, Signal,
};
use std::sync::Wait;

impl Mailboxes {
    /// Puts the mail of a handled row, in this order: the data of its effects, the answer, the exit signals and what the monitors are
    /// told, and `closed`.
    pub fn post_row<R: Wait>(
        &mut self,
        rt: &R,
        links: &Links,
        row: HandledRow<'_>,
    ) -> Result<(), NoMemory>
        ensures { (opening : Opening) (s : State) (t : Taken) → IsRowOf row.entry.handling row.entry.effects.now row.entry.signal.now row.entry.closing opening s t
            → Puts result links.now.ties.ended self.old self.new (handled_mail opening s t) }
    {
        let HandledRow {
            handling,
            effects,
            signal,
            closing,
        } = row;
        let Closing {
            posts,
            stops,
            closer,
        } = closing;
        self.post_effects(rt, links, handling.port, handling.owner, effects)?;
        self.post_answer(rt, links, handling, effects, signal)?;
        self.post_all(rt, links, posts)?;
        self.post_closed(rt, links, handling.port, stops, closer)
    }

    /// Puts the mail of a late row.
    pub fn post_late_row<R: Wait>(
        &mut self,
        rt: &R,
        links: &Links,
        origin: Origin,
        signal: &Signal,
    ) -> Result<(), NoMemory>
        ensures { (opening : Opening) (s : State) (task : TaskView) → opening.number ≡ origin.port → task.signal ≡ signal.now
            → Puts result links.now.ties.ended self.old self.new (row_mail opening s (Late origin.from origin.seq task)) }
    {
        match origin.from {
            Sender::Process(process) => self.post_late(rt, links, process, origin, signal),
            Sender::Poller | Sender::Worker(_) | Sender::Timer => Ok(()),
        }
    }

    /// Puts the mail of the row by which a suspended process is resumed.
    pub fn post_resume<R: Wait>(
        &mut self,
        rt: &R,
        links: &Links,
        resumption: Resumption,
    ) -> Result<(), NoMemory>
        ensures { (opening : Opening) (s : State) → opening.number ≡ resumption.port → resumption.closed ≡ not (is_open s)
            → Puts result links.now.ties.ended self.old self.new (row_mail opening s (Resumed (Sender.Process resumption.process) resumption.seq resumption.word)) }
    {
        let Resumption {
            port,
            process,
            seq,
            word,
            closed,
        } = resumption;
        let mail = Mail::Resume {
            port,
            seq,
            word,
            closed,
        };
        self.post(rt, links, process, mail)
    }
}
