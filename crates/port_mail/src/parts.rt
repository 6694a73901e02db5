//! The parts of a row's mail.
ghost use Rattle.std.specs.List.{flat_map};
ghost use Rattle.port_links.specs.port_history.Opening.{Opening};
ghost use Rattle.port_links.specs.port_history.Ties.{Ties};
ghost use Rattle.port_links.specs.port_history.Mail.{effect_mail, answers, late_mail, closed_mail};
ghost use Rattle.port_mail.specs.Ends.{Puts};
ghost use Rattle.port_mail.specs.Rows.{IsHandling};

use crate::answers::{answer_post, closed_post, effect_post, late_post};
use crate::{Effect, Handling, Links, Mailboxes, NoMemory, Origin, Signal};
use std::sync::Wait;

impl Mailboxes {
    /// Puts what an effect sends to the owner.
    fn post_effect<R: Wait>(
        &mut self,
        rt: &R,
        links: &Links,
        port: u32,
        owner: u32,
        effect: &Effect,
    ) -> Result<(), NoMemory>
        ensures { Puts result links.now.ties.ended self.old self.new (effect_mail port owner effect.now) }
    {
        let post = effect_post(port, owner, effect)?;
        self.post_any(rt, links, post)
    }

    /// Puts what the effects of a row send to the owner, which is that before the row, in their order. Their bytes are shared, not
    /// copied.
    pub fn post_effects<R: Wait>(
        &mut self,
        rt: &R,
        links: &Links,
        port: u32,
        owner: u32,
        effects: &[Effect],
    ) -> Result<(), NoMemory>
        ensures { Puts result links.now.ties.ended self.old self.new (flat_map (effect_mail port owner) effects.now) }
    {
        for effect in effects {
            self.post_effect(rt, links, port, owner, effect)?;
        }
        Ok(())
    }

    /// Puts what a handled signal sends after the effects of its row: the driver's answer, `true` or `badarg`, `connected`, or the exit
    /// signal `badsig` to the owner.
    pub fn post_answer<R: Wait>(
        &mut self,
        rt: &R,
        links: &Links,
        handling: Handling,
        effects: &[Effect],
        signal: &Signal,
    ) -> Result<(), NoMemory>
        ensures { (opening : Opening) (ties : Ties) → IsHandling handling opening ties signal.now
            → Puts result links.now.ties.ended self.old self.new (answers opening ties handling.from handling.seq effects.now signal.now) }
    {
        let post = answer_post(handling, effects, signal)?;
        self.post_any(rt, links, post)
    }

    /// Puts what a late signal of a process sends.
    pub fn post_late<R: Wait>(
        &mut self,
        rt: &R,
        links: &Links,
        process: u32,
        origin: Origin,
        signal: &Signal,
    ) -> Result<(), NoMemory>
        ensures { Puts result links.now.ties.ended self.old self.new (late_mail origin.port process origin.seq signal.now) }
    {
        let post = late_post(origin.port, process, origin.seq, signal);
        self.post_any(rt, links, post)
    }

    /// Tells the owner that asked for the close, where the row stops the driver.
    pub fn post_closed<R: Wait>(
        &mut self,
        rt: &R,
        links: &Links,
        port: u32,
        stops: bool,
        closer: Option<u32>,
    ) -> Result<(), NoMemory>
        ensures { Puts result links.now.ties.ended self.old self.new (closed_mail port stops closer) }
    {
        self.post_any(rt, links, closed_post(port, stops, closer))
    }
}
