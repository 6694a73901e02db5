ghost use Rattle.std.specs.Prelude.{◌≡◌, ◌∷◌, ◌<◌, [], length, map, OnOk, OnErr};
ghost use Rattle.port_links.specs.port_history.Mail.{send};
ghost use Rattle.port_links.specs.Posts.{sent_of};
ghost use Rattle.port_mail.specs.Ends.{Puts, SendsAt};
ghost use Rattle.port_mail.specs.Rows.{sent_by};

use crate::{Links, Mail, NoMemory, Post, SendEnd};
use std::marker::Model;
use std::sync::Wait;

/// A port's sending ends into the mailboxes of all processes, in the order of their declaration, from 0.
///
/// The calls that post take the ties of the port as they are after the row: who has ended gets nothing. A process whose number is
/// that of no end gets nothing either. Where memory is wanting, the mail up to that place was put, and the rest was not. Each call
/// may spin while another thread is in a call of the same mailbox.
#[derive(Drop)]
pub struct Mailboxes {
    ends: Vec<SendEnd<Mail>>,
}

impl Model for Mailboxes {
    ghost use Rattle.std.specs.Prelude.{List};
    ghost use Rattle.port_mail.specs.Ends.{MailEnd};

    ghost Value = { List MailEnd };

    ghost view = { λ m. m.ends.items };
}

impl Mailboxes {
    /// It takes no memory.
    pub fn new(ends: Vec<SendEnd<Mail>>) -> Mailboxes
        ensures { result ≡ ends.items }
    {
        Mailboxes { ends }
    }

    /// The ends, in their order. It takes no memory.
    pub fn into_ends(self) -> Vec<SendEnd<Mail>>
        ensures { result.items ≡ self }
    {
        let Mailboxes { ends } = self;
        ends
    }

    /// Puts one mail to a process.
    pub fn post<R: Wait>(
        &mut self,
        rt: &R,
        links: &Links,
        to: u32,
        mail: Mail,
    ) -> Result<(), NoMemory>
        ensures { Puts result links.now.ties.ended self.old self.new (send to mail ∷ []) }
    {
        let place = to as usize;
        if links.is_ended(to) {
            return Ok(());
        }
        if place >= self.ends.len() {
            return Ok(());
        }
        self.post_at(rt, place, mail)
    }

    /// Puts one mail through the end at a place.
    fn post_at<R: Wait>(&mut self, rt: &R, place: usize, mail: Mail) -> Result<(), NoMemory>
        requires { place < length self.old }
        ensures ok { OnOk result (SendsAt self.old place mail self.new) }
        ensures err { OnErr result (self.new ≡ self.old) }
    {
        match self.ends[place].put(rt, mail) {
            Ok(_) => Ok(()),
            Err((_, no_memory)) => Err(no_memory),
        }
    }

    /// Puts the mail of a post, where there is one.
    pub(crate) fn post_any<R: Wait>(
        &mut self,
        rt: &R,
        links: &Links,
        post: Option<Post>,
    ) -> Result<(), NoMemory>
        ensures { Puts result links.now.ties.ended self.old self.new (sent_by post) }
    {
        match post {
            Some(Post { to, mail }) => self.post(rt, links, to, mail),
            None => Ok(()),
        }
    }

    /// Puts the mail of these posts, in their order: what the end of the port sends, as `Links::end` answers it.
    pub fn post_all<R: Wait>(
        &mut self,
        rt: &R,
        links: &Links,
        posts: Vec<Post>,
    ) -> Result<(), NoMemory>
        ensures { Puts result links.now.ties.ended self.old self.new (map sent_of posts.items) }
    {
        for Post { to, mail } in posts {
            self.post(rt, links, to, mail)?;
        }
        Ok(())
    }
}
