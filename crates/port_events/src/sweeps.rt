//! What is done to each event that is held, by rising number.
ghost use Rattle.std.specs.Prelude.{[], OnOk};
ghost use Rattle.port_history.specs.Events.{arm, give_up, read_no_more};
ghost use Rattle.port_events.specs.Table.{KeepsEnd};
ghost use Rattle.port_events.specs.Asks.{arm_asks, drop_asks};
ghost use Rattle.port_events.specs.Parts.{Does, one, none, each, back_now, arm_in, arm_in_asks, closing, arming, stopping};

use crate::{Dir, NoMemory, PollAsk, PortEvents};
use std::sync::Wait;

impl PortEvents {
    fn read_no_more(&mut self, event: u32)
        ensures done { Does (one read_no_more none none event) self.old self.new [] [] }
        ensures same { KeepsEnd self.old self.new }
    {
        self.events.read_no_more(event);
    }

    fn deselect_each(&mut self, events: &[u32])
        ensures done { Does (each (one read_no_more none none) events.now) self.old self.new [] [] }
        ensures same { KeepsEnd self.old self.new }
    {
        for event in events {
            self.read_no_more(*event);
        }
    }

    /// Turns all selections for reading off, where the port is closed.
    pub(crate) fn deselect(&mut self, closed: bool)
        ensures done { Does (closing closed) self.old self.new [] [] }
        ensures same { KeepsEnd self.old self.new }
    {
        if closed {
            let held = self.held();
            self.deselect_each(held.as_slice());
        }
    }

    fn arm_in<R: Wait>(&mut self, rt: &R, event: u32, dir: Dir) -> Result<(), NoMemory>
        ensures ok { OnOk result (Does (one (arm_in dir) (arm_in_asks dir self.old.port) none event) self.old self.new [] []) }
        ensures same { KeepsEnd self.old self.new }
    {
        let ask = PollAsk::Arm {
            port: self.port(),
            event,
            dir,
        };
        if self.events.arm(event, dir) {
            self.ask(rt, ask)?;
        }
        Ok(())
    }

    /// Arms the event in each direction in which it is selected.
    fn arm<R: Wait>(&mut self, rt: &R, event: u32) -> Result<(), NoMemory>
        ensures ok { OnOk result (Does (one arm (arm_asks self.old.port) none event) self.old self.new [] []) }
        ensures same { KeepsEnd self.old self.new }
    {
        self.arm_in(rt, event, Dir::Read)?;
        self.arm_in(rt, event, Dir::Write)
    }

    fn arm_each<R: Wait>(&mut self, rt: &R, events: &[u32]) -> Result<(), NoMemory>
        ensures ok { OnOk result (Does (each (one arm (arm_asks self.old.port) none) events.now) self.old self.new [] []) }
        ensures same { KeepsEnd self.old self.new }
    {
        for event in events {
            self.arm(rt, *event)?;
        }
        Ok(())
    }

    /// Arms each event where it is selected.
    #[inline(always)]
    pub(crate) fn arm_selected<R: Wait>(&mut self, rt: &R) -> Result<(), NoMemory>
        ensures ok { OnOk result (Does (arming self.old.port) self.old self.new [] []) }
        ensures same { KeepsEnd self.old self.new }
    {
        // Most ports have no events, and the list of those that are held is large.
        if self.is_given_back() {
            return Ok(());
        }
        let held = self.held();
        self.arm_each(rt, held.as_slice())
    }

    fn give_up_each<R: Wait>(
        &mut self,
        rt: &R,
        events: &[u32],
        given_back: &mut Vec<u32>,
    ) -> Result<(), NoMemory>
        ensures ok { OnOk result (Does (each (one give_up (drop_asks self.old.port) back_now) events.now) self.old self.new given_back.old.items given_back.new.items) }
        ensures same { KeepsEnd self.old self.new }
    {
        for event in events {
            self.give_up(rt, *event, given_back)?;
        }
        Ok(())
    }

    /// Gives each event up that is held, where the driver is stopped.
    pub(crate) fn stop<R: Wait>(
        &mut self,
        rt: &R,
        stops: bool,
        given_back: &mut Vec<u32>,
    ) -> Result<(), NoMemory>
        ensures ok { OnOk result (Does (stopping self.old.port stops) self.old self.new given_back.old.items given_back.new.items) }
        ensures same { KeepsEnd self.old self.new }
    {
        if !stops {
            return Ok(());
        }
        let held = self.held();
        self.give_up_each(rt, held.as_slice(), given_back)
    }
}
