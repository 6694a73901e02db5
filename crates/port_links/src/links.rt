ghost use Rattle.std.specs.Prelude.{◌≡◌, ◌<◌, true, false, map, All, IfOk, OnOk, OnErr, if◌then◌else◌};
ghost use Rattle.port_history.specs.port_model.port_signal.Links.{has, with_process, without_process, has_monitor, with_monitor, without_monitor, exit_closes, end_closes};
ghost use Rattle.port_history.specs.port_model.port_signal.Reasons.{told_reason};
ghost use Rattle.port_history.specs.Opening.{Opening, is_process};
ghost use Rattle.port_history.specs.Ties.{opened, may_own, with_owner, monitor_of, without, untied};
ghost use Rattle.port_history.specs.Mail.{end_mail};
ghost use Rattle.port_links.specs.Posts.{sent_of};

use crate::ends::exit_posts;
use crate::monitors::MonitorTable;
use crate::{Monitor, NoMemory, Post, Reason, Sender};
use std::alloc::Global;
use std::marker::Model;

/// The ties of one port to the processes.
///
/// A process goes by its place in the order of declaration, from 0. The linked processes, and those that have ended, are in
/// rising order, and the monitors are in the order of their processes and then of their numbers, each once. A call touches
/// the process that it names, and `monitor` and `demonitor` a number of monitors that grows with the logarithm of all; `gone`
/// looks at each monitor, and `end` at each process and each monitor. Only `new`, `monitor` and `end` take memory.
#[derive(Drop)]
pub struct Links {
    owner: u32,
    // For each process, by its number, whether it is linked.
    linked: Vec<bool>,
    // For each process, by its number, whether it has ended.
    ended: Vec<bool>,
    monitors: MonitorTable,
}

impl Model for Links {
    ghost use Rattle.std.specs.Prelude.{length};
    ghost use Rattle.port_links.specs.Table.{LinkTable};
    ghost use Rattle.port_links.specs.Flags.{set_flags, IsKept};

    ghost Value = { LinkTable };

    ghost view = { λ l. record {
      ties = record { owner = l.owner; linked = set_flags 0 l.linked.items; monitors = l.monitors; ended = set_flags 0 l.ended.items };
      processes = length l.ended.items;
    } };

    ghost invariant = { λ l. IsKept l.owner l.linked.items l.ended.items l.monitors };
}

impl Links {
    /// The ties of a port that was just opened: its owner is linked, and no process has ended.
    pub fn new(alloc: Global, owner: u32, processes: u32) -> Result<Links, NoMemory>
        requires { owner < processes }
        ensures { IfOk result (λ links. links ≡ record { ties = opened owner; processes = processes }) }
    {
        let mut linked = vec![in alloc; false; processes as usize]?;
        linked[owner as usize] = true;
        Ok(Links {
            owner,
            linked,
            ended: vec![in alloc; false; processes as usize]?,
            monitors: MonitorTable::new(alloc),
        })
    }

    pub fn owner(&self) -> u32
        ensures value { result ≡ self.now.ties.owner }
        ensures below { result < self.now.processes }
    {
        self.owner
    }

    pub fn is_owner(&self, from: Sender) -> bool
        ensures { result ≡ is_process self.now.ties.owner from }
    {
        matches!(from, Sender::Process(process) if process == self.owner)
    }

    pub fn is_linked(&self, process: u32) -> bool
        ensures { result ≡ has process self.now.ties.linked }
    {
        self.linked.get(process as usize).copied().unwrap_or(false)
    }

    /// Whether the process has ended. One that was never there has not.
    pub fn is_ended(&self, process: u32) -> bool
        ensures { result ≡ has process self.now.ties.ended }
    {
        self.ended.get(process as usize).copied().unwrap_or(false)
    }

    /// Whether the process is there and has not ended, so that it can be the owner.
    pub fn may_own(&self, process: u32) -> bool
        ensures value { (port : Opening) → port.processes ≡ self.now.processes → result ≡ may_own port self.now.ties process }
        ensures below { result ≡ true → process < self.now.processes }
    {
        !self.ended.get(process as usize).copied().unwrap_or(true)
    }

    /// Links the process.
    pub fn link(&mut self, process: u32)
        requires { process < self.old.processes }
        ensures { self.new ≡ record self.old { ties = record self.old.ties { linked = with_process process self.old.ties.linked } } }
    {
        self.linked[process as usize] = true;
    }

    /// Takes the link of the process away, where there is one.
    pub fn unlink(&mut self, process: u32)
        ensures { self.new ≡ record self.old { ties = record self.old.ties { linked = without_process process self.old.ties.linked } } }
    {
        if let Some(linked) = self.linked.get_mut(process as usize) {
            *linked = false;
        }
    }

    /// Makes the process the owner, and links it, where it may own the port; tells whether it could. The owner before stays
    /// linked, as `port_connect` says.
    pub fn connect(&mut self, process: u32) -> bool
        ensures value { (port : Opening) → port.processes ≡ self.old.processes → result ≡ may_own port self.old.ties process }
        ensures connected { result ≡ true → self.new ≡ record self.old { ties = with_owner process self.old.ties } }
        ensures refused { result ≡ false → self.new ≡ self.old }
    {
        if !self.may_own(process) {
            return false;
        }
        self.owner = process;
        self.linked[process as usize] = true;
        true
    }

    /// Adds a monitor of the port by a process. One that is there stays.
    pub fn monitor(&mut self, process: u32, number: u64) -> Result<(), NoMemory>
        requires { process < self.old.processes }
        ensures ok { OnOk result (self.new ≡ record self.old { ties = record self.old.ties { monitors = with_monitor (monitor_of process number) self.old.ties.monitors } }) }
        ensures err { OnErr result (self.new ≡ self.old) }
    {
        self.monitors.add(Monitor { process, number })?;
        Ok(())
    }

    /// Takes the monitor away, and tells whether there was one.
    pub fn demonitor(&mut self, process: u32, number: u64) -> bool
        ensures value { result ≡ has_monitor (monitor_of process number) self.old.ties.monitors }
        ensures ties { self.new ≡ record self.old { ties = record self.old.ties { monitors = without_monitor (monitor_of process number) self.old.ties.monitors } } }
    {
        self.monitors.remove(&Monitor { process, number })
    }

    /// The process has ended: its link and its monitors go.
    pub fn gone(&mut self, process: u32)
        requires { process < self.old.processes }
        ensures { self.new ≡ record self.old { ties = without process self.old.ties } }
    {
        self.ended[process as usize] = true;
        self.linked[process as usize] = false;
        self.monitors.remove_process(process);
    }

    /// Whether this reason closes the port: that of an exit signal of the process, or of the end of the process where it is
    /// gone. It is asked before `gone` is told.
    pub fn closes(&self, process: u32, gone: bool, reason: &Reason) -> bool
        ensures { result ≡ (if gone then end_closes self.now.ties.owner self.now.ties.linked process reason.now else exit_closes self.now.ties.owner process reason.now) }
    {
        process == self.owner || ((!gone || self.is_linked(process)) && !reason.is_normal())
    }

    /// What the end of the port of this number sends, for this reason: exit signals to the linked processes, and then what
    /// the monitors are told. `kill` is told as `killed`. The links and the monitors go.
    pub fn end(&mut self, port: u32, reason: &Reason) -> Result<Vec<Post>, NoMemory>
        ensures posts { IfOk result (λ posts. map sent_of posts.items ≡ end_mail port (told_reason reason.now) self.old.ties) }
        ensures below { IfOk result (λ posts. All (λ post. post.to < self.old.processes) posts.items) }
        ensures ok { OnOk result (self.new ≡ record self.old { ties = untied self.old.ties }) }
        ensures err { OnErr result (self.new ≡ self.old) }
        ensures processes { self.new.processes ≡ self.old.processes }
    {
        let told = reason.told();
        let alloc = *self.linked.allocator();
        let mut posts = exit_posts(alloc, port, &told, &self.linked)?;
        self.monitors.tell(port, &told, &mut posts)?;
        self.linked.fill(false);
        self.monitors.clear();
        Ok(posts)
    }
}
