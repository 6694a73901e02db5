ghost use Rattle.std.specs.Prelude.{◌≡◌, ◌++◌, [], map, OnOk, OnErr};
ghost use Rattle.port_history.specs.port_model.port_signal.Links.{has_monitor, with_monitor, without_monitor, without_watcher};
ghost use Rattle.std.specs.BTreeMap.{keys};
ghost use Rattle.port_links.specs.Posts.{sent_of, down_of};
ghost use Rattle.port_links.specs.Indexed.{IsIndexed};

use crate::ends::down_post;
use crate::{Monitor, NoMemory, Post, Reason};
use slab::Slab;
use std::alloc::Global;
use std::collections::BTreeMap;
use std::marker::Model;

/// The monitors of one port. Each lies in a slab, and an index by process and number tells its key there.
#[derive(Drop)]
pub(crate) struct MonitorTable {
    slab: Slab<Monitor>,
    index: BTreeMap<Monitor, usize>,
}

impl Model for MonitorTable {
    ghost use Rattle.std.specs.Prelude.{List};
    ghost use Rattle.std.specs.BTreeMap.{keys};
    ghost use Rattle.port_history.specs.port_model.port_signal.declared.monitor.Monitor.{Monitor as Entry};
    ghost use Rattle.port_links.specs.Indexed.{IsIndexed};

    ghost Value = { List Entry };

    ghost view = { λ t. keys t.index };

    ghost invariant = { λ t. IsIndexed t.slab t.index };
}

impl MonitorTable {
    pub(crate) fn new(alloc: Global) -> MonitorTable
        ensures { result ≡ [] }
    {
        MonitorTable {
            slab: Slab::new(alloc),
            index: BTreeMap::new(alloc),
        }
    }

    /// Adds a monitor. One that is there stays.
    pub(crate) fn add(&mut self, monitor: Monitor) -> Result<(), NoMemory>
        ensures ok { OnOk result (self.new ≡ with_monitor monitor self.old) }
        ensures err { OnErr result (self.new ≡ self.old) }
    {
        if self.index.contains_key(&monitor) {
            return Ok(());
        }
        self.slab.reserve(1)?;
        self.index.insert(monitor, self.slab.vacant_key())?;
        self.slab.insert_reserved(monitor);
        Ok(())
    }

    /// Takes the monitor away, and tells whether there was one.
    pub(crate) fn remove(&mut self, monitor: &Monitor) -> bool
        ensures value { result ≡ has_monitor monitor.now self.old }
        ensures rest { self.new ≡ without_monitor monitor.now self.old }
    {
        match self.index.remove(monitor) {
            Some(key) => {
                self.slab.remove(key);
                true
            }
            None => false,
        }
    }

    /// Takes the monitors of a process away.
    pub(crate) fn remove_process(&mut self, process: u32)
        ensures { self.new ≡ without_watcher process self.old }
    {
        self.index
            .retain(|monitor, _key| monitor.process != process);
        self.slab.retain(|_key, monitor| monitor.process != process);
    }

    pub(crate) fn clear(&mut self)
        ensures { self.new ≡ [] }
    {
        self.index.clear();
        self.slab.clear();
    }

    /// Appends what the monitors are told of the port's end, in their order.
    pub(crate) fn tell(
        &self,
        port: u32,
        reason: &Reason,
        posts: &mut Vec<Post>,
    ) -> Result<(), NoMemory>
        ensures { OnOk result (map sent_of posts.new.items ≡ map sent_of posts.old.items ++ map (down_of port reason.now) self.now) }
    {
        tell_each(port, reason, &self.slab, &self.index, posts)
    }
}

/// Appends what the monitors of a slab are told, in the order of their index.
fn tell_each(
    port: u32,
    reason: &Reason,
    slab: &Slab<Monitor>,
    index: &BTreeMap<Monitor, usize>,
    posts: &mut Vec<Post>,
) -> Result<(), NoMemory>
    requires { IsIndexed slab.now index.now }
    ensures { OnOk result (map sent_of posts.new.items ≡ map sent_of posts.old.items ++ map (down_of port reason.now) (keys index.now)) }
{
    for (_, key) in index.iter() {
        posts.push(down_post(port, reason, &slab[*key]))?;
    }
    Ok(())
}
