//! The script as its lines go on.

ghost use Rattle.std.specs.Prelude.{◌≡◌, ◌≤◌, ◌<◌, ◌==◌, ◌&&◌, true, length, position, Ok, IfSome, IfOk, OnOk, IfErr};
ghost use Rattle.std.specs.List.{list_any};
ghost use Rattle.std.specs.Str.{bytes_eq};
ghost use Rattle.gateway_script.specs.LineFault.{Tells};
ghost use Rattle.gateway_script.specs.Script.{empty, process_named, port_named, is_declared, is_written, is_saved, names_file, process_said, port_said, port_declared, journal_said, save_said, save_declared, act_at, step_made, living_process, step_said, die_said, said, or_fault};
ghost use Rattle.gateway_script.specs.Options.{config_of};
ghost use Rattle.script_plan.specs.Monitors.{monitor_count, oldest_monitor, NumberNext};
ghost use Rattle.gateway_script.specs.declared.line_fault.LineFault.TheVariants as fault;
ghost use Rattle.script_plan.specs.declared.step.Act.TheVariants as act;
ghost use Rattle.gateway_script.specs.Draft.{IsDraft, plan_of};
ghost use Rattle.port_config.specs.Config.{is_config};
ghost use Rattle.script_plan.specs.Plan.{IsWithin};
ghost use Rattle.gateway_script.specs.Ranges.{InAction, InStatement};

use crate::config::config_of;
use crate::line_fault::LineFault;
use crate::options::PortOptions;
use crate::statement::{Action, CommandOptions, Statement};
use crate::steps::{MAX_NAMED, MAX_STEPS, Steps};
use crate::words::is_same;
use no_memory::NoMemory;
use script_plan::{
    Act, Config, FileName, Piece, PortDecl, ProcessDecl, Reason, SaveDecl, Script, ScriptParts,
    Step,
};
use std::alloc::Global;

/// How many bytes of a script a step is expected to take. Where steps are shorter their list grows.
const STEP_BYTES: usize = 32;

/// What the lines so far say.
#[derive(Drop)]
pub(crate) struct Draft {
    pub processes: Vec<ProcessDecl>,
    pub ports: Vec<PortDecl>,
    pub saves: Vec<SaveDecl>,
    pub journal: Option<FileName>,
    pub steps: Steps,
}

impl Draft {
    /// What no lines say, with room for the steps of the text.
    pub(crate) fn for_text(alloc: Global, text: &Piece) -> Result<Draft, NoMemory>
        ensures draft { IfOk result IsDraft }
        ensures empty { IfOk result (λ d. plan_of d ≡ empty) }
    {
        Ok(Draft {
            processes: Vec::new(alloc),
            ports: Vec::new(alloc),
            saves: Vec::new(alloc),
            journal: None,
            steps: Steps::with_room(alloc, text.len() / STEP_BYTES)?,
        })
    }

    /// The script that the lines so far are.
    pub(crate) fn into_script(self) -> Script
        requires { IsDraft self }
        ensures { result ≡ plan_of self }
    {
        Script::new(ScriptParts {
            processes: self.processes,
            ports: self.ports,
            saves: self.saves,
            journal: self.journal,
            steps: self.steps.list,
        })
    }

    /// Takes in what a line of this number says.
    #[tactic(auto, unfolding(crate::specs::Script::said, crate::specs::Script::port_said))]
    pub(crate) fn take_in(
        &mut self,
        alloc: Global,
        line: u32,
        statement: Statement,
    ) -> Result<(), LineFault>
        requires draft { IsDraft self.old }
        requires ranges { InStatement statement }
        ensures draft { OnOk result (IsDraft self.new) }
        ensures ok { OnOk result (said (plan_of self.old) line statement ≡ Ok (plan_of self.new)) }
        ensures fault { IfErr result (λ f. Tells (said (plan_of self.old) line statement) f) }
    {
        match statement {
            Statement::Nothing => Ok(()),
            Statement::Process(name) => self.declare_process(line, name),
            Statement::Port {
                name,
                process,
                driver,
                options,
            } => {
                let owner = self.process_named(&process)?;
                let config = config_of(alloc, &options)?;
                self.declare_port(line, name, owner, driver, config)
            }
            Statement::Journal(name) => self.write_journal(name),
            Statement::Save {
                process,
                port,
                name,
            } => self.save(line, &process, &port, name),
            Statement::Step {
                process,
                port,
                action,
            } => self.take_step(line, &process, &port, action),
            Statement::Die { process, reason } => self.end_process(line, &process, reason),
        }
    }

    /// Declares a process.
    fn declare_process(&mut self, line: u32, name: Reason) -> Result<(), LineFault>
        requires { IsDraft self.old }
        ensures draft { OnOk result (IsDraft self.new) }
        ensures ok { OnOk result (process_said (plan_of self.old) line name ≡ Ok (plan_of self.new)) }
        ensures fault { IfErr result (λ f. Tells (process_said (plan_of self.old) line name) f) }
    {
        if self.is_declared(&name) {
            return Err(LineFault::Repeated);
        }
        if self.processes.len() >= MAX_NAMED {
            return Err(LineFault::Limit(1));
        }
        self.processes.push(ProcessDecl { line, name })?;
        Ok(())
    }

    /// Declares a port of the process at this place.
    fn declare_port(
        &mut self,
        line: u32,
        name: Reason,
        owner: u32,
        driver: Reason,
        config: Config,
    ) -> Result<(), LineFault>
        requires draft { IsDraft self.old }
        requires owner { owner < length self.old.processes.items }
        requires config { is_config config ≡ true }
        ensures draft { OnOk result (IsDraft self.new) }
        ensures ok { OnOk result (port_declared (plan_of self.old) line name owner driver config ≡ Ok (plan_of self.new)) }
        ensures fault { IfErr result (λ f. Tells (port_declared (plan_of self.old) line name owner driver config) f) }
    {
        if self.is_declared(&name) {
            return Err(LineFault::Repeated);
        }
        if self.ports.len() >= MAX_NAMED {
            return Err(LineFault::Limit(2));
        }
        self.ports.push(PortDecl {
            line,
            name,
            owner,
            driver,
            config,
        })?;
        Ok(())
    }

    /// Writes the journal to the file of this name.
    fn write_journal(&mut self, name: FileName) -> Result<(), LineFault>
        requires { IsDraft self.old }
        ensures draft { OnOk result (IsDraft self.new) }
        ensures ok { OnOk result (journal_said (plan_of self.old) name ≡ Ok (plan_of self.new)) }
        ensures fault { IfErr result (λ f. Tells (journal_said (plan_of self.old) name) f) }
    {
        if self.journal.is_some() || self.is_written(&name) {
            return Err(LineFault::Repeated);
        }
        self.journal = Some(name);
        Ok(())
    }

    /// Writes what a process gets from a port to the file of this name.
    #[tactic(auto, unfolding(crate::specs::Script::save_said))]
    fn save(
        &mut self,
        line: u32,
        process: &Reason,
        port: &Reason,
        name: FileName,
    ) -> Result<(), LineFault>
        requires { IsDraft self.old }
        ensures draft { OnOk result (IsDraft self.new) }
        ensures ok { OnOk result (save_said (plan_of self.old) line process.now port.now name ≡ Ok (plan_of self.new)) }
        ensures fault { IfErr result (λ f. Tells (save_said (plan_of self.old) line process.now port.now name) f) }
    {
        let process = self.process_named(process)?;
        let port = self.port_named(port)?;
        self.declare_save(line, process, port, name)
    }

    /// Writes what the process at this place gets from the port at that one to the file of this name.
    fn declare_save(
        &mut self,
        line: u32,
        process: u32,
        port: u32,
        file: FileName,
    ) -> Result<(), LineFault>
        requires draft { IsDraft self.old }
        requires process { process < length self.old.processes.items }
        requires port { port < length self.old.ports.items }
        ensures draft { OnOk result (IsDraft self.new) }
        ensures ok { OnOk result (save_declared (plan_of self.old) line process port file ≡ Ok (plan_of self.new)) }
        ensures fault { IfErr result (λ f. Tells (save_declared (plan_of self.old) line process port file) f) }
    {
        if self.is_saved(process, port) || self.is_written(&file) {
            return Err(LineFault::Repeated);
        }
        self.saves.push(SaveDecl {
            line,
            process,
            port,
            file,
        })?;
        Ok(())
    }

    /// Whether the data that this process gets from this port is saved.
    fn is_saved(&self, process: u32, port: u32) -> bool
        ensures { result ≡ is_saved (plan_of self.now) process port }
    {
        self.saves
            .iter()
            .any(|save| save.process == process && save.port == port)
    }

    /// Whether the journal or a save is written to the file of this name.
    fn is_written(&self, name: &FileName) -> bool
        ensures { result ≡ is_written (plan_of self.now) name.now }
    {
        self.is_journal(name) || self.is_save(name)
    }

    fn is_journal(&self, name: &FileName) -> bool
        ensures { result ≡ names_file name.now self.now.journal }
    {
        match &self.journal {
            Some(file) => file.as_str() == name.as_str(),
            None => false,
        }
    }

    fn is_save(&self, name: &FileName) -> bool
        ensures { result ≡ list_any (λ s. bytes_eq s.file name.now) self.now.saves.items }
    {
        self.saves
            .iter()
            .any(|save| save.file.as_str() == name.as_str())
    }

    /// The place of the process of this name.
    fn process_named(&self, name: &Reason) -> Result<u32, LineFault>
        requires { length self.now.processes.items ≤ 32 }
        ensures place { result ≡ process_named (plan_of self.now) name.now }
        ensures within { IfOk result (λ place. place < length self.now.processes.items) }
    {
        match self.process_place(name) {
            Some(place) => Ok(place as u32),
            None => Err(LineFault::UnknownName),
        }
    }

    /// The place of the process of this name, if there is one.
    fn process_place(&self, name: &Reason) -> Option<usize>
        ensures place { result ≡ position (λ p. bytes_eq p.name name.now) self.now.processes.items }
        ensures within { IfSome result (λ place. place < length self.now.processes.items) }
    {
        self.processes.iter().position(|process| is_same(process.name.as_bytes(), name.as_bytes()))
    }

    /// The place of the port of this name.
    fn port_named(&self, name: &Reason) -> Result<u32, LineFault>
        requires { length self.now.ports.items ≤ 32 }
        ensures place { result ≡ port_named (plan_of self.now) name.now }
        ensures within { IfOk result (λ place. place < length self.now.ports.items) }
    {
        match self.port_place(name) {
            Some(place) => Ok(place as u32),
            None => Err(LineFault::UnknownName),
        }
    }

    /// The place of the port of this name, if there is one.
    fn port_place(&self, name: &Reason) -> Option<usize>
        ensures place { result ≡ position (λ p. bytes_eq p.name name.now) self.now.ports.items }
        ensures within { IfSome result (λ place. place < length self.now.ports.items) }
    {
        self.ports
            .iter()
            .position(|port| is_same(port.name.as_bytes(), name.as_bytes()))
    }

    /// Whether a process or a port has this name.
    fn is_declared(&self, name: &Reason) -> bool
        ensures { result ≡ is_declared (plan_of self.now) name.now }
    {
        self.is_process(name) || self.is_port(name)
    }

    fn is_process(&self, name: &Reason) -> bool
        ensures { result ≡ list_any (λ p. bytes_eq p.name name.now) self.now.processes.items }
    {
        self.processes.iter().any(|process| is_same(process.name.as_bytes(), name.as_bytes()))
    }

    fn is_port(&self, name: &Reason) -> bool
        ensures { result ≡ list_any (λ p. bytes_eq p.name name.now) self.now.ports.items }
    {
        self.ports
            .iter()
            .any(|port| is_same(port.name.as_bytes(), name.as_bytes()))
    }

    /// Takes in a step of the process of this name at the port of that name.
    #[tactic(auto, unfolding(crate::specs::Script::step_said))]
    fn take_step(
        &mut self,
        line: u32,
        process: &Reason,
        port: &Reason,
        action: Action,
    ) -> Result<(), LineFault>
        requires draft { IsDraft self.old }
        requires ranges { InAction action }
        ensures draft { OnOk result (IsDraft self.new) }
        ensures ok { OnOk result (step_said (plan_of self.old) line process.now port.now action ≡ Ok (plan_of self.new)) }
        ensures fault { IfErr result (λ f. Tells (step_said (plan_of self.old) line process.now port.now action) f) }
    {
        let process = self.living_process(process)?;
        let port = self.port_named(port)?;
        let act = self.act_at(process, port, action)?;
        self.make_step(line, process, act)
    }

    /// Ends the process of this name.
    #[tactic(auto, unfolding(crate::specs::Script::die_said))]
    fn end_process(&mut self, line: u32, process: &Reason, reason: Reason) -> Result<(), LineFault>
        requires { IsDraft self.old }
        ensures draft { OnOk result (IsDraft self.new) }
        ensures ok { OnOk result (die_said (plan_of self.old) line process.now reason ≡ Ok (plan_of self.new)) }
        ensures fault { IfErr result (λ f. Tells (die_said (plan_of self.old) line process.now reason) f) }
    {
        let process = self.living_process(process)?;
        self.make_step(line, process, Act::Die(reason))
    }

    /// The place of the process of this name, which hasn't died.
    #[tactic(auto, unfolding(crate::specs::Script::living_process))]
    fn living_process(&self, name: &Reason) -> Result<u32, LineFault>
        requires { IsDraft self.now }
        ensures place { result ≡ living_process (plan_of self.now) name.now }
        ensures within { IfOk result (λ place. place < length self.now.processes.items) }
    {
        let process = self.process_named(name)?;
        if self.steps.has_died(process) {
            return Err(LineFault::Bad);
        }
        Ok(process)
    }

    /// Puts a step at the end.
    fn make_step(&mut self, line: u32, process: u32, act: Act) -> Result<(), LineFault>
        requires draft { IsDraft self.old }
        requires process { process < length self.old.processes.items }
        requires within { IsWithin (length self.old.processes.items) (length self.old.ports.items) act }
        requires number { NumberNext (monitor_count process self.old.steps.list.items) act }
        ensures draft { OnOk result (IsDraft self.new) }
        ensures ok { OnOk result (step_made (plan_of self.old) line process act ≡ Ok (plan_of self.new)) }
        ensures fault { IfErr result (λ f. Tells (step_made (plan_of self.old) line process act) f) }
    {
        if self.steps.list.len() >= MAX_STEPS {
            return Err(LineFault::Limit(3));
        }
        self.steps.push(Step { line, process, act })?;
        Ok(())
    }

    /// What the process at this place does at the port at that one.
    fn act_at(&self, process: u32, port: u32, action: Action) -> Result<Act, LineFault>
        requires draft { IsDraft self.now }
        requires ranges { InAction action }
        requires process { process < length self.now.processes.items }
        requires port { port < length self.now.ports.items }
        ensures act { result ≡ act_at (plan_of self.now) process port action }
        ensures within { IfOk result (IsWithin (length self.now.processes.items) (length self.now.ports.items)) }
        ensures number { IfOk result (NumberNext (monitor_count process self.now.steps.list.items)) }
    {
        Ok(match action {
            Action::Command { bytes, how } => command(port, bytes, how),
            Action::File { size, name, how } => file(port, size, name, how),
            Action::Send(bytes) => Act::Send { port, bytes },
            Action::Control { op, bytes } => Act::Control { port, op, bytes },
            Action::Call { op, bytes } => Act::Call { port, op, bytes },
            Action::Close => Act::Close(port),
            Action::Connect(to) => {
                let to = self.process_named(&to)?;
                Act::Connect { port, to }
            }
            Action::SendClose => Act::SendClose(port),
            Action::SendConnect(to) => {
                let to = self.process_named(&to)?;
                Act::SendConnect { port, to }
            }
            Action::Link => Act::Link(port),
            Action::Unlink => Act::Unlink(port),
            Action::Monitor => Act::Monitor {
                port,
                number: self.steps.monitor_count(process),
            },
            Action::Demonitor => {
                let number = self.oldest_monitor(process, port)?;
                Act::Demonitor { port, number }
            }
            Action::Exit(reason) => Act::Exit { port, reason },
            Action::Expect(count) => Act::Expect { port, count },
            Action::Bytes(count) => Act::Bytes { port, count },
        })
    }

    /// The oldest monitor that the process at this place has of the port at this place.
    fn oldest_monitor(&self, process: u32, port: u32) -> Result<u64, LineFault>
        requires draft { IsDraft self.now }
        requires process { process < length self.now.processes.items }
        requires port { port < length self.now.ports.items }
        ensures oldest { result ≡ or_fault fault.Bad (oldest_monitor process port self.now.steps.list.items) }
        ensures below { IfOk result (λ number. number < monitor_count process self.now.steps.list.items) }
    {
        match self.steps.oldest_monitor(process, port) {
            Some(number) => Ok(number),
            None => Err(LineFault::Bad),
        }
    }
}

/// A command to the port at this place.
fn command(port: u32, bytes: Piece, how: CommandOptions) -> Act
    ensures { result ≡ act.Command port bytes how.force how.nosuspend }
{
    Act::Command {
        port,
        bytes,
        force: how.force,
        nosuspend: how.nosuspend,
    }
}

/// Commands of the pieces of a file to the port at this place.
fn file(port: u32, size: u32, file: FileName, how: CommandOptions) -> Act
    ensures { result ≡ act.File port size file how.force how.nosuspend }
{
    Act::File {
        port,
        size,
        file,
        force: how.force,
        nosuspend: how.nosuspend,
    }
}
