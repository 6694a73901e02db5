ghost use Rattle.std.specs.Prelude.{◌≡◌};
ghost use Rattle.std.specs.Option.{option_map};
ghost use Rattle.script_plan.specs.Plan.{IsPlan, plan_of};

use crate::{FileName, PortDecl, ProcessDecl, SaveDecl, Step};
use std::marker::Model;

/// The lists of a script, each in the order of its lines, and the file to which the journal is written.
#[derive(Drop)]
pub struct ScriptParts {
    pub processes: Vec<ProcessDecl>,
    pub ports: Vec<PortDecl>,
    pub saves: Vec<SaveDecl>,
    pub journal: Option<FileName>,
    pub steps: Vec<Step>,
}

/// What a script says. It is seen as its lists of processes, ports, saves and steps, each in the order of the script and with its line.
#[derive(Drop)]
pub struct Script {
    parts: ScriptParts,
}

impl Model for Script {
    ghost use Rattle.script_plan.specs.Plan.{Plan, IsPlan, plan_of};

    ghost Value = { Plan };

    ghost view = { λ s. plan_of s.parts };

    ghost invariant = { λ s. IsPlan (plan_of s.parts) };
}

impl Script {
    /// The script of these parts.
    pub fn new(parts: ScriptParts) -> Script
        requires { IsPlan (plan_of parts) }
        ensures { result ≡ plan_of parts }
    {
        Script { parts }
    }

    pub fn processes(&self) -> &[ProcessDecl]
        ensures value { result.now ≡ self.now.processes }
        ensures plan { IsPlan self.now }
    {
        self.parts.processes.as_slice()
    }

    pub fn ports(&self) -> &[PortDecl]
        ensures value { result.now ≡ self.now.ports }
        ensures plan { IsPlan self.now }
    {
        self.parts.ports.as_slice()
    }

    pub fn saves(&self) -> &[SaveDecl]
        ensures value { result.now ≡ self.now.saves }
        ensures plan { IsPlan self.now }
    {
        self.parts.saves.as_slice()
    }

    pub fn steps(&self) -> &[Step]
        ensures value { result.now ≡ self.now.steps }
        ensures plan { IsPlan self.now }
    {
        self.parts.steps.as_slice()
    }

    /// The file to which the journal is written, if there is one.
    pub fn journal(&self) -> Option<&str>
        ensures { option_map (λ name. name.now) result ≡ self.now.journal }
    {
        match &self.parts.journal {
            Some(name) => Some(name.as_str()),
            None => None,
        }
    }

    /// The parts, moved.
    pub fn into_parts(self) -> ScriptParts
        ensures value { plan_of result ≡ self }
        ensures plan { IsPlan self }
    {
        self.parts
    }
}
