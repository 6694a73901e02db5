use port_config::Config;
use port_model::{Journal, Reason};
use std::marker::Model;

/// A port as a journal tells of it: its declaration, and the history of its driver.
pub struct PortReport {
    pub name: Reason,
    /// The name of the kind of its driver.
    pub driver: Reason,
    /// The first owner, by its place among the names of the processes, from 0.
    pub owner: u32,
    pub config: Config,
    /// The events of its program's output and input, 0 and 0 without a program.
    pub events: (u32, u32),
    pub journal: Journal,
}

// Its parts go by one call, which is proved once and not in each function that may let one go.
impl Drop for PortReport {
    fn drop(self) {
        let Self {
            name: _,
            driver: _,
            owner: _,
            config: _,
            events: _,
            journal: _,
        } = self;
    }
}

/// What the text of a journal tells: the names of the processes, and the ports, each in the order of declaration. All of it is in
/// the ranges of the grammar: there are at most 32 names and 32 ports, and each process that is meant has a name.
pub struct Book {
    names: Vec<Reason>,
    ports: Vec<PortReport>,
}

// Its parts go by one call, which is proved once and not in each function that may let one go.
impl Drop for Book {
    fn drop(self) {
        let Self { names: _, ports: _ } = self;
    }
}

impl Model for Book {
    ghost use Rattle.std.specs.Prelude.{◌≡◌, true};
    ghost use Rattle.journal_text.specs.Books.{BookView, is_book};

    ghost Value = { BookView };

    ghost view = { λ b. record { names = b.names.items; ports = b.ports.items } };

    ghost invariant = { λ b. is_book (record { names = b.names.items; ports = b.ports.items }) ≡ true };
}

impl Book {
    ghost use Rattle.std.specs.Prelude.{◌≡◌, true};
    ghost use Rattle.journal_text.specs.Books.{is_book};

    /// The book of these names and ports.
    pub fn new(names: Vec<Reason>, ports: Vec<PortReport>) -> Book
        requires { is_book (record { names = names.items; ports = ports.items }) ≡ true }
        ensures { result ≡ record { names = names.items; ports = ports.items } }
    {
        Book { names, ports }
    }

    /// The names of the processes, in the order of declaration.
    pub fn names(&self) -> &[Reason]
        ensures value { result.now ≡ self.now.names }
        ensures book { is_book self.now ≡ true }
    {
        &self.names
    }

    /// The ports, in the order of declaration.
    pub fn ports(&self) -> &[PortReport]
        ensures value { result.now ≡ self.now.ports }
        ensures book { is_book self.now ≡ true }
    {
        &self.ports
    }

    /// The names and the ports, moved.
    pub fn into_parts(self) -> (Vec<Reason>, Vec<PortReport>)
        ensures names { result.0.items ≡ self.names }
        ensures ports { result.1.items ≡ self.ports }
    {
        let Book { names, ports } = self;
        (names, ports)
    }
}
