ghost use Rattle.std.specs.Prelude.{◌≡◌, ◌≤◌, ◌<◌, [], length, vec_len};

use no_memory::NoMemory;
use std::alloc::Global;
use std::marker::Model;

/// The most entries of an `Items`.
pub const MAX_ITEMS: usize = 1_048_576;

/// A list of at most 1,048,576 entries, as plain data: the outside answers and the effects of a row, the ports and
/// processes of a report.
#[derive(Drop)]
pub struct Items<T> {
    items: Vec<T>,
}

impl<T> Model for Items<T> {
    ghost use Rattle.std.specs.Prelude.{◌≤◌, List, vec_len};

    ghost Value = { List T };

    ghost view = { λ i. i.items.items };

    ghost invariant = { λ i. vec_len i.items ≤ 1048576 };
}

impl<T> Items<T> {
    /// No entry. It takes no memory.
    pub fn new(alloc: Global) -> Items<T>
        ensures { result ≡ [] }
    {
        Items {
            items: Vec::new(alloc),
        }
    }

    /// The entries, moved. It takes no memory.
    pub fn of_vec(items: Vec<T>) -> Items<T>
        requires { vec_len items ≤ MAX_ITEMS }
        ensures { result ≡ items.items }
    {
        Items { items }
    }

    /// The entries, moved back.
    pub fn into_vec(self) -> Vec<T>
        ensures items { result.items ≡ self }
        ensures len { vec_len result ≤ MAX_ITEMS }
    {
        let Items { items } = self;
        items
    }

    pub fn as_slice(&self) -> &[T]
        ensures items { result.now ≡ self.now }
        ensures len { length self.now ≤ MAX_ITEMS }
    {
        self.items.as_slice()
    }
}

/// A list that only grows, as plain data: the rows of a journal, the receipts and the mail of a process.
#[derive(Drop)]
pub struct Log<T> {
    items: Vec<T>,
}

impl<T> Model for Log<T> {
    ghost use Rattle.std.specs.Prelude.{List};

    ghost Value = { List T };

    ghost view = { λ l. l.items.items };
}

impl<T> Log<T> {
    /// No entry. It takes no memory.
    pub fn new(alloc: Global) -> Log<T>
        ensures { result ≡ [] }
    {
        Log {
            items: Vec::new(alloc),
        }
    }

    /// The entries, moved. It takes no memory.
    pub fn of_vec(items: Vec<T>) -> Log<T>
        ensures { result ≡ items.items }
    {
        Log { items }
    }

    /// The entries, moved back.
    pub fn into_vec(self) -> Vec<T>
        ensures { result.items ≡ self }
    {
        let Log { items } = self;
        items
    }

    pub fn as_slice(&self) -> &[T]
        ensures { result.now ≡ self.now }
    {
        self.items.as_slice()
    }
}
