ghost use Rattle.std.specs.Prelude.{◌≡◌, ◌≤◌, length};

use std::marker::Model;

/// The greatest number of items of a tuple or a list, and of bytes of a binary.
pub const MAX_ITEMS: usize = 262_143;

/// The greatest number of characters of an atom's name.
pub const MAX_NAME_CHARS: usize = 255;

/// The greatest depth of a term that is read or written, where a term without items has depth 1.
pub const MAX_DEPTH: u32 = 64;

/// Bytes, at most 262,143.
#[derive(Debug, Drop)]
pub struct Octets {
    bytes: Vec<u8>,
}

impl Model for Octets {
    ghost use Rattle.std.specs.Prelude.{List, ℕ, ◌≤◌, length};
    ghost use Rattle.port_terms.specs.declared.values.TheConstants.{MAX_ITEMS};

    ghost Value = { List ℕ };

    ghost view = { λ o. o.bytes.items };

    ghost invariant = { λ o. length o.bytes.items ≤ MAX_ITEMS };
}

impl Octets {
    pub(crate) fn new(bytes: Vec<u8>) -> Octets
        requires { length bytes.items ≤ MAX_ITEMS }
        ensures { result ≡ bytes.items }
    {
        Octets { bytes }
    }

    /// The bytes, in their order.
    pub fn as_slice(&self) -> &[u8]
        ensures bytes { result.now ≡ self.now }
        ensures few { length self.now ≤ MAX_ITEMS }
    {
        self.bytes.as_slice()
    }
}

/// The name of an atom: text of at most 255 characters, seen as its characters.
#[derive(Debug, Drop)]
pub struct AtomName {
    text: String,
}

impl Model for AtomName {
    ghost use Rattle.std.specs.Prelude.{List, ℕ, ◌≤◌, length};
    ghost use Rattle.std.specs.String.{string_bytes};
    ghost use Rattle.std.specs.Str.{chars};
    ghost use Rattle.port_terms.specs.declared.values.TheConstants.{MAX_NAME_CHARS};

    ghost Value = { List ℕ };

    ghost view = { λ a. chars (string_bytes a.text) };

    ghost invariant = { λ a. length (chars (string_bytes a.text)) ≤ MAX_NAME_CHARS };
}

impl AtomName {
    ghost use Rattle.std.specs.Prelude.{◌≡◌, ◌≤◌, length, encode_utf8_all};
    ghost use Rattle.std.specs.String.{string_bytes};
    ghost use Rattle.std.specs.Str.{chars};
    ghost use Rattle.port_terms.specs.Spelling.{IsName};

    pub(crate) fn new(text: String) -> AtomName
        requires { length (chars (string_bytes text)) ≤ MAX_NAME_CHARS }
        ensures { result ≡ chars (string_bytes text) }
    {
        AtomName { text }
    }

    /// The name's text.
    pub fn as_str(&self) -> &str
        ensures text { result.now ≡ encode_utf8_all self.now }
        ensures name { IsName self.now }
    {
        self.text.as_str()
    }
}

/// An Erlang term.
#[cycle(term)]
#[derive(Debug, Drop)]
pub enum Term {
    Int(i64),
    Atom(AtomName),
    Bin(Octets),
    Tuple(Terms),
    List(Terms),
}

/// Terms in their order, at most 262,143.
#[cycle(term)]
#[derive(Debug, Drop)]
pub struct Terms {
    pub(crate) items: Vec<Term>,
}

impl Model for Terms {
    ghost use Rattle.std.specs.Prelude.{◌≤◌, length};
    ghost use Rattle.port_terms.specs.declared.values.TheConstants.{MAX_ITEMS};
    ghost use Rattle.port_terms.specs.Tree.{Forest, coded_forest, weight, forest};

    ghost Value = { Forest };

    ghost coded = { coded_forest };

    ghost use Rattle.port_terms.specs.View.{trees};

    ghost view = { λ a. forest (trees a.items.items) };

    ghost invariant = { λ a. length a.items.items ≤ MAX_ITEMS };

    ghost size = { weight };

    ghost use Rattle.std.proofs.Common.{arith};
    ghost use Rattle.port_terms.specs.Falls.{falls};

    ghost size_decreases = { λ a h. omega (arith, falls a.items.items) };
}

impl Terms {
    ghost use Rattle.std.specs.Prelude.{◌≡◌, ◌≤◌, length};
    ghost use Rattle.port_terms.specs.declared.values.TheConstants.{MAX_ITEMS};
    ghost use Rattle.port_terms.specs.Tree.{forest, count};
    ghost use Rattle.port_terms.specs.View.{trees};

    pub(crate) fn new(items: Vec<Term>) -> Terms
        requires { length items.items ≤ MAX_ITEMS }
        ensures { result ≡ forest (trees items.items) }
    {
        Terms { items }
    }

    /// How many items there are.
    #[tactic(auto, using(crate::proofs::Lists::count_is))]
    pub(crate) fn count(&self) -> usize
        ensures count { result ≡ count self.now }
        ensures few { count self.now ≤ MAX_ITEMS }
    {
        self.items.len()
    }

    /// The items, in their order.
    pub fn as_slice(&self) -> &[Term]
        ensures items { forest (trees result.now) ≡ self.now }
        ensures few { length result.now ≤ MAX_ITEMS }
    {
        self.items.as_slice()
    }
}
