use crate::values::Octets;
use std::marker::Model;

/// An I/O list: a byte, bytes, or a list of I/O lists.
#[cycle(io_list)]
#[derive(Debug, Drop)]
pub enum IoList {
    Byte(u8),
    Bin(Octets),
    List(IoParts),
}

/// I/O lists in their order, at most 262,143.
#[cycle(io_list)]
#[derive(Debug, Drop)]
pub struct IoParts {
    pub(crate) items: Vec<IoList>,
}

impl Model for IoParts {
    ghost use Rattle.std.specs.Prelude.{◌≤◌, length};
    ghost use Rattle.port_terms.specs.declared.values.TheConstants.{MAX_ITEMS};
    ghost use Rattle.port_terms.specs.Tree.{Forest, coded_forest, weight, forest};

    ghost Value = { Forest };

    ghost coded = { coded_forest };

    ghost use Rattle.port_terms.specs.IoView.{io_trees};

    ghost view = { λ a. forest (io_trees a.items.items) };

    ghost invariant = { λ a. length a.items.items ≤ MAX_ITEMS };

    ghost size = { weight };

    ghost use Rattle.std.proofs.Common.{arith};
    ghost use Rattle.port_terms.specs.IoFalls.{falls};

    ghost size_decreases = { λ a h. omega (arith, falls a.items.items) };
}

impl IoParts {
    ghost use Rattle.std.specs.Prelude.{◌≡◌, ◌≤◌, length};
    ghost use Rattle.port_terms.specs.declared.values.TheConstants.{MAX_ITEMS};
    ghost use Rattle.port_terms.specs.Tree.{forest};
    ghost use Rattle.port_terms.specs.IoView.{io_trees};

    pub(crate) fn new(items: Vec<IoList>) -> IoParts
        requires { length items.items ≤ MAX_ITEMS }
        ensures { result ≡ forest (io_trees items.items) }
    {
        IoParts { items }
    }

    /// The items, in their order.
    pub fn as_slice(&self) -> &[IoList]
        ensures items { forest (io_trees result.now) ≡ self.now }
        ensures few { length result.now ≤ MAX_ITEMS }
    {
        self.items.as_slice()
    }
}
