//! The items that the structures of a replay hold.
ghost use Rattle.std.specs.Prelude.{◌≡◌};
ghost use Rattle.std.proofs.Common.{rules};
ghost use Rattle.std.specs.Cmp.{partial_order_from_own_ties};
ghost use Rattle.std.specs.Cmp.Rules.{comparing};
ghost use Rattle.std.specs.Ordering.{as_partial_cmp};
ghost use Rattle.cordyceps_commands.specs.Items.{by_value_then_number};

use cordyceps_base::linked::Linked;
use cordyceps_base::node::{Kind, Node};
use std::cmp::Ordering;

/// A value and a number. Items are ordered by value, and then by number.
///
/// An item can be linked into collections of each kind: its handle is a node that holds it. If a replay makes that
/// node, the node's number is the item's `id`.
#[derive(Clone, Copy, Debug, PartialEq, Eq)]
pub struct Item {
    /// The value, which a command may replace.
    pub value: u64,
    /// The number of the item, which need not be unique.
    pub id: u64,
}

impl Ord for Item {
    ghost cmp = { by_value_then_number };

    ghost total = { Prim.search (comparing, rules) };

    ghost matches_partial_cmp = { Prim.search (comparing, rules) };

    ghost matches_eq = { Prim.search (comparing, rules) };

    /// Compares the values, and then the numbers.
    fn cmp(&self, other: &Item) -> Ordering {
        self.value.cmp(&other.value).then(self.id.cmp(&other.id))
    }
}

impl PartialOrd for Item {
    ghost partial_cmp = { as_partial_cmp by_value_then_number };

    ghost laws = { partial_order_from_own_ties (Prim.search (comparing, rules)) (Prim.search (comparing, rules)) };

    /// Compares as `cmp` does.
    fn partial_cmp(&self, other: &Item) -> Option<Ordering> {
        Some(self.cmp(other))
    }
}

impl<L: Kind> Linked<L> for Item {
    type Handle = Node<Item, L>;

    ghost element = { λ h. h };

    fn into_ptr(handle: Node<Item, L>) -> Node<Item, L> {
        handle
    }

    fn from_ptr(node: Node<Item, L>) -> Node<Item, L>
        ensures { result ≡ node }
    {
        // a node is its own handle
        node
    }
}
