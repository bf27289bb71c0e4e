//! Nodes that hold items.
ghost use Rattle.std.specs.Prelude.{◌≡◌, IfOk};
ghost use Rattle.cordyceps_tables.specs.Tables.{element_of};

use cordyceps_base::node::{Kind, Node};
use cordyceps_commands::Item;
use std::alloc::{AllocError, Global};

/// Creates a node with the item and its number.
pub(crate) fn node_of<L: Kind>(alloc: Global, item: Item) -> Result<Node<Item, L>, AllocError>
    ensures { IfOk result (λ node. node ≡ element_of item) }
{
    match Node::new(alloc, item.id, item) {
        Ok(node) => Ok(node),
        Err(_) => Err(AllocError),
    }
}
