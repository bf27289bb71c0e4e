//! Nodes of any value and kind.
ghost use Rattle.std.specs.Prelude.{◌≡◌, IfOk, IfSome, IsNone};

use cordyceps_base::node::{Kind, Node, Refused};
use std::alloc::{AllocError, Global};

/// Creates a node with this number and value. Allocates the node.
///
/// # Errors
/// If memory is refused, it returns `AllocError`, and the value is dropped.
///
/// # Complexity
/// O(1).
pub fn node_of<T: Drop, L: Kind>(alloc: Global, id: u64, value: T) -> Result<Node<T, L>, AllocError>
    ensures { IfOk result (λ node. node ≡ record { id = id; value = value }) }
{
    match Node::new(alloc, id, value) {
        Ok(node) => Ok(node),
        Err(Refused { value: _ }) => Err(AllocError),
    }
}

/// Drops a node and returns its number, or returns `None` if there is no node.
///
/// # Complexity
/// O(1), and that of dropping the value.
pub fn number<T: Drop, L: Kind>(node: Option<Node<T, L>>) -> Option<u64>
    ensures some { IfSome node (λ some. result ≡ Some some.id) }
    ensures none { IsNone node → IsNone result }
{
    match node {
        Some(node) => Some(node.id()),
        None => None,
    }
}
