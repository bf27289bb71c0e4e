//! Elements of lists. The number and the value of each are the same.
ghost use Rattle.std.specs.Prelude.{◌≡◌};

use crate::nodes::node_of;
use cordyceps_base::linked::Linked;
use cordyceps_base::list::Links;
use cordyceps_base::node::Node;
use std::alloc::{AllocError, Global};

/// An element of a list.
#[derive(Drop)]
pub struct Item {
    pub value: u64,
}

/// The handle by which an item is put into a list and comes out of it.
pub type Handle = Node<Item, Links<Item>>;

impl Linked<Links<Item>> for Item {
    type Handle = Handle;

    ghost element = { λ h. h };

    fn into_ptr(handle: Handle) -> Handle {
        handle
    }

    fn from_ptr(node: Handle) -> Handle
        ensures { result ≡ node }
    {
        node
    }
}

/// Creates a node with the number `v` and an item of the value `v`. Allocates the node.
///
/// # Errors
/// If memory is refused, it returns `AllocError`.
///
/// # Complexity
/// O(1).
pub fn plain(alloc: Global, v: u64) -> Result<Handle, AllocError> {
    node_of(alloc, v, Item { value: v })
}

/// Returns the value of an item, or `None` if there is no item.
///
/// # Complexity
/// O(1).
pub fn value(item: Option<&Item>) -> Option<u64> {
    match item {
        Some(item) => Some(item.value),
        None => None,
    }
}
