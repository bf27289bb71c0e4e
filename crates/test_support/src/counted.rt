//! Values that count their drops, on any thread.
ghost use Rattle.std.specs.Prelude.{◌≡◌, IfOk};

use crate::nodes::node_of;
use cordyceps_base::linked::Linked;
use cordyceps_base::node::{Kind, Node};
use std::alloc::{AllocError, Global};
use std::sync::Arc;
use std::sync::atomic::{AtomicU64, Ordering};

/// A count of drops, which values share.
#[derive(Drop)]
pub struct Drops {
    count: Arc<AtomicU64, Global>,
}

impl Drops {
    /// Creates a count of no drops. Allocates the counter.
    ///
    /// # Errors
    /// If memory is refused, it returns `AllocError`.
    ///
    /// # Complexity
    /// O(1).
    pub fn new(alloc: Global) -> Result<Drops, AllocError> {
        Ok(Drops {
            count: Arc::new(alloc, AtomicU64::new(0))?,
        })
    }

    /// Returns the number of drops.
    ///
    /// # Complexity
    /// O(1).
    pub fn count(&self) -> u64 {
        self.count.load(Ordering::SeqCst)
    }
}

/// A value whose drop is counted.
pub struct Counted {
    /// The value, which the count does not use.
    pub value: u64,
    drops: Arc<AtomicU64, Global>,
}

impl Drop for Counted {
    /// Adds one to the count.
    fn drop(self) {
        let Counted { value: _, drops } = self;
        drops.fetch_add(1, Ordering::SeqCst);
    }
}

impl Counted {
    /// Creates a value that adds its drop to a count. Allocates nothing.
    ///
    /// # Errors
    /// If the count has as many references as it can have, it returns `AllocError`.
    ///
    /// # Complexity
    /// O(1).
    pub fn new(value: u64, drops: &Drops) -> Result<Counted, AllocError>
        ensures { IfOk result (λ made. made.value ≡ value) }
    {
        Ok(Counted {
            value,
            drops: Arc::try_clone(&drops.count)?,
        })
    }
}

impl<L: Kind> Linked<L> for Counted {
    type Handle = Node<Counted, L>;

    ghost element = { λ h. h };

    fn into_ptr(handle: Node<Counted, L>) -> Node<Counted, L> {
        handle
    }

    fn from_ptr(node: Node<Counted, L>) -> Node<Counted, L>
        ensures { result ≡ node }
    {
        node
    }
}

/// Creates a node with this number and a value whose drop is counted. Allocates the node.
///
/// # Errors
/// Those of `Counted::new`. If memory for the node is refused, it returns `AllocError` and drops the value, which is
/// counted.
///
/// # Complexity
/// O(1).
pub fn counted_node<L: Kind>(
    alloc: Global,
    id: u64,
    value: u64,
    drops: &Drops,
) -> Result<Node<Counted, L>, AllocError>
    ensures id { IfOk result (λ node. node.id ≡ id) }
    ensures value { IfOk result (λ node. node.value.value ≡ value) }
{
    node_of(alloc, id, Counted::new(value, drops)?)
}
