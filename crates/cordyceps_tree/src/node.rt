//! Owned nodes that can be in a tree, and are in none.
//!
//! A node is one block: two children, the parent, the height with the side, the number, the value, and the word behind
//! it. That is 16 bytes more than a node of a list takes.
ghost use Rattle.std.specs.Prelude.{◌≡◌, IfOk, IfErr};
ghost use Rattle.std.specs.Borrow.{sem};

use crate::block::Block;
use crate::hook::Hook;
use cordyceps_base::boxes::homes::Home;
use cordyceps_base::node::Refused;
use std::alloc::Global;
use std::marker::Model;

/// An owned node that is in no tree: a number and a value. A contract sees its element: the number and the value.
///
/// It owns one block of memory, and has the size of a pointer. It can be sent to a thread, and shared by threads, if
/// `T` can. Dropping it frees the block.
pub struct TreeNode<T> {
    pub(crate) block: Box<Block<T>, Home>,
}

impl<T> Model for TreeNode<T> {
    ghost use Rattle.cordyceps_base.specs.Element.{Element};

    ghost Value = { Element T };

    ghost view = { λ n. record { id = n.block.value.id; value = n.block.value.value } };
}

impl<T: Drop> TreeNode<T> {
    /// Creates a node with a number and a value. The number is the caller's choice, and need not differ from others.
    ///
    /// # Errors
    /// If memory is refused, it returns `Refused` with the value.
    ///
    /// # Complexity
    /// O(1), with one allocation.
    pub fn new(alloc: Global, id: u64, value: T) -> Result<TreeNode<T>, Refused<T>>
        ensures made { IfOk result (λ n. n ≡ record { id = id; value = value }) }
        ensures value_returned { IfErr result (λ e. e.value ≡ value) }
    {
        let block = Block {
            hook: Hook::none(),
            heap: alloc,
            id,
            value,
        };
        match Home::boxed(alloc, block) {
            Ok(block) => Ok(TreeNode { block }),
            Err(refused) => Err(Refused {
                value: refused.value.into_value(),
            }),
        }
    }

    /// Frees the node and returns its value.
    ///
    /// # Complexity
    /// O(1).
    pub fn into_value(self) -> T
        ensures { result ≡ self.value }
    {
        self.freed().into_value()
    }
}

impl<T> TreeNode<T> {
    ghost use Rattle.cordyceps_tree.specs.Rows.{block_element};
    ghost use Rattle.cordyceps_tree.specs.TreeNodeLends.{LendsValue};

    /// Returns the number.
    ///
    /// # Complexity
    /// O(1).
    pub fn id(&self) -> u64
        ensures { result ≡ self.now.id }
    {
        self.block.id
    }

    /// Sets the number. The value stays.
    ///
    /// # Complexity
    /// O(1).
    pub fn set_id(&mut self, id: u64)
        ensures id { self.new.id ≡ id }
        ensures value { self.new.value ≡ self.old.value }
    {
        let block = &mut self.block;
        block.id = id;
    }

    /// Returns a reference to the value.
    ///
    /// # Complexity
    /// O(1).
    pub fn get(&self) -> &T
        ensures { result.now ≡ self.now.value }
    {
        &self.block.value
    }

    /// Returns a mutable reference to the value. The number stays.
    ///
    /// # Complexity
    /// O(1).
    pub fn get_mut(&mut self) -> &mut T
        ensures* writes_back { sem 𝓛 (LendsValue T.row self.entry result) }
        ensures value { result.now ≡ self.old.value }
    {
        &mut self.block.value
    }

    /// Returns the node's block.
    pub(crate) fn into_block(self) -> Box<Block<T>, Home>
        ensures { block_element result.value ≡ self }
    {
        let TreeNode { block } = self;
        block
    }

    /// Frees the node's memory, unless it is lent, and returns what it had.
    fn freed(self) -> Block<T>
    where
        T: Drop,
        ensures { block_element result ≡ self }
    {
        let block = self.into_block();
        let heap = block.heap;
        Home::unboxed(block, heap)
    }
}

/// Frees the node's memory, unless it is lent.
impl<T: Drop> Drop for TreeNode<T> {
    fn drop(self) {
        drop(self.freed());
    }
}
