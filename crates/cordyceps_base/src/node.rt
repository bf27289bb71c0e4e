//! Owned nodes.
//!
//! ```text
//!  Node        block
//! +----+      +------+------+----+-------+------+
//! | o ------->| next | prev | id | value | word |
//! +----+      +------+------+----+-------+------+
//! ```
//!
//! A node is the address of its block. The block has the two links of any collection, the element's number and value,
//! and behind these the word that says whose memory it is (`boxes::homes`). `Node::new` makes an element's only
//! allocation. `Linked::into_ptr` turns a handle into its node, and `from_ptr` turns it back. A collection takes the
//! block out of the node by `into_block`, keeps its address, and makes a node of it again by `from_block`.
//!
//! The kind of a node is a type parameter, and `into_kind` changes the type alone. A kind's mark is a `PhantomData<T>`,
//! so a node can be sent or shared if `T` can. The links are in the block, and not in a field of the user's type, since
//! safe code cannot reach them there.
//!
//! `Linked` follows that of the Rust crate `cordyceps`, where the links are a field of the user's type, and an
//! implementation promises what follows here from ownership.
ghost use Rattle.std.specs.Prelude.{◌≡◌, IfOk, IfErr};
ghost use Rattle.std.specs.Borrow.{sem};

use crate::boxes::Address;
use crate::boxes::homes::Home;
use std::alloc::Global;
use std::marker::{Model, PhantomData};

/// Keeps `Kind` to the kinds of this crate.
pub(crate) trait Sealed {}

/// A kind of node: a mark in the node's type, by which a collection can link it. The kinds are `list::Links`,
/// `stack::Links` and `mpsc_queue::Links`. A node has one kind at a time, and `Node::into_kind` changes it.
pub trait Kind: Sealed + Drop {}

/// The addresses of a node's neighbours. Lists, and collections with spots, use both. Stacks, sorted lists and batches
/// use `next` alone, and nodes in a slot use neither.
#[repr(C)]
#[derive(Clone, Copy)]
pub struct BlockLinks {
    pub(crate) next: Address,
    pub(crate) prev: Address,
}

impl BlockLinks {
    /// Returns the links of a node that is in no collection.
    fn unlinked() -> BlockLinks {
        BlockLinks {
            next: Address::null(),
            prev: Address::null(),
        }
    }
}

/// The block of memory of one node. `heap` frees it, unless its memory is lent.
#[repr(C)]
#[derive(Drop)]
pub struct Block<T> {
    pub(crate) links: BlockLinks,
    pub(crate) heap: Global,
    pub(crate) id: u64,
    pub(crate) value: T,
}

impl<T> Block<T> {
    fn into_value(self) -> T
        ensures { result ≡ self.value }
    {
        let Block {
            links: _,
            heap: _,
            id: _,
            value,
        } = self;
        value
    }
}

/// An owned node that is in no collection: a number, a value, and the links of any collection. Collections of kind `L`
/// can link it. A contract sees its element: the number and the value.
///
/// It owns one block of memory, and has the size of a pointer. It can be sent to a thread, and shared by threads, if
/// `T` can. Dropping it frees the block.
///
/// # Examples
/// From `tour::take_the_second` of `cordyceps_uses`:
/// ```
/// // A node has a value, and a number that the caller chooses.
/// jobs.push_back(Node::new(alloc, 1, Job { rank: 7 })?);
/// ```
///
/// From `tour::submit` of `cordyceps_uses`:
/// ```
/// // The node is converted into one for lists, which allocates nothing.
/// waiting.lock(rt).put(mine, job.into_kind())
/// ```
pub struct Node<T, L> {
    pub(crate) block: Box<Block<T>, Home>,
    pub(crate) kind: PhantomData<L>,
}

impl<T, L> Model for Node<T, L> {
    ghost use Rattle.cordyceps_base.specs.Element.{Element};

    ghost Value = { Element T };

    ghost view = { λ n. record { id = n.block.value.id; value = n.block.value.value } };
}

/// The error of a constructor whose memory was refused. It returns the value.
#[derive(Drop, Debug)]
pub struct Refused<T> {
    /// The value that was passed to the constructor.
    pub value: T,
}

impl<T: Drop, L: Kind> Node<T, L> {
    /// Creates a node with a number and a value. The number is the caller's choice, and need not differ from others.
    ///
    /// # Errors
    /// If memory is refused, it returns `Refused` with the value.
    ///
    /// # Complexity
    /// O(1), with one allocation.
    pub fn new(alloc: Global, id: u64, value: T) -> Result<Node<T, L>, Refused<T>>
        ensures made { IfOk result (λ n. n ≡ record { id = id; value = value }) }
        ensures value_returned { IfErr result (λ e. e.value ≡ value) }
    {
        let block = Block {
            links: BlockLinks::unlinked(),
            heap: alloc,
            id,
            value,
        };
        match Home::boxed(alloc, block) {
            Ok(block) => Ok(Node::from_block(block)),
            Err(refused) => Err(Refused {
                value: refused.value.into_value(),
            }),
        }
    }
}

impl<T, L> Node<T, L> {
    ghost use Rattle.cordyceps_base.specs.NodeLends.{lends_value};
    ghost use Rattle.cordyceps_base.specs.Nodes.{block_element};

    /// Creates a node from its block, which is of the heap or lent.
    ///
    /// # Complexity
    /// O(1).
    pub fn from_block(block: Box<Block<T>, Home>) -> Node<T, L>
        ensures { result ≡ block_element block.value }
    {
        let kind = PhantomData;
        Node { block, kind }
    }

    /// Returns the node's block, for code that passes nodes on by their addresses. Dropping the block frees no memory;
    /// `from_block` makes a node of it again.
    ///
    /// # Complexity
    /// O(1).
    pub fn into_block(self) -> Box<Block<T>, Home>
        ensures { block_element result.value ≡ self }
    {
        let Node { block, kind: _ } = self;
        block
    }

    /// Returns the number.
    ///
    /// # Complexity
    /// O(1).
    pub fn id(&self) -> u64
        ensures { result ≡ self.now.id }
    {
        self.block.id
    }

    /// Sets the number. The value stays.
    ///
    /// # Complexity
    /// O(1).
    pub fn set_id(&mut self, id: u64)
        ensures id { self.new.id ≡ id }
        ensures value { self.new.value ≡ self.old.value }
    {
        let block = &mut self.block;
        block.id = id;
    }

    /// Returns a reference to the value.
    ///
    /// # Complexity
    /// O(1).
    pub fn get(&self) -> &T
        ensures { result.now ≡ self.now.value }
    {
        &self.block.value
    }

    /// Returns a mutable reference to the value. The number stays.
    ///
    /// # Complexity
    /// O(1).
    pub fn get_mut(&mut self) -> &mut T
        ensures* writes_back { sem 𝓛 (lends_value T.row L.row self.entry result) }
        ensures value { result.now ≡ self.old.value }
    {
        &mut self.block.value
    }

    /// Converts the node into one of another kind, which other collections can link. Allocates nothing.
    ///
    /// # Complexity
    /// O(1).
    pub fn into_kind<M: Kind>(self) -> Node<T, M>
        ensures { result ≡ self }
    {
        Node::from_block(self.into_block())
    }

    /// Frees the node and returns its value.
    ///
    /// # Complexity
    /// O(1).
    pub fn into_value(self) -> T
    where
        T: Drop,
        L: Kind,
        ensures { result ≡ self.value }
    {
        self.freed().into_value()
    }

    /// Frees the node's memory, unless it is lent, and returns what it had.
    fn freed(self) -> Block<T>
    where
        T: Drop,
        ensures { block_element result ≡ self }
    {
        let block = self.into_block();
        let heap = block.heap;
        Home::unboxed(block, heap)
    }
}

/// Frees the node's memory, unless it is lent.
impl<T: Drop, L> Drop for Node<T, L> {
    fn drop(self) {
        drop(self.freed());
    }
}
