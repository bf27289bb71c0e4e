//! A doubly linked chain of nodes, from which collections are built.
//!
//! ```text
//!          head                    tail        length 3
//!           |                       |
//!           v                       v
//!         +----+  next  +----+    +----+
//!         |    |------->|    |--->|    |---> null
//! null <--|    |<-------|    |<---|    |
//!         +----+  prev  +----+    +----+
//! ```
//!
//! A chain is two addresses, a length, and the row of its blocks, which takes no bytes. Links are plain fields of the
//! blocks. The invariant (`IsLinked`) says that they lead to the neighbours, that the first `prev` and the last `next`
//! are null, and that each address may be compared with null. Joining, cutting, linking and unlinking write the links
//! where the nodes meet, and are O(1). Calls name a node by its address; some also take its index, for the proof, and
//! those of `by_address` do not. No node leads to the chain itself, so a chain can be moved.
//!
//! A contract sees each node's address, since a cursor has to state that an address is that of the k-th node. A list
//! shows elements alone, since its users need no addresses. Inside a chain, an insertion or removal writes the
//! neighbours' links and the length alone: cutting and rejoining would write nulls that are overwritten. A push writes
//! the neighbour's link before the new node's; in the other order it took 2.4 ns instead of 1.4 with 10,000 elements.
//!
//! The layout is that of `List` in the Rust crate `cordyceps`, and the invariant the doubly linked segment of
//! separation logic.
ghost use Rattle.std.specs.Prelude.{◌≡◌, ℕ, ◌+◌, ◌-◌, ◌^◌, ◌<◌, ◌≤◌, [], ◌∷◌, ◌++◌, length, take, drop, slice_get, Some};
ghost use Rattle.std.specs.Borrow.{sem};
ghost use denote.RawPtr.{Ptr, null_ptr};
ghost use Rattle.cordyceps_base.specs.Element.{ids, values};
ghost use Rattle.cordyceps_base.specs.Nodes.{elements, nodes_of, spots, IsAt};
ghost use Rattle.cordyceps_base.specs.Spots.{AreDistinct};

mod by_address;

use crate::boxes::homes::Home;
use crate::boxes::{Address, Boxes, RawBox};
use crate::double_row::{Row, cut_out, node_of, put_in};
use crate::list::Links;
use crate::node::{Block, Node};
use std::marker::{Model, PhantomData};
use std::mem;

/// Nodes that are linked both ways. A contract sees a list of the nodes, each as its address and its element.
///
/// The first `prev` and the last `next` are null, and so are `head` and `tail` if there is no node.
///
/// # Complexity
/// Each call is O(1) and allocates nothing. Dropping the chain is O(n), for n nodes.
pub struct DoubleChain<T> {
    head: Address,
    tail: Address,
    len: usize,
    boxes: Row<T>,
}

impl<T> Model for DoubleChain<T> {
    ghost use Rattle.cordyceps_base.specs.Nodes.{Nodes, nodes_of};
    ghost use Rattle.cordyceps_base.specs.DoubleChain.{IsLinked};

    ghost Value = { Nodes T };

    ghost view = { λ c. nodes_of c.boxes.blocks };

    ghost invariant = { λ c. IsLinked c.head.ptr c.tail.ptr c.len c.boxes.blocks };
}

/// Frees each node, from the first to the last.
impl<T: Drop> Drop for DoubleChain<T> {
    fn drop(mut self) {
        while self.len() > 0 {
            drop(self.unlink_front());
        }
        self.discard();
    }
}

impl<T> DoubleChain<T> {
    ghost use Rattle.cordyceps_base.specs.DoubleChainLends.{lends_item};

    /// Creates an empty chain.
    pub fn empty() -> DoubleChain<T>
        ensures { result ≡ [] }
    {
        DoubleChain {
            head: Address::null(),
            tail: Address::null(),
            len: 0,
            boxes: Boxes::empty(),
        }
    }

    /// Takes all nodes, and leaves an empty chain.
    pub fn take(&mut self) -> DoubleChain<T>
        ensures { (result ≡ self.old) × (self.new ≡ []) }
    {
        mem::replace(self, DoubleChain::empty())
    }

    /// Puts nodes into an empty chain.
    pub fn put(&mut self, nodes: DoubleChain<T>)
        requires { self.old ≡ [] }
        ensures { self.new ≡ nodes }
    {
        let empty = mem::replace(self, nodes);
        empty.discard();
    }

    /// Ends an empty chain.
    pub fn discard(self)
        requires { self ≡ [] }
    {
        let DoubleChain {
            head: _,
            tail: _,
            len: _,
            boxes,
        } = self;
        boxes.discard();
    }

    /// Creates a chain of one node.
    pub fn one(node: Node<T, Links<T>>) -> DoubleChain<T>
    where
        T: Drop,
        ensures { (address : Ptr) × (result ≡ (address, node) ∷ []) }
    {
        let (at, _, boxes) = Boxes::one(RawBox::from_box(node.into_block()));
        DoubleChain::of_one(at, boxes)
    }

    /// Creates a chain of the one node of a row.
    fn of_one(at: Address, row: Row<T>) -> DoubleChain<T>
        requires { (a : Home) × (x : Block T) × (row.blocks ≡ (at.ptr, a, x) ∷ []) }
        ensures { result ≡ nodes_of row.blocks }
    {
        let mut boxes = row;
        boxes.get_mut(at, 0).links.next = Address::null();
        boxes.get_mut(at, 0).links.prev = Address::null();
        DoubleChain {
            head: at,
            tail: at,
            len: 1,
            boxes: boxes.null_comparable(),
        }
    }

    /// Returns the only node.
    pub fn only(self) -> Node<T, Links<T>>
    where
        T: Drop,
        requires { length self ≡ 1 }
        ensures { (address : Ptr) × (self ≡ (address, result) ∷ []) }
    {
        let DoubleChain {
            head,
            tail: _,
            len: _,
            boxes,
        } = self;
        Node::from_block(boxes.only(head, Home).into_box())
    }

    /// Returns the number of nodes.
    pub fn len(&self) -> usize
        ensures { result ≡ length self.now }
    {
        self.len
    }

    /// Returns the address of the first node. Requires that the chain is not empty.
    pub fn head(&self) -> Address
        requires { 0 < length self.now }
        ensures { IsAt self.now 0 result }
    {
        self.head
    }

    /// Returns the address of the last node. Requires that the chain is not empty.
    pub fn tail(&self) -> Address
        requires { 0 < length self.now }
        ensures { IsAt self.now (length self.now - 1) result }
    {
        self.tail
    }

    /// Returns the address of the node after node `k`, which is at `at`. For the last node the address is null.
    pub fn next(&self, at: Address, k: usize) -> Address
        requires { IsAt self.now k at }
        ensures on { k + 1 < length self.now → IsAt self.now (k + 1) result }
        ensures end { k + 1 ≡ length self.now → result.ptr ≡ null_ptr }
    {
        self.boxes.get(at, k).links.next
    }

    /// Returns the address of the node before node `k`, which is at `at`. For the first node the address is null.
    pub fn prev(&self, at: Address, k: usize) -> Address
        requires { IsAt self.now k at }
        ensures on { 0 < k → IsAt self.now (k - 1) result }
        ensures end { k ≡ 0 → result.ptr ≡ null_ptr }
    {
        self.boxes.get(at, k).links.prev
    }

    /// Returns the number of node `k`, which is at `at`.
    pub fn id(&self, at: Address, k: usize) -> u64
        requires { IsAt self.now k at }
        ensures { slice_get (ids (elements self.now)) k ≡ Some result }
    {
        self.boxes.get(at, k).id
    }

    /// Returns a reference to the value of node `k`, which is at `at`.
    pub fn get(&self, at: Address, k: usize) -> &T
        requires { IsAt self.now k at }
        ensures { slice_get (values (elements self.now)) k ≡ Some result.now }
    {
        &self.boxes.get(at, k).value
    }

    /// Returns a mutable reference to the value of node `k`, which is at `at`. The element keeps its number.
    pub fn get_mut(&mut self, at: Address, k: usize) -> &mut T
        requires { IsAt self.old k at }
        ensures* writes_back { sem 𝓛 (lends_item T.row self.entry k result) }
        ensures value { slice_get (values (elements self.old)) k ≡ Some result.now }
    {
        let block = self.boxes.get_mut(at, k);
        &mut block.value
    }

    /// Joins two chains to one of the nodes of `self` and then those of `other`. Requires that the sum of the lengths
    /// is at most `usize::MAX`.
    pub fn join(self, other: DoubleChain<T>) -> DoubleChain<T>
        requires { length self + length other < 2 ^ 64 }
        ensures { result ≡ self ++ other }
    {
        if self.len == 0 {
            self.discard();
            return other;
        }
        if other.len == 0 {
            other.discard();
            return self;
        }
        let DoubleChain {
            head,
            tail,
            len,
            boxes: mut front,
        } = self;
        let DoubleChain {
            head: after,
            tail: last,
            len: more,
            boxes: mut back,
        } = other;
        front.get_mut(tail, len - 1).links.next = after;
        back.get_mut(after, 0).links.prev = tail;
        DoubleChain {
            head,
            tail: last,
            len: len + more,
            boxes: front.join(back).null_comparable(),
        }
    }

    /// Splits the chain after the first `k` nodes, the last of which is at `at`.
    pub fn cut_after(self, at: Address, k: usize) -> (DoubleChain<T>, DoubleChain<T>)
        requires { (0 < k) × (IsAt self (k - 1) at) }
        ensures { (result.0 ≡ take k self) × (result.1 ≡ drop k self) }
    {
        if k == self.len {
            return (self, DoubleChain::empty());
        }
        let DoubleChain {
            head,
            tail,
            len,
            boxes,
        } = self;
        let after = boxes.get(at, k - 1).links.next;
        let (mut front, mut back) = boxes.cut(k);
        front.get_mut(at, k - 1).links.next = Address::null();
        back.get_mut(after, 0).links.prev = Address::null();
        let first = DoubleChain {
            head,
            tail: at,
            len: k,
            boxes: front.null_comparable(),
        };
        let rest = DoubleChain {
            head: after,
            tail,
            len: len - k,
            boxes: back.null_comparable(),
        };
        (first, rest)
    }

    /// Splits the chain before node `k`, which is at `at` and not the first.
    pub fn cut(self, at: Address, k: usize) -> (DoubleChain<T>, DoubleChain<T>)
        requires { (0 < k) × (IsAt self k at) }
        ensures { (result.0 ≡ take k self) × (result.1 ≡ drop k self) }
    {
        let DoubleChain {
            head,
            tail,
            len,
            boxes,
        } = self;
        let before = boxes.get(at, k).links.prev;
        let (mut front, mut back) = boxes.cut(k);
        front.get_mut(before, k - 1).links.next = Address::null();
        back.get_mut(at, 0).links.prev = Address::null();
        let first = DoubleChain {
            head,
            tail: before,
            len: k,
            boxes: front.null_comparable(),
        };
        let rest = DoubleChain {
            head: at,
            tail,
            len: len - k,
            boxes: back.null_comparable(),
        };
        (first, rest)
    }
}

impl<T: Drop> DoubleChain<T> {
    /// Prepends a node and returns its address. Requires a length below `usize::MAX`.
    pub fn link_front(&mut self, node: Node<T, Links<T>>) -> Address
        requires { length self.old + 1 < 2 ^ 64 }
        ensures holds { self.new ≡ (result.ptr, node) ∷ self.old }
        ensures distinct { AreDistinct (spots self.new) }
    {
        if self.len == 0 {
            return self.link_only(node);
        }
        let (nodes, address) = self.take().with_first(node);
        self.put(nodes.distinct());
        address
    }

    /// Appends a node and returns its address. Requires a length below `usize::MAX`.
    pub fn link_back(&mut self, node: Node<T, Links<T>>) -> Address
        requires { length self.old + 1 < 2 ^ 64 }
        ensures holds { self.new ≡ self.old ++ (result.ptr, node) ∷ [] }
        ensures distinct { AreDistinct (spots self.new) }
    {
        if self.len == 0 {
            return self.link_only(node);
        }
        let (nodes, address) = self.take().with_last(node);
        self.put(nodes.distinct());
        address
    }

    /// Links a node into an empty chain and returns its address.
    fn link_only(&mut self, node: Node<T, Links<T>>) -> Address
        requires { self.old ≡ [] }
        ensures holds { self.new ≡ (result.ptr, node) ∷ [] }
        ensures distinct { AreDistinct (spots self.new) }
    {
        let one = DoubleChain::one(node);
        let address = one.head();
        self.put(one.distinct());
        address
    }

    /// Removes the first node and returns it. Requires that the chain is not empty.
    pub fn unlink_front(&mut self) -> Node<T, Links<T>>
        requires { 0 < length self.old }
        ensures { (address : Ptr) × (self.old ≡ (address, result) ∷ self.new) }
    {
        let nodes = self.take();
        if nodes.len() == 1 {
            return nodes.only();
        }
        let (node, rest) = nodes.without_first();
        self.put(rest);
        node
    }

    /// Removes the last node and returns it. Requires that the chain is not empty.
    pub fn unlink_back(&mut self) -> Node<T, Links<T>>
        requires { 0 < length self.old }
        ensures { (address : Ptr) × (self.old ≡ self.new ++ (address, result) ∷ []) }
    {
        let nodes = self.take();
        if nodes.len() == 1 {
            return nodes.only();
        }
        let (node, rest) = nodes.without_last();
        self.put(rest);
        node
    }

    /// Prepends a node to a chain that is not empty, and returns its address too.
    fn with_first(self, node: Node<T, Links<T>>) -> (DoubleChain<T>, Address)
        requires some { 0 < length self }
        requires fits { length self + 1 < 2 ^ 64 }
        ensures { result.0 ≡ (result.1.ptr, node) ∷ self }
    {
        let DoubleChain {
            head,
            tail,
            len,
            boxes: mut back,
        } = self;
        let (at, _, mut new) = Boxes::one(RawBox::from_box(node.into_block()));
        // The neighbour is written first, so that no write to another node comes between those to the new one.
        back.get_mut(head, 0).links.prev = at;
        new.get_mut(at, 0).links.next = head;
        new.get_mut(at, 0).links.prev = Address::null();
        let whole = DoubleChain {
            head: at,
            tail,
            len: len + 1,
            boxes: new.join(back).null_comparable(),
        };
        (whole, at)
    }

    /// Appends a node to a chain that is not empty, and returns its address too.
    fn with_last(self, node: Node<T, Links<T>>) -> (DoubleChain<T>, Address)
        requires some { 0 < length self }
        requires fits { length self + 1 < 2 ^ 64 }
        ensures { result.0 ≡ self ++ (result.1.ptr, node) ∷ [] }
    {
        let DoubleChain {
            head,
            tail,
            len,
            boxes: mut front,
        } = self;
        let (at, _, mut new) = Boxes::one(RawBox::from_box(node.into_block()));
        // As in `with_first`.
        front.get_mut(tail, len - 1).links.next = at;
        new.get_mut(at, 0).links.next = Address::null();
        new.get_mut(at, 0).links.prev = tail;
        let whole = DoubleChain {
            head,
            tail: at,
            len: len + 1,
            boxes: front.join(new).null_comparable(),
        };
        (whole, at)
    }

    /// Inserts a node before node `k`, which is at `at` and not the first.
    fn link_inner(&mut self, at: Address, k: usize, node: Node<T, Links<T>>)
        requires inner { 0 < k }
        requires on { IsAt self.old k at }
        requires fits { length self.old + 1 < 2 ^ 64 }
        ensures { (address : Ptr) × (self.new ≡ take k self.old ++ (address, node) ∷ drop k self.old) }
    {
        let len = self.len;
        let row = mem::replace(&mut self.boxes, Boxes::empty());
        let whole = put_in(row, at, k, node).null_comparable();
        let empty = mem::replace(&mut self.boxes, whole);
        empty.discard();
        let count = &mut self.len;
        *count = len + 1;
    }

    /// Removes node `k`, which is at `at` and has a neighbour on either side.
    fn unlink_inner(&mut self, at: Address, k: usize) -> Node<T, Links<T>>
        requires inner { (0 < k) × (k + 1 < length self.old) }
        requires on { IsAt self.old k at }
        ensures node { slice_get self.old k ≡ Some (at.ptr, result) }
        ensures others { self.new ≡ take k self.old ++ drop (k + 1) self.old }
    {
        let len = self.len;
        let row = mem::replace(&mut self.boxes, Boxes::empty());
        let (node, others) = cut_out(row, at, k);
        let empty = mem::replace(&mut self.boxes, others.null_comparable());
        empty.discard();
        let count = &mut self.len;
        *count = len - 1;
        node
    }

    /// Removes the first of several nodes.
    fn without_first(self) -> (Node<T, Links<T>>, DoubleChain<T>)
        requires { 1 < length self }
        ensures { (address : Ptr) × (self ≡ (address, result.0) ∷ result.1) }
    {
        let DoubleChain {
            head,
            tail,
            len,
            boxes,
        } = self;
        let others = len - 1;
        let next = boxes.get(head, 0).links.next;
        let (one, mut rest) = boxes.cut(1);
        rest.get_mut(next, 0).links.prev = Address::null();
        let left = DoubleChain {
            head: next,
            tail,
            len: others,
            boxes: rest.null_comparable(),
        };
        (node_of(head, one), left)
    }

    /// Removes the last of several nodes.
    fn without_last(self) -> (Node<T, Links<T>>, DoubleChain<T>)
        requires { 1 < length self }
        ensures { (address : Ptr) × (self ≡ result.1 ++ (address, result.0) ∷ []) }
    {
        let DoubleChain {
            head,
            tail,
            len,
            boxes,
        } = self;
        let before = len - 1;
        let prev = boxes.get(tail, before).links.prev;
        let (mut front, one) = boxes.cut(before);
        front.get_mut(prev, before - 1).links.next = Address::null();
        let left = DoubleChain {
            head,
            tail: prev,
            len: before,
            boxes: front.null_comparable(),
        };
        (node_of(tail, one), left)
    }
}

impl<T> DoubleChain<T> {
    /// Splits the chain before place `k`. If there is a node `k`, it is at `at`.
    pub fn split(self, at: Address, k: usize) -> (DoubleChain<T>, DoubleChain<T>)
        requires within { k ≤ length self }
        requires on { k < length self → IsAt self k at }
        ensures front { result.0 ≡ take k self }
        ensures back { result.1 ≡ drop k self }
    {
        if k == 0 {
            return (DoubleChain::empty(), self);
        }
        if k == self.len {
            return (self, DoubleChain::empty());
        }
        self.cut(at, k)
    }

    /// Inserts nodes at place `k`. If there is a node `k`, it is at `at`. Requires that the sum of the lengths is at
    /// most `usize::MAX`.
    pub fn splice(&mut self, at: Address, k: usize, nodes: DoubleChain<T>)
        requires within { k ≤ length self.old }
        requires on { k < length self.old → IsAt self.old k at }
        requires fits { length self.old + length nodes < 2 ^ 64 }
        ensures { self.new ≡ take k self.old ++ (nodes ++ drop k self.old) }
    {
        let (front, back) = self.take().split(at, k);
        self.put(front.join(nodes.join(back)));
    }
}

impl<T: Drop> DoubleChain<T> {
    /// Inserts a node at place `k`. If there is a node `k`, it is at `at`. Requires a length below `usize::MAX`.
    pub fn link(&mut self, at: Address, k: usize, node: Node<T, Links<T>>)
        requires within { k ≤ length self.old }
        requires on { k < length self.old → IsAt self.old k at }
        requires fits { length self.old + 1 < 2 ^ 64 }
        ensures { (address : Ptr) × (self.new ≡ take k self.old ++ (address, node) ∷ drop k self.old) }
    {
        if k == 0 {
            self.link_front(node);
            return;
        }
        if k == self.len {
            self.link_back(node);
            return;
        }
        self.link_inner(at, k, node);
    }

    /// Removes node `k`, which is at `at`, and returns it.
    pub fn unlink(&mut self, at: Address, k: usize) -> Node<T, Links<T>>
        requires { IsAt self.old k at }
        ensures node { (address : Ptr) × (slice_get self.old k ≡ Some (address, result)) }
        ensures others { self.new ≡ take k self.old ++ drop (k + 1) self.old }
    {
        if k == 0 {
            return self.unlink_front();
        }
        if k == self.len - 1 {
            return self.unlink_back();
        }
        self.unlink_inner(at, k)
    }
}
