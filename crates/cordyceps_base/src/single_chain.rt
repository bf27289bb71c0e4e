//! A singly linked chain of nodes, from which collections are built, and the two ways to walk along it.
//!
//! A chain uses `next` of its nodes alone. The kind of its nodes is a type parameter, since stacks and the batches of a
//! queue have different kinds. It has no length: a count could overflow, and no call may require that it does not,
//! since callers of a stack do not know its length. `Values` reads the chain, and a `Cursor` owns it while it walks,
//! and inserts nodes.
ghost use Rattle.std.specs.Prelude.{◌≡◌, ◌-◌, ◌<◌, ◌↔◌, [], ◌∷◌, ◌++◌, length, slice_get, Some, IsTrue, IfSome, IfNone, ⊤};
ghost use Rattle.std.specs.Iterator.{YieldsFirstRef, item_count};
ghost use denote.RawPtr.{Ptr, InBlock, Testable};
ghost use Rattle.cordyceps_base.specs.Element.{Element, values};
ghost use Rattle.cordyceps_base.specs.Nodes.{elements};
ghost use Rattle.cordyceps_base.specs.SingleChain.{EndsAt, with_next_of_last, unless_null};

use crate::boxes::homes::Home;
use crate::boxes::{Address, Boxes, RawBox};
use crate::node::{Block, Node};
use std::alloc::AllocError;
use std::marker::{Model, PhantomData};
use std::mem;

/// The nodes of a chain, or of a part of one.
type Row<T> = Boxes<Block<T>, Home>;

/// Returns the address, or null if there is none.
fn or_nowhere(next: Option<Address>) -> Address
    requires { IfSome next (λ a. InBlock a.ptr) }
    ensures { unless_null result ≡ next }
{
    match next {
        Some(address) => address,
        None => Address::null(),
    }
}

/// Returns the address, or `None` if it is null.
fn not_null(address: Address) -> Option<Address>
    requires { Testable address.ptr }
    ensures { result ≡ unless_null address }
{
    if address.is_not_null() {
        Some(address)
    } else {
        None
    }
}

/// Sets the link of the last node of a row, which is at `last`.
fn with_last_link<T>(row: Row<T>, last: Address, next: Address) -> Row<T>
    requires some { 0 < length row.blocks }
    requires at { EndsAt row.blocks last.ptr }
    ensures { result.blocks ≡ with_next_of_last row.blocks next }
{
    let (front, mut end) = row.cut_last();
    end.get_mut(last, 0).links.next = next;
    front.join(end)
}

/// Nodes that are linked one way. A contract sees a list of the nodes, each as its address and its element.
///
/// The number of nodes has no bound. If there is no node, `head` is null, and `tail` is not used.
///
/// # Complexity
/// Each call is O(1) and allocates nothing. Dropping the chain is O(n), for n nodes.
pub struct SingleChain<T, L> {
    head: Address,
    tail: Address,
    boxes: Row<T>,
    kind: PhantomData<L>,
}

impl<T, L> Model for SingleChain<T, L> {
    ghost use Rattle.cordyceps_base.specs.Nodes.{Nodes, nodes_of};
    ghost use Rattle.cordyceps_base.specs.SingleChain.{IsLine, unless_null};

    ghost Value = { Nodes T };

    ghost view = { λ c. nodes_of c.boxes.blocks };

    ghost invariant = { λ c. IsLine (unless_null c.head) c.tail.ptr c.boxes.blocks };
}

/// Frees each node, from the first to the last.
impl<T: Drop, L> Drop for SingleChain<T, L> {
    fn drop(mut self) {
        while !self.is_empty() {
            drop(self.unlink_front());
        }
        self.discard();
    }
}

impl<T, L> SingleChain<T, L> {
    /// Creates an empty chain.
    pub fn empty() -> SingleChain<T, L>
        ensures { result ≡ [] }
    {
        SingleChain {
            head: Address::null(),
            tail: Address::null(),
            boxes: Boxes::empty(),
            kind: PhantomData,
        }
    }

    /// Returns `true` if the chain has no node.
    pub fn is_empty(&self) -> bool
        ensures { IsTrue result ↔ (self.now ≡ []) }
    {
        not_null(self.head).is_none()
    }

    /// Takes all nodes, and leaves an empty chain.
    pub fn take(&mut self) -> SingleChain<T, L>
        ensures { (result ≡ self.old) × (self.new ≡ []) }
    {
        mem::replace(self, SingleChain::empty())
    }

    /// Puts nodes into an empty chain.
    pub fn put(&mut self, nodes: SingleChain<T, L>)
        requires { self.old ≡ [] }
        ensures { self.new ≡ nodes }
    {
        let empty = mem::replace(self, nodes);
        empty.discard();
    }

    /// Ends an empty chain.
    pub fn discard(self)
        requires { self ≡ [] }
    {
        let SingleChain {
            head: _,
            tail: _,
            boxes,
            kind: _,
        } = self;
        boxes.discard();
    }

    /// Creates a chain of one node.
    pub fn one(node: Node<T, L>) -> SingleChain<T, L>
    where
        T: Drop,
        ensures { (address : Ptr) × (result ≡ (address, node) ∷ []) }
    {
        let mut block = node.into_block();
        block.links.next = Address::null();
        let (at, _, boxes) = Boxes::one(RawBox::from_box(block));
        SingleChain {
            head: at,
            tail: at,
            boxes: boxes.null_comparable(),
            kind: PhantomData,
        }
    }

    /// Returns the only node.
    pub fn only(self) -> Node<T, L>
    where
        T: Drop,
        requires { length self ≡ 1 }
        ensures { (address : Ptr) × (self ≡ (address, result) ∷ []) }
    {
        let SingleChain {
            head: _,
            tail,
            boxes,
            kind: _,
        } = self;
        Node::from_block(boxes.only(tail, Home).into_box())
    }

    /// Returns a reference to the value of the first node, or `None` if the chain is empty.
    pub fn first(&self) -> Option<&T>
        ensures some { IfSome result (λ v. slice_get (values (elements self.now)) 0 ≡ Some v.now) }
        ensures none { IfNone result (self.now ≡ []) }
    {
        match not_null(self.head) {
            Some(at) => Some(&self.boxes.get(at, 0).value),
            None => None,
        }
    }

    /// Returns a reference to the value of the last node, or `None` if the chain is empty.
    pub fn last(&self) -> Option<&T>
        ensures some { let last = length self.now - 1 in
            IfSome result (λ v. slice_get (values (elements self.now)) last ≡ Some v.now) }
        ensures none { IfNone result (self.now ≡ []) }
    {
        if self.is_empty() {
            return None;
        }
        let last = self.boxes.only_last();
        Some(&last.get(self.tail, 0).value)
    }

    /// Returns an iterator over the values, from the first to the last.
    pub fn values(&self) -> Values<'_, T>
        ensures { result ≡ values (elements self.now) }
    {
        Values {
            next: not_null(self.head),
            rest: &self.boxes,
        }
    }

    /// Joins two chains to one of the nodes of `self` and then those of `other`.
    pub fn join(self, other: SingleChain<T, L>) -> SingleChain<T, L>
        ensures { result ≡ self ++ other }
    {
        if self.is_empty() {
            self.discard();
            return other;
        }
        if other.is_empty() {
            other.discard();
            return self;
        }
        let SingleChain {
            head,
            tail,
            boxes,
            kind: _,
        } = self;
        let SingleChain {
            head: after,
            tail: last,
            boxes: others,
            kind: _,
        } = other;
        let boxes = with_last_link(boxes, tail, after).join(others);
        SingleChain {
            head,
            tail: last,
            boxes: boxes.null_comparable(),
            kind: PhantomData,
        }
    }

    /// Converts the chain into a cursor at its first node.
    pub fn into_cursor(self) -> Cursor<T, L>
        ensures { (result.before ≡ []) × (result.rest ≡ self) }
    {
        let SingleChain {
            head,
            tail,
            boxes,
            kind: _,
        } = self;
        Cursor {
            head: None,
            before: Address::null(),
            at: not_null(head),
            tail,
            front: Boxes::empty(),
            rest: boxes,
            kind: PhantomData,
        }
    }
}

impl<T: Drop, L> SingleChain<T, L> {
    /// Prepends a node.
    pub fn link_front(&mut self, node: Node<T, L>)
        ensures { (address : Ptr) × (self.new ≡ (address, node) ∷ self.old) }
    {
        let rest = self.take();
        self.put(SingleChain::one(node).join(rest));
    }

    /// Appends a node.
    pub fn link_back(&mut self, node: Node<T, L>)
        ensures { (address : Ptr) × (self.new ≡ self.old ++ (address, node) ∷ []) }
    {
        let rest = self.take();
        self.put(rest.join(SingleChain::one(node)));
    }

    /// Removes the first node and returns it. Requires that the chain is not empty.
    pub fn unlink_front(&mut self) -> Node<T, L>
        requires { 0 < length self.old }
        ensures { (address : Ptr) × (self.old ≡ (address, result) ∷ self.new) }
    {
        let (node, others) = self.take().split_first();
        self.put(others);
        node
    }

    /// Removes the first node, and returns it and the chain of the others.
    fn split_first(self) -> (Node<T, L>, SingleChain<T, L>)
        requires { 0 < length self }
        ensures { (address : Ptr) × (self ≡ (address, result.0) ∷ result.1) }
    {
        let SingleChain {
            head,
            tail,
            boxes,
            kind: _,
        } = self;
        let (front, rest) = boxes.cut(1);
        let block = front.get(head, 0);
        let others = SingleChain {
            head: block.links.next,
            tail,
            boxes: rest,
            kind: PhantomData,
        };
        let node = Node::from_block(front.only(head, Home).into_box());
        (node, others)
    }
}

/// An iterator over the values of a chain, in order. A contract sees the values that are left.
///
/// # Complexity
/// Each `next` is O(1).
#[derive(Drop)]
pub struct Values<'a, T> {
    next: Option<Address>,
    rest: &'a Row<T>,
}

impl<'a, T> Model for Values<'a, T> {
    ghost use Rattle.std.specs.Prelude.{List};
    ghost use Rattle.cordyceps_base.specs.SingleChain.{AreLed, values_in};

    ghost Value = { List T };

    ghost view = { λ v. values_in v.rest.now.blocks };

    ghost invariant = { λ v. AreLed v.next v.rest.now.blocks };
}

impl<'a, T> Clone for Values<'a, T> {
    ghost is_clone = { λ v again. again ≡ v };

    ghost is_infallible = { λ _. ⊤ };

    /// Returns a second iterator over the values that are left. It allocates nothing, and never returns an error.
    ///
    /// # Complexity
    /// O(1).
    fn clone(&self) -> Result<Values<'a, T>, AllocError> {
        Ok(Values {
            next: self.next,
            rest: self.rest,
        })
    }
}

impl<'a, T> Iterator for Values<'a, T> {
    type Item = &'a T;

    ghost next_gives = { YieldsFirstRef (λ v. v) };

    ghost remaining = { item_count (λ v. v) };

    /// Returns a reference to the first value that is left, or `None` if none is.
    fn next(&mut self) -> Option<&'a T> {
        match self.next {
            Some(at) => {
                let rest = self.rest;
                let block = rest.get(at, 0);
                self.next = not_null(block.links.next);
                self.rest = rest.after_first();
                Some(&block.value)
            }
            None => None,
        }
    }
}

/// A chain and a node of it that a walk is at. A contract sees the nodes before that one, and the rest from it on.
///
/// A move writes no memory. `head` is that of the nodes before. `before` is the address of the last of these, and is
/// not used if there is none. Nor is `tail` if there is no node.
///
/// # Complexity
/// Each call is O(1) and allocates nothing. Dropping the cursor is O(n), for n nodes.
pub struct Cursor<T, L> {
    head: Option<Address>,
    before: Address,
    at: Option<Address>,
    tail: Address,
    front: Row<T>,
    rest: Row<T>,
    kind: PhantomData<L>,
}

impl<T, L> Model for Cursor<T, L> {
    ghost use Rattle.cordyceps_base.specs.Nodes.{nodes_of};
    ghost use Rattle.cordyceps_base.specs.SingleChain.{Parted, IsParted};

    ghost Value = { Parted T };

    ghost view = { λ c. record { before = nodes_of c.front.blocks; rest = nodes_of c.rest.blocks } };

    ghost invariant = { λ c. IsParted c.head c.before.ptr c.at c.tail.ptr c.front.blocks c.rest.blocks };
}

/// Frees each node, from the first to the last.
impl<T: Drop, L> Drop for Cursor<T, L> {
    fn drop(self) {
        drop(self.close());
    }
}

impl<T, L> Cursor<T, L> {
    /// Returns a reference to the value at the cursor, or `None` after the last node.
    pub fn current(&self) -> Option<&T>
        ensures some { IfSome result (λ v. slice_get (values (elements self.now.rest)) 0 ≡ Some v.now) }
        ensures none { IfNone result (self.now.rest ≡ []) }
    {
        match self.at {
            Some(at) => Some(&self.rest.get(at, 0).value),
            None => None,
        }
    }

    /// Moves the cursor to the next node. Requires that it is at a node.
    pub fn advance(&mut self)
        requires { 0 < length self.old.rest }
        ensures { (node : Ptr × Element T)
            × (self.old.rest ≡ node ∷ self.new.rest)
            × (self.new.before ≡ self.old.before ++ node ∷ []) }
    {
        let cursor = self.take();
        self.put(cursor.moved());
    }

    fn moved(self) -> Cursor<T, L>
        requires { 0 < length self.rest }
        ensures { (node : Ptr × Element T)
            × (self.rest ≡ node ∷ result.rest)
            × (result.before ≡ self.before ++ node ∷ []) }
    {
        let Cursor {
            head,
            before: _,
            at,
            tail,
            front,
            rest,
            kind: _,
        } = self;
        let here = at.unwrap();
        let (first, rest) = rest.null_comparable().cut(1);
        let next = not_null(first.get(here, 0).links.next);
        Cursor {
            head: head.or(at),
            before: here,
            at: next,
            tail,
            front: front.join(first),
            rest,
            kind: PhantomData,
        }
    }

    fn take(&mut self) -> Cursor<T, L>
        ensures { (result ≡ self.old) × (self.new.before ≡ []) × (self.new.rest ≡ []) }
    {
        mem::replace(self, SingleChain::empty().into_cursor())
    }

    fn put(&mut self, cursor: Cursor<T, L>)
        requires { (self.old.before ≡ []) × (self.old.rest ≡ []) }
        ensures { self.new ≡ cursor }
    {
        let empty = mem::replace(self, cursor);
        empty.close().discard();
    }

    /// Converts the cursor into the chain of all nodes.
    pub fn close(self) -> SingleChain<T, L>
        ensures { result ≡ self.before ++ self.rest }
    {
        let Cursor {
            head,
            before: _,
            at,
            tail,
            front,
            rest,
            kind: _,
        } = self;
        let boxes = front.join(rest).null_comparable();
        SingleChain {
            head: or_nowhere(head.or(at)),
            tail,
            boxes,
            kind: PhantomData,
        }
    }
}

impl<T: Drop, L> Cursor<T, L> {
    /// Inserts a node before the one that the cursor is at, or after the last.
    pub fn insert(&mut self, node: Node<T, L>)
        ensures { (address : Ptr)
            × (self.new.before ≡ self.old.before ++ (address, node) ∷ [])
            × (self.new.rest ≡ self.old.rest) }
    {
        let cursor = self.take();
        self.put(cursor.with_node(node));
    }

    fn with_node(self, node: Node<T, L>) -> Cursor<T, L>
        ensures { (address : Ptr)
            × (result.before ≡ self.before ++ (address, node) ∷ [])
            × (result.rest ≡ self.rest) }
    {
        let Cursor {
            head,
            before,
            at,
            tail,
            front,
            rest,
            kind: _,
        } = self;
        let mut block = node.into_block();
        let rest = rest.null_comparable();
        block.links.next = or_nowhere(at);
        let (address, _, new) = Boxes::one(RawBox::from_box(block));
        let new = new.null_comparable();
        let tail = if at.is_none() { address } else { tail };
        if head.is_none() {
            return Cursor {
                head: Some(address),
                before: address,
                at,
                tail,
                front: front.join(new),
                rest,
                kind: PhantomData,
            };
        }
        Cursor {
            head,
            before: address,
            at,
            tail,
            front: with_last_link(front, before, address).join(new),
            rest,
            kind: PhantomData,
        }
    }
}
