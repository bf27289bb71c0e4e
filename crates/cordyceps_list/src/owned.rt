//! The cursor that owns its nodes, which moves, lends and edits for `CursorMut`.
//!
//! It knows the address of its node, so an edit searches for nothing and writes no finger. With a place as a number in
//! a borrowed list an edit took about twice as long. If a `CursorMut` borrowed the chain, or kept an address beside the
//! borrowed list, its caller would not know the list afterwards. The price is that a cursor which is forgotten by
//! `mem::forget` leaves the list empty and its nodes in memory.
//!
//! What a `CursorMut` owns is a type parameter of it, which has a default. The toolchain says what a dropped struct
//! leaves behind its reference only if no field's type names a raw pointer, and the type of the nodes does.
ghost use Rattle.std.specs.Prelude.{◌≡◌, ◌+◌, ◌-◌, ◌<◌, ◌≤◌, ◌∷◌, ◌++◌, take, drop, length, slice_get, Some};
ghost use Rattle.std.specs.Borrow.{sem};
ghost use Rattle.std.specs.Fn.{CalledAt};
ghost use Rattle.cordyceps_base.specs.Element.{values};
ghost use Rattle.cordyceps_base.specs.Nodes.{elements};
ghost use Rattle.cordyceps_list.specs.Filter.{RemovesFirst};
ghost use Rattle.cordyceps_list.specs.Position.{StandsAt};
ghost use Rattle.cordyceps_list.specs.Walks.{MayAsk, Walks};

use crate::cursor::Cursor;
use crate::finger::Finger;
use crate::list::{Links, first_passing};
use cordyceps_base::double_chain::DoubleChain;
use cordyceps_base::node::Node;
use std::marker::Model;

/// What owns the nodes of a list while a `CursorMut` is there. It is a parameter of `CursorMut`, since the contract of
/// a `Drop` says what a struct leaves behind a reference only if no type of its fields names a raw pointer.
pub trait OwnsNodes<T> {
    ghost use Rattle.cordyceps_base.specs.Element.{Elements};
    ghost use Rattle.cordyceps_base.specs.Nodes.{elements};

    // The elements of the nodes.
    ghost owned: { Self → Elements T };

    /// Returns the nodes.
    ///
    /// # Complexity
    /// O(1).
    fn into_chain(self) -> DoubleChain<T>
        ensures { elements result ≡ owned self };
}

/// The nodes of a list, and a place among them. A contract sees the elements and the place, which is an index from 0 to
/// the length. The length is the null place.
pub struct OwnedCursor<T> {
    chain: DoubleChain<T>,
    at: Finger,
}

impl<T> Model for OwnedCursor<T> {
    ghost use Rattle.cordyceps_base.specs.Nodes.{elements};
    ghost use Rattle.cordyceps_list.specs.Position.{Position, StandsAt};

    ghost Value = { Position T };

    ghost view = { λ c. record { elements = elements c.chain; place = c.at.index } };

    ghost invariant = { λ c. StandsAt c.chain c.at.address c.at.index };
}

impl<T> OwnsNodes<T> for OwnedCursor<T> {
    ghost owned = { λ c. c.elements };

    /// Returns the nodes.
    ///
    /// # Complexity
    /// O(1).
    fn into_chain(self) -> DoubleChain<T> {
        let OwnedCursor { chain, at: _ } = self;
        chain
    }
}

impl<T> OwnedCursor<T> {
    ghost use Rattle.cordyceps_list.specs.Places.{next_place, prev_place};
    ghost use Rattle.cordyceps_list.specs.Owned.{LendsAndGoesTo};

    /// Returns a cursor at the null place.
    pub(crate) fn at_null(chain: DoubleChain<T>) -> OwnedCursor<T>
        ensures elements { result.elements ≡ elements chain }
        ensures place { result.place ≡ length (elements chain) }
    {
        let at = Finger::after_last(chain.len());
        OwnedCursor { chain, at }
    }

    /// Returns a cursor at the first node, or at the null place if there is none.
    pub(crate) fn at_front(chain: DoubleChain<T>) -> OwnedCursor<T>
        ensures elements { result.elements ≡ elements chain }
        ensures place { result.place ≡ 0 }
    {
        let at = Finger::at_front(&chain);
        OwnedCursor { chain, at }
    }

    /// Returns a cursor at the last node, or at the null place if there is none.
    pub(crate) fn at_back(chain: DoubleChain<T>) -> OwnedCursor<T>
        ensures elements { result.elements ≡ elements chain }
        ensures place { result.place ≡ length (elements chain) - 1 }
    {
        let at = Finger::at_back(&chain);
        OwnedCursor { chain, at }
    }

    /// Returns a cursor at a place, given the finger there.
    pub(crate) fn at_place(chain: DoubleChain<T>, at: Finger) -> OwnedCursor<T>
        requires { StandsAt chain at.address at.index }
        ensures elements { result.elements ≡ elements chain }
        ensures place { result.place ≡ at.index }
    {
        OwnedCursor { chain, at }
    }

    /// Ends the cursor, and returns the nodes and the finger at its place.
    pub(crate) fn into_parts(self) -> (DoubleChain<T>, Finger)
        ensures elements { elements result.0 ≡ self.elements }
        ensures stands { StandsAt result.0 result.1.address result.1.index }
        ensures place { result.1.index ≡ self.place }
    {
        let OwnedCursor { chain, at } = self;
        (chain, at)
    }

    /// Returns the place.
    pub(crate) fn place(&self) -> usize
        ensures value { result ≡ self.now.place }
        ensures inside { result ≤ length self.now.elements }
    {
        self.at.index
    }

    /// Returns the number of nodes.
    pub(crate) fn len(&self) -> usize
        ensures { result ≡ length self.now.elements }
    {
        self.chain.len()
    }

    /// Returns a cursor that only reads, at the same place.
    pub(crate) fn as_cursor(&self) -> Cursor<'_, T>
        ensures { result ≡ self.now }
    {
        Cursor::at_finger(&self.chain, self.at)
    }

    /// Moves to the next place.
    pub(crate) fn move_next(&mut self)
        ensures elements { self.new.elements ≡ self.old.elements }
        ensures place { self.new.place ≡ next_place (length self.old.elements) self.old.place }
    {
        self.at = self.at.next(&self.chain);
    }

    /// Moves to the previous place.
    pub(crate) fn move_prev(&mut self)
        ensures elements { self.new.elements ≡ self.old.elements }
        ensures place { self.new.place ≡ prev_place (length self.old.elements) self.old.place }
    {
        self.at = self.at.prev(&self.chain);
    }

    /// Returns a mutable reference to the value at the cursor. Requires that this is not the null place.
    pub(crate) fn current_mut(&mut self) -> &mut T
        requires { self.old.place < length self.old.elements }
        ensures* writes_back { sem 𝓛 (LendsAndGoesTo T.row self.entry self.old.place self.old.place result) }
        ensures value { slice_get (values self.old.elements) self.old.place ≡ Some result.now }
    {
        self.chain.get_mut(self.at.address, self.at.index)
    }

    /// Returns a mutable reference to the value at the cursor, and moves to the next place. Requires that it is not at
    /// the null place.
    pub(crate) fn next_mut(&mut self) -> &mut T
        requires { self.old.place < length self.old.elements }
        ensures* writes_back { sem 𝓛 (LendsAndGoesTo T.row self.entry self.old.place (self.old.place + 1) result) }
        ensures value { slice_get (values self.old.elements) self.old.place ≡ Some result.now }
    {
        let here = self.at;
        prove!(here.index < self.chain.len());
        self.at = Finger {
            address: self.chain.next(here.address, here.index),
            index: here.index + 1,
        };
        self.chain.get_mut(here.address, here.index)
    }

    /// Returns a mutable reference to the value at the next place. Requires that this is not the null place.
    pub(crate) fn peek_next_mut(&mut self) -> &mut T
        requires { next_place (length self.old.elements) self.old.place < length self.old.elements }
        ensures* writes_back { sem 𝓛
            (LendsAndGoesTo T.row self.entry (next_place (length self.old.elements) self.old.place) self.old.place
            result) }
        ensures value { slice_get (values self.old.elements) (next_place (length self.old.elements) self.old.place)
            ≡ Some result.now }
    {
        let next = self.at.next(&self.chain);
        self.chain.get_mut(next.address, next.index)
    }

    /// Returns a mutable reference to the value at the previous place. Requires that this is not the null place.
    pub(crate) fn peek_prev_mut(&mut self) -> &mut T
        requires { prev_place (length self.old.elements) self.old.place < length self.old.elements }
        ensures* writes_back { sem 𝓛
            (LendsAndGoesTo T.row self.entry (prev_place (length self.old.elements) self.old.place) self.old.place
            result) }
        ensures value { slice_get (values self.old.elements) (prev_place (length self.old.elements) self.old.place)
            ≡ Some result.now }
    {
        let prev = self.at.prev(&self.chain);
        self.chain.get_mut(prev.address, prev.index)
    }

    /// Inserts nodes before the cursor's, at which it stays. Requires that the sum of the lengths is at most
    /// `usize::MAX`.
    pub(crate) fn splice_before(&mut self, nodes: DoubleChain<T>)
        requires { length self.old.elements + length (elements nodes) ≤ usize.MAX }
        ensures elements { self.new.elements
            ≡ take self.old.place self.old.elements ++ elements nodes ++ drop self.old.place self.old.elements }
        ensures place { self.new.place ≡ self.old.place + length (elements nodes) }
    {
        let more = nodes.len();
        self.chain.splice(self.at.address, self.at.index, nodes);
        self.at.index += more;
    }

    /// Inserts nodes after the cursor's, at which it stays. Requires that it is not at the null place, and that the sum
    /// of the lengths is at most `usize::MAX`.
    pub(crate) fn splice_after(&mut self, nodes: DoubleChain<T>)
        requires inside { self.old.place < length self.old.elements }
        requires fits { length self.old.elements + length (elements nodes) ≤ usize.MAX }
        ensures elements { self.new.elements
            ≡ take (self.old.place + 1) self.old.elements ++ elements nodes
            ++ drop (self.old.place + 1) self.old.elements }
        ensures place { self.new.place ≡ self.old.place }
    {
        let next = self.chain.next(self.at.address, self.at.index);
        self.chain.splice(next, self.at.index + 1, nodes);
    }

    /// Inserts nodes before the first one, and stays at the null place. Requires that it is there, and that the sum of
    /// the lengths is at most `usize::MAX`.
    pub(crate) fn splice_first(&mut self, nodes: DoubleChain<T>)
        requires null { self.old.place ≡ length self.old.elements }
        requires fits { length self.old.elements + length (elements nodes) ≤ usize.MAX }
        ensures elements { self.new.elements ≡ elements nodes ++ self.old.elements }
        ensures place { self.new.place ≡ length self.old.elements + length (elements nodes) }
    {
        self.at.index += nodes.len();
        let rest = self.chain.take();
        self.chain.put(nodes.join(rest));
    }

    /// Splits the nodes after the cursor's, and returns those after it. Requires that it is not at the null place.
    pub(crate) fn split_after(&mut self) -> DoubleChain<T>
        requires { self.old.place < length self.old.elements }
        ensures split { elements result ≡ drop (self.old.place + 1) self.old.elements }
        ensures kept { self.new.elements ≡ take (self.old.place + 1) self.old.elements }
        ensures place { self.new.place ≡ self.old.place }
    {
        let here = self.at;
        let (front, rest) = self.chain.take().cut_after(here.address, here.index + 1);
        self.chain.put(front);
        rest
    }

    /// Splits the nodes before the cursor's, and returns those before it. The cursor is then at place 0.
    pub(crate) fn split_before(&mut self) -> DoubleChain<T>
        ensures split { elements result ≡ take self.old.place self.old.elements }
        ensures kept { self.new.elements ≡ drop self.old.place self.old.elements }
        ensures place { self.new.place ≡ 0 }
    {
        let here = self.at;
        self.at.index = 0;
        let (front, rest) = self.chain.take().split(here.address, here.index);
        self.chain.put(rest);
        front
    }

    /// Calls the predicate on the values from the cursor's place on, up to the first `true`, and moves there, or to the
    /// null place if there is none.
    pub(crate) fn go_to_passing<F: FnMut(&T) -> bool>(&mut self, predicate: &mut F)
        requires { MayAsk F.FnMut (drop self.old.place (values self.old.elements)) predicate.old }
        ensures elements { self.new.elements ≡ self.old.elements }
        ensures walks { Walks (CalledAt F.FnMut) predicate.old (drop self.old.place (values self.old.elements))
            (self.new.place - self.old.place) predicate.new }
        ensures from { self.old.place ≤ self.new.place }
    {
        self.at = first_passing(&self.chain, self.at, predicate);
    }
}

impl<T: Drop> OwnedCursor<T> {
    /// Inserts a node before the cursor's, at which it stays. Requires a length below `usize::MAX`.
    pub(crate) fn insert_before(&mut self, node: Node<T, Links<T>>)
        requires { length self.old.elements < usize.MAX }
        ensures elements { self.new.elements
            ≡ take self.old.place self.old.elements ++ node ∷ drop self.old.place self.old.elements }
        ensures place { self.new.place ≡ self.old.place + 1 }
    {
        self.chain.link(self.at.address, self.at.index, node);
        self.at.index += 1;
    }

    /// Inserts a node after the cursor's, at which it stays. Requires that it is not at the null place, and a length
    /// below `usize::MAX`.
    pub(crate) fn insert_after(&mut self, node: Node<T, Links<T>>)
        requires inside { self.old.place < length self.old.elements }
        requires fits { length self.old.elements < usize.MAX }
        ensures elements { self.new.elements
            ≡ take (self.old.place + 1) self.old.elements ++ node ∷ drop (self.old.place + 1) self.old.elements }
        ensures place { self.new.place ≡ self.old.place }
    {
        let next = self.chain.next(self.at.address, self.at.index);
        self.chain.link(next, self.at.index + 1, node);
    }

    /// Inserts a node before the first one, and stays at the null place. Requires that it is there, and a length below
    /// `usize::MAX`.
    pub(crate) fn insert_first(&mut self, node: Node<T, Links<T>>)
        requires null { self.old.place ≡ length self.old.elements }
        requires fits { length self.old.elements < usize.MAX }
        ensures elements { self.new.elements ≡ node ∷ self.old.elements }
        ensures place { self.new.place ≡ length self.old.elements + 1 }
    {
        self.chain.link_front(node);
        self.at.index += 1;
    }

    /// Removes the cursor's node and returns it. The cursor is then at the next place. Requires that it is not at the
    /// null place.
    pub(crate) fn remove_current(&mut self) -> Node<T, Links<T>>
        requires { self.old.place < length self.old.elements }
        ensures node { slice_get self.old.elements self.old.place ≡ Some result }
        ensures others { self.new.elements
            ≡ take self.old.place self.old.elements ++ drop (self.old.place + 1) self.old.elements }
        ensures place { self.new.place ≡ self.old.place }
    {
        let here = self.at;
        self.at.address = self.chain.next(here.address, here.index);
        self.chain.unlink(here.address, here.index)
    }

    /// Removes the first node from the cursor's on whose value passes, and returns it, or `None` if there is none. The
    /// cursor is then at the next place. It is inlined, so that a loop over removals has no call.
    #[inline(always)]
    pub(crate) fn remove_first<F: FnMut(&T) -> bool>(
        &mut self,
        predicate: &mut F,
    ) -> Option<Node<T, Links<T>>>
        requires { MayAsk F.FnMut (drop self.old.place (values self.old.elements)) predicate.old }
        ensures { RemovesFirst (λ node. node) (CalledAt F.FnMut) self.old.elements self.old.place predicate.old result
            self.new.elements self.new.place predicate.new }
    {
        self.go_to_passing(predicate);
        if self.place() == self.len() {
            return None;
        }
        Some(self.remove_current())
    }
}
