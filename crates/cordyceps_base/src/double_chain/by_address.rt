//! Calls that reach the nodes of a chain by their addresses alone. Each requires that a node of the chain is at the
//! address.
ghost use Rattle.std.specs.Prelude.{◌≡◌, ◌+◌, ◌^◌, ◌<◌, [], ◌∷◌, ◌++◌, length, slice_get, Some, MatchOption};
ghost use Rattle.std.specs.Borrow.{sem};
ghost use denote.RawPtr.{Ptr, null_ptr};
ghost use Rattle.cordyceps_base.specs.Boxes.{box_addresses};
ghost use Rattle.cordyceps_base.specs.BySpot.{HasSpot, HoldsAt, IsTaken, IsPutBefore, IsPutAfter, IsMovedFront, IsMovedBack, IsMovedAfter, IsFirst, IsLast, AreNext};
ghost use Rattle.cordyceps_base.specs.DoubleChain.{Segment};
ghost use Rattle.cordyceps_base.specs.Element.{Element, values};
ghost use Rattle.cordyceps_base.specs.Nodes.{Nodes, block_element, elements, nodes_of, spots};
ghost use Rattle.cordyceps_base.specs.Spots.{index_of, AreDistinct, AreNullComparable};

use super::DoubleChain;
use crate::boxes::Address;
use crate::boxes::homes::Home;
use crate::double_row::{Part, Row, between, followed_by, node_of, preceded_by, row_of};
use crate::list::Links;
use crate::node::{Block, Node};

impl<T> DoubleChain<T> {
    ghost use Rattle.cordyceps_base.specs.DoubleChainLends.{lends_item};

    /// Returns the same nodes. Its contract states that their addresses are distinct.
    pub fn distinct(self) -> DoubleChain<T>
        ensures { (result ≡ self) × AreDistinct (spots self) }
    {
        let DoubleChain {
            head,
            tail,
            len,
            boxes,
        } = self;
        DoubleChain {
            head,
            tail,
            len,
            boxes: boxes.distinct(),
        }
    }

    /// Does nothing when the program runs, and the chain stays as it is. Its contract states that the addresses of the
    /// nodes are distinct. It borrows the chain mutably, since the proof needs the nodes to be owned.
    pub fn keep_distinct(&mut self)
        ensures { (self.new ≡ self.old) × AreDistinct (spots self.new) }
    {
        let differing = self.take().distinct();
        self.put(differing);
    }

    /// Returns the address of the node after the one at `at`, or `None` if that is the last.
    pub fn next_at(&self, at: Address) -> Option<Address>
        requires { HasSpot self.now at.ptr }
        ensures { MatchOption result (IsLast self.now at.ptr) (λ p. AreNext self.now at.ptr p.ptr) }
    {
        let next = self.boxes.from_address(at).get(at, 0).links.next;
        if next.is_not_null() { Some(next) } else { None }
    }

    /// Returns the address of the node before the one at `at`, or `None` if that is the first.
    pub fn prev_at(&self, at: Address) -> Option<Address>
        requires { HasSpot self.now at.ptr }
        ensures { MatchOption result (IsFirst self.now at.ptr) (λ p. AreNext self.now p.ptr at.ptr) }
    {
        let prev = self.boxes.from_address(at).get(at, 0).links.prev;
        if prev.is_not_null() { Some(prev) } else { None }
    }

    /// Returns a reference to the value at an address.
    pub fn get_at(&self, at: Address) -> &T
        requires { HasSpot self.now at.ptr }
        ensures { HoldsAt self.now at.ptr result.now }
    {
        &self.boxes.from_address(at).get(at, 0).value
    }

    /// Returns a mutable reference to the value at an address. The element keeps its number.
    pub fn get_at_mut(&mut self, at: Address) -> &mut T
        requires { HasSpot self.old at.ptr }
        ensures* writes_back { sem 𝓛 (lends_item T.row self.entry (index_of at.ptr (spots self.old)) result) }
        ensures value { slice_get (values (elements self.old)) (index_of at.ptr (spots self.old)) ≡ Some result.now }
    {
        let block = self.boxes.at_mut(at);
        &mut block.value
    }

    /// Separates the node at `at` from the others.
    fn separate(self, at: Address) -> (DoubleChain<T>, Row<T>)
        requires { HasSpot self at.ptr }
        ensures parts { (a : Home) × (x : Block T) × IsTaken self at.ptr (block_element x) result.0
            × (result.1.blocks ≡ (at.ptr, a, x) ∷ []) }
        ensures fits { length result.0 + 1 < 2 ^ 64 }
    {
        let len = self.len();
        let DoubleChain {
            head,
            tail,
            len: _,
            boxes,
        } = self;
        let (front, back) = boxes.cut_at(at);
        let next = back.get(at, 0).links.next;
        let prev = back.get(at, 0).links.prev;
        let (one, rest) = back.cut(1);
        let (head, front) = followed_by(front, head, prev, next);
        let (tail, rest) = preceded_by(rest, next, tail, prev);
        let left = DoubleChain {
            head,
            tail,
            len: len - 1,
            boxes: front.join(rest).null_comparable(),
        };
        (left, one)
    }

    /// Moves the node at `at` to the front. It keeps its address.
    pub fn move_front(&mut self, at: Address)
        requires { HasSpot self.old at.ptr }
        ensures { IsMovedFront self.old at.ptr self.new }
    {
        let (rest, one) = self.take().separate(at);
        self.put(DoubleChain::of_one(at, one).join(rest));
    }

    /// Moves the node at `at` to the back. It keeps its address.
    pub fn move_back(&mut self, at: Address)
        requires { HasSpot self.old at.ptr }
        ensures { IsMovedBack self.old at.ptr self.new }
    {
        let (rest, one) = self.take().separate(at);
        self.put(rest.join(DoubleChain::of_one(at, one)));
    }
}

impl<T> DoubleChain<T> {
    /// Creates a chain of a front part, the one node of a row, which is at `at`, and a back part. The parts have `len`
    /// nodes together.
    fn of_parts(
        front: Part<T>,
        at: Address,
        one: Row<T>,
        back: Part<T>,
        len: usize,
    ) -> DoubleChain<T>
        requires one { (a : Home) × (x : Block T) × (one.blocks ≡ (at.ptr, a, x) ∷ []) }
        requires front { (q : Ptr) × Segment null_ptr front.first.ptr front.row.blocks front.last.ptr q }
        requires back { (p : Ptr) × Segment p back.first.ptr back.row.blocks back.last.ptr null_ptr }
        requires front_comparable { AreNullComparable (box_addresses front.row.blocks) }
        requires back_comparable { AreNullComparable (box_addresses back.row.blocks) }
        requires len { len ≡ length front.row.blocks + length back.row.blocks }
        requires fits { len + 1 < 2 ^ 64 }
        ensures { result ≡ nodes_of front.row.blocks ++ (nodes_of one.blocks ++ nodes_of back.row.blocks) }
    {
        let whole = between(front, at, one, back);
        let Part { first, last, row } = whole;
        DoubleChain {
            head: first,
            tail: last,
            len: len + 1,
            boxes: row.null_comparable(),
        }
    }

    /// Inserts the one node of a row, which is at `new`, before the one at `at`.
    fn with_before(self, at: Address, new: Address, one: Row<T>) -> DoubleChain<T>
        requires there { HasSpot self at.ptr }
        requires one { (a : Home) × (x : Block T) × (one.blocks ≡ (new.ptr, a, x) ∷ []) }
        requires fits { length self + 1 < 2 ^ 64 }
        ensures { (e : Element T) → nodes_of one.blocks ≡ (new.ptr, e) ∷ [] → IsPutBefore self at.ptr new.ptr e result }
    {
        let DoubleChain {
            head,
            tail,
            len,
            boxes,
        } = self;
        let (front, back) = boxes.cut_at(at);
        let before = Part {
            first: head,
            last: back.get(at, 0).links.prev,
            row: front,
        };
        let rest = Part {
            first: at,
            last: tail,
            row: back,
        };
        DoubleChain::of_parts(before, new, one, rest, len)
    }

    /// Inserts the one node of a row, which is at `new`, after the one at `at`.
    fn with_after(self, at: Address, new: Address, one: Row<T>) -> DoubleChain<T>
        requires there { HasSpot self at.ptr }
        requires one { (a : Home) × (x : Block T) × (one.blocks ≡ (new.ptr, a, x) ∷ []) }
        requires fits { length self + 1 < 2 ^ 64 }
        ensures { (e : Element T) → nodes_of one.blocks ≡ (new.ptr, e) ∷ [] → IsPutAfter self at.ptr new.ptr e result }
    {
        let DoubleChain {
            head,
            tail,
            len,
            boxes,
        } = self;
        let (front, back) = boxes.cut_at(at);
        let next = back.get(at, 0).links.next;
        let (same, rest) = back.cut(1);
        let before = Part {
            first: head,
            last: at,
            row: front.join(same),
        };
        let after = Part {
            first: next,
            last: tail,
            row: rest,
        };
        DoubleChain::of_parts(before, new, one, after, len)
    }

    /// Moves the node at `at` to right after the one at `to`, which is another. It keeps its address.
    pub fn move_after(&mut self, at: Address, to: Address)
        requires there { HasSpot self.old at.ptr }
        requires other { (e : Element T) (rest : Nodes T) → IsTaken self.old at.ptr e rest → HasSpot rest to.ptr }
        ensures { IsMovedAfter self.old at.ptr to.ptr self.new }
    {
        let (rest, one) = self.take().separate(at);
        self.put(rest.with_after(to, at, one));
    }
}

impl<T: Drop> DoubleChain<T> {
    /// Inserts a node before the one at `at` and returns its address. Requires a length below `usize::MAX`.
    pub fn link_before(&mut self, at: Address, node: Node<T, Links<T>>) -> Address
        requires there { HasSpot self.old at.ptr }
        requires fits { length self.old + 1 < 2 ^ 64 }
        ensures holds { IsPutBefore self.old at.ptr result.ptr node self.new }
        ensures distinct { AreDistinct (spots self.new) }
    {
        let (new, one) = row_of(node);
        let nodes = self.take().with_before(at, new, one);
        self.put(nodes.distinct());
        new
    }

    /// Inserts a node after the one at `at` and returns its address. Requires a length below `usize::MAX`.
    pub fn link_after(&mut self, at: Address, node: Node<T, Links<T>>) -> Address
        requires there { HasSpot self.old at.ptr }
        requires fits { length self.old + 1 < 2 ^ 64 }
        ensures holds { IsPutAfter self.old at.ptr result.ptr node self.new }
        ensures distinct { AreDistinct (spots self.new) }
    {
        let (new, one) = row_of(node);
        let nodes = self.take().with_after(at, new, one);
        self.put(nodes.distinct());
        new
    }

    /// Removes the node at `at` and returns it.
    pub fn unlink_at(&mut self, at: Address) -> Node<T, Links<T>>
        requires { HasSpot self.old at.ptr }
        ensures { IsTaken self.old at.ptr result self.new }
    {
        let (rest, one) = self.take().separate(at);
        self.put(rest);
        node_of(at, one)
    }
}
