//! A whole tree of nodes in order, which knows no order of its own: its root, its first node and its length.
ghost use Rattle.std.specs.Prelude.{ℕ, ◌≡◌, ◌≢◌, ◌+◌, ◌<◌, ◌≤◌, [], ◌∷◌, ◌++◌, length, List, if◌then◌else◌, true};
ghost use Rattle.std.specs.Prelude.{IfSome, MatchOption, Some, false, slice_get};
ghost use denote.RawPtr.{Ptr, InBlock, Testable, null_ptr};
ghost use Rattle.cordyceps_base.specs.Boxes.{box_addresses};
ghost use Rattle.cordyceps_base.specs.BySpot.{HasSpot, HoldsAt, IsTaken, IsFirst, IsLast, AreNext};
ghost use Rattle.std.specs.Borrow.{sem};
ghost use Rattle.cordyceps_base.specs.Element.{Element, values};
ghost use Rattle.cordyceps_base.specs.Nodes.{Nodes, elements, spots};
ghost use Rattle.cordyceps_base.specs.Spots.{index_of, AreDistinct};
ghost use Rattle.cordyceps_tree.specs.TreeLends.{LendsAt};
ghost use Rattle.cordyceps_tree.specs.Bounds.{IsPutWhere, IsBoundWhere, SaysAfterEquals, AnswersAt, IsPutApart, IsPutOver};
ghost use Rattle.cordyceps_tree.specs.Heights.{least, IsAtMostLog};
ghost use Rattle.cordyceps_tree.specs.Rows.{nodes_of, IsTree};
ghost use Rattle.cordyceps_stable.specs.Replacing.{IsReplaced};
ghost use Rattle.cordyceps_tree.specs.Trees.{is_in, is_none, first_in};

use crate::alone::Alone;
use crate::block::Row;
use crate::cutting::{Departed, replaced};
use crate::finding::{AfterEquals, BeforeEquals, Guide, place_of};
use crate::planting::put_in;
use crate::removing::removed;
use crate::rows::{height_of, hook_of};
use crate::walking::{climbed, neighbour, outermost};
use cordyceps_base::boxes::{Address, Boxes};
use cordyceps_single::counter::{Counter, Uncounted};
use cordyceps_single::sorted_list::Order;
use cordyceps_stable::addresses::{address_of, spot_at};
use cordyceps_stable::stable_list::Spot;
use std::marker::Model;

/// A tree of owned nodes. A contract sees them in order, each with its spot.
pub(crate) struct Rooted<T> {
    root: Address,
    first: Address,
    len: usize,
    row: Row<T>,
}

impl<T> Model for Rooted<T> {
    ghost use Rattle.cordyceps_base.specs.Nodes.{Nodes};
    ghost use Rattle.cordyceps_tree.specs.Rows.{nodes_of, IsWhole};

    ghost Value = { Nodes T };

    ghost view = { λ t. nodes_of t.row.boxes.blocks };

    ghost invariant = { λ t. IsWhole t.root.ptr t.first.ptr t.len t.row.boxes.blocks };
}

/// Returns the spot of an address, unless it is null.
fn spot_unless_null(address: Address) -> Option<Spot>
    requires { Testable address.ptr }
    ensures { MatchOption result (address.ptr ≡ null_ptr) (λ p. InBlock p × (p ≡ address.ptr)) }
{
    if address.is_not_null() {
        Some(spot_at(address))
    } else {
        None
    }
}

/// Returns the one of two addresses that a test chooses.
fn chosen(is_one: bool, one: Address, other: Address) -> Address
    ensures { result ≡ (if is_one then one else other) }
{
    if is_one { one } else { other }
}

/// Returns `true` if no node is before that at `at`.
fn is_first<T>(row: &Row<T>, root: Address, at: Address) -> bool
    requires tree { IsTree root.ptr row.now.boxes.blocks }
    requires there { is_in at.ptr (box_addresses row.now.boxes.blocks) ≡ true }
    ensures { (a b : List Ptr) → box_addresses row.now.boxes.blocks ≡ a ++ at.ptr ∷ b → result ≡ is_none a }
{
    let left = hook_of(row, at).left;
    if left.is_not_null() {
        return false;
    }
    climbed(row, root, at, false).is_null()
}

/// Returns the first node without that at `at`, or null if there is no other.
fn first_without<T>(row: &Row<T>, root: Address, first: Address, at: Address) -> Address
    requires tree { IsTree root.ptr row.now.boxes.blocks }
    requires front { first.ptr ≡ first_in (box_addresses row.now.boxes.blocks) }
    requires there { is_in at.ptr (box_addresses row.now.boxes.blocks) ≡ true }
    ensures { (a b : List Ptr)
        → box_addresses row.now.boxes.blocks ≡ a ++ at.ptr ∷ b
        → result.ptr ≡ first_in (a ++ b) }
{
    if is_first(row, root, at) {
        return neighbour(row, root, at, true);
    }
    first
}

impl<T> Rooted<T> {
    /// Creates a tree of no node.
    pub(crate) fn empty() -> Rooted<T>
        ensures { result ≡ [] }
    {
        Rooted {
            root: Address::null(),
            first: Address::null(),
            len: 0,
            row: Row {
                boxes: Boxes::empty(),
            },
        }
    }

    /// Puts a node in after all that are not greater by an order, and returns its spot. Counts the comparisons.
    pub(crate) fn put<O: Order<T>, C: Counter>(
        &mut self,
        order: &O,
        one: Alone<T>,
        steps: &mut C,
    ) -> Spot
        requires order { O.can_compare order.now }
        requires fits { length self.old < usize.MAX }
        requires alone { (e : Element T) × (nodes_of one.row.boxes.blocks ≡ (one.at.ptr, e) ∷ []) }
        ensures at { result ≡ one.at.ptr }
        ensures put { (e : Element T) → nodes_of one.row.boxes.blocks ≡ (one.at.ptr, e) ∷ []
            → IsPutWhere (SaysAfterEquals (O.compares_by order.now) e.value) self.old one.at.ptr e self.new }
        ensures few { C.counts
            → (h : ℕ) × (C.counted steps.new ≤ C.counted steps.old + h) × IsAtMostLog h (length self.old) }
    {
        let value = one.value();
        let guide = AfterEquals { order, value };
        let place = place_of(&self.row, self.root, &guide, steps);
        let at = one.at;
        self.root = put_in(&mut self.row, self.root, place, one);
        self.first = chosen(place.is_first, at, self.first);
        self.len += 1;
        spot_at(at)
    }

    /// Puts a node in before all that are not less by an order, or into the place of the first of these, which leaves,
    /// if that is equal.
    pub(crate) fn put_apart<O: Order<T>>(&mut self, order: &O, one: Alone<T>) -> Option<Alone<T>>
        requires order { O.can_compare order.now }
        requires fits { length self.old < usize.MAX }
        requires alone { (e : Element T) × (nodes_of one.row.boxes.blocks ≡ (one.at.ptr, e) ∷ []) }
        ensures { (e : Element T) → nodes_of one.row.boxes.blocks ≡ (one.at.ptr, e) ∷ []
            → MatchOption result (IsPutApart (O.compares_by order.now) self.old one.at.ptr e self.new)
            (λ left. (o : Element T) × IsPutOver (O.compares_by order.now) self.old one.at.ptr o e self.new
            × (nodes_of left.row.boxes.blocks ≡ (left.at.ptr, o) ∷ [])) }
    {
        let value = one.value();
        let guide = BeforeEquals { order, value };
        let place = place_of(&self.row, self.root, &guide, &mut Uncounted);
        let next = spot_unless_null(place.next);
        match self.equal_at(next, order, value) {
            Some(at) => Some(self.replace(at, one)),
            None => {
                let at = one.at;
                let root = put_in(&mut self.row, self.root, place, one);
                self.root = root;
                let new_first = chosen(place.is_first, at, self.first);
                self.first = new_first;
                self.len += 1;
                None
            }
        }
    }

    /// Returns a spot, if there is one and the value there is equal to another by an order.
    fn equal_at<O: Order<T>>(&self, next: Option<Spot>, order: &O, value: &T) -> Option<Spot>
        requires order { O.can_compare order.now }
        requires there { IfSome next (λ p. HasSpot self.now p) }
        ensures { MatchOption result
            ((p : Ptr) → next ≡ Some p → AnswersAt (O.compares_by order.now) value.now self.now p false)
            (λ p. (next ≡ Some p) × AnswersAt (O.compares_by order.now) value.now self.now p true) }
    {
        let Some(at) = next else {
            return None;
        };
        // for the proof: the spot has one value
        self.spots_are_distinct();
        let is_equal = order.compare(value, self.get(at)).is_eq();
        if is_equal { Some(at) } else { None }
    }

    /// Takes the node at `at` out.
    pub(crate) fn take(&mut self, at: Spot) -> Alone<T>
        requires { HasSpot self.old at }
        ensures at { result.at.ptr ≡ at }
        ensures fits { length self.new < usize.MAX }
        ensures taken { (e : Element T) × IsTaken self.old at e self.new
            × (nodes_of result.row.boxes.blocks ≡ (at, e) ∷ []) }
    {
        let len = self.len;
        let address = address_of(at);
        let first = first_without(&self.row, self.root, self.first, address);
        let Departed { one, root } = removed(&mut self.row, self.root, address);
        self.root = root;
        self.first = first;
        self.len = len - 1;
        Alone {
            at: address,
            row: one,
        }
    }

    /// Puts a node into the place of that at `at`, which leaves.
    pub(crate) fn replace(&mut self, at: Spot, one: Alone<T>) -> Alone<T>
        requires there { HasSpot self.old at }
        requires alone { (e : Element T) × (nodes_of one.row.boxes.blocks ≡ (one.at.ptr, e) ∷ []) }
        ensures at { result.at.ptr ≡ at }
        ensures replaced { (e : Element T) → nodes_of one.row.boxes.blocks ≡ (one.at.ptr, e) ∷ []
            → (o : Element T) × IsReplaced self.old at o one.at.ptr e self.new
            × (nodes_of result.row.boxes.blocks ≡ (at, o) ∷ []) }
    {
        let address = address_of(at);
        let Alone { at: next, row } = one;
        let is_first = is_first(&self.row, self.root, address);
        let Departed { one: old, root } = replaced(&mut self.row, self.root, address, row, next);
        self.root = root;
        self.first = chosen(is_first, next, self.first);
        Alone {
            at: address,
            row: old,
        }
    }

    /// Takes the first node out. Requires that there is one.
    pub(crate) fn take_first(&mut self) -> Alone<T>
        requires { 0 < length self.old }
        ensures { (e : Element T) × (self.old ≡ (result.at.ptr, e) ∷ self.new)
            × (nodes_of result.row.boxes.blocks ≡ (result.at.ptr, e) ∷ []) }
    {
        let len = self.len;
        let at = self.first;
        let first = neighbour(&self.row, self.root, at, true);
        let Departed { one, root } = removed(&mut self.row, self.root, at);
        self.root = root;
        self.first = first;
        self.len = len - 1;
        Alone { at, row: one }
    }

    /// Returns the number of nodes.
    pub(crate) fn len(&self) -> usize
        ensures { result ≡ length self.now }
    {
        self.len
    }

    /// Does nothing when the program runs. Its contract states that no two nodes are at one spot.
    pub(crate) fn spots_are_distinct(&self)
        ensures { AreDistinct (spots self.now) }
    {
        let _len = self.len;
    }

    /// Returns the height: the greatest number of nodes from the root down.
    pub(crate) fn height(&self) -> u8
        ensures nodes { least result ≤ length self.now }
        ensures log { IsAtMostLog result (length self.now) }
    {
        height_of(&self.row, self.root)
    }

    /// Returns a reference to the value at `at`.
    pub(crate) fn get(&self, at: Spot) -> &T
        requires { HasSpot self.now at }
        ensures { HoldsAt self.now at result.now }
    {
        let at = address_of(at);
        &self.row.boxes.from_address(at).get(at, 0).value
    }

    /// Returns a mutable reference to the value at `at`. The node keeps its number, its spot and its place.
    pub(crate) fn get_mut(&mut self, at: Spot) -> &mut T
        requires { HasSpot self.old at }
        ensures* writes_back { sem 𝓛 (LendsAt T.row self.entry at result) }
        ensures value { slice_get (values (elements self.old)) (index_of at (spots self.old)) ≡ Some result.now }
    {
        let at = address_of(at);
        let block = self.row.boxes.at_mut(at);
        &mut block.value
    }

    /// Returns the spot of the first node, or `None` if there is none.
    pub(crate) fn first(&self) -> Option<Spot>
        ensures { MatchOption result (self.now ≡ []) (λ p. IsFirst self.now p) }
    {
        spot_unless_null(self.first)
    }

    /// Returns the spot of the last node, or `None` if there is none.
    pub(crate) fn last(&self) -> Option<Spot>
        ensures { MatchOption result (self.now ≡ []) (λ p. IsLast self.now p) }
    {
        if self.len == 0 {
            return None;
        }
        Some(spot_at(outermost(&self.row, self.root, true)))
    }

    /// Returns the spot after `at`, or `None` if the last node is at `at`.
    pub(crate) fn next(&self, at: Spot) -> Option<Spot>
        requires { HasSpot self.now at }
        ensures { MatchOption result (IsLast self.now at) (λ p. AreNext self.now at p) }
    {
        spot_unless_null(neighbour(&self.row, self.root, address_of(at), true))
    }

    /// Returns the spot before `at`, or `None` if the first node is at `at`.
    pub(crate) fn prev(&self, at: Spot) -> Option<Spot>
        requires { HasSpot self.now at }
        ensures { MatchOption result (IsFirst self.now at) (λ p. AreNext self.now p at) }
    {
        spot_unless_null(neighbour(&self.row, self.root, address_of(at), false))
    }

    /// Returns the spot of the first node behind the place to which a guide leads, or `None` if there is none.
    pub(crate) fn bound<G: Guide<T>>(&self, guide: &G) -> Option<Spot>
        requires { G.can_ask guide.now }
        ensures { IsBoundWhere (G.says guide.now) self.now result }
    {
        spot_unless_null(place_of(&self.row, self.root, guide, &mut Uncounted).next)
    }

    /// Ends a tree that has no node.
    fn finish(self)
        requires { length self ≡ 0 }
    {
        let Rooted {
            root: _,
            first: _,
            len: _,
            row,
        } = self;
        let Row { boxes } = row;
        boxes.discard();
    }
}

/// Frees each node.
impl<T: Drop> Drop for Rooted<T> {
    fn drop(mut self) {
        while self.len() > 0 {
            drop(self.take_first().into_node());
        }
        self.finish();
    }
}
