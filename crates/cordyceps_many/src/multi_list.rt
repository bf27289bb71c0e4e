//! Lists that share their nodes: a node is in list 0, and at the same time in any of the others.
//!
//! A node of three lists is one block of memory. It has its neighbours in each list, and for each list but list 0 a
//! mark of one byte, which is set while that list has the node. The word behind the value says whose memory the block
//! is.
//!
//! ```text
//!     list 0        list 1        list 2      1   2
//! +------+------+------+------+------+------+---+---+----+-------+------+
//! | next | prev | next | prev | next | prev | m | m | id | value | word |
//! +------+------+------+------+------+------+---+---+----+-------+------+
//! ```
//!
//! The collection is a row of such blocks, and the ends and the length of each list. A proof reads the row as a
//! function from spots to hooks, so a list is any sequence of spots that the hooks lead through, and a call changes the
//! function at few spots. Where a node comes to list 0, moves, or leaves, there is a moment at which the list does not
//! have it and its hook is not cleared: `IsOpen` says what holds then.
//!
//! List 0 takes the place of a table of all nodes, so no node has links more than its lists need, and it needs no mark.
//! The links cannot say whether another list has a node, since both are null in a list of one node, and a proof allows
//! no comparison of the addresses of two blocks. A mark beside each pair of links would make a hook 24 bytes for 17,
//! and a write of a hook would store the bytes between the mark and the next pair too.
//!
//! There is no cursor: a spot is `Copy` and stays valid while its node is there, so `next`, `prev`, `link_before` and
//! `link_after` do at any place what a cursor does at its own. Nodes have one handle, `MultiNode`: a type with a handle
//! of its own wraps that. A call names its list by an index, and its contract says that the other lists are unchanged.
//! A type for each list would state the same, but a loop over the lists, as in `remove`, would need a function for
//! each.
//!
//! Structs with several hooks are common in C, as with Linux's `list_head`, and in C++ with Boost.Intrusive.
ghost use Rattle.std.specs.Prelude.{◌≡◌, ◌≢◌, ℕ, ◌+◌, ◌<◌, ◌==◌, List, [], ◌∷◌, ◌++◌, length, true, false};
ghost use Rattle.std.specs.Prelude.{MatchOption, IfSome, slice_get, Some};
ghost use Rattle.std.specs.Borrow.{sem};
ghost use denote.RawPtr.{Ptr, null_ptr, InBlock, Testable};
ghost use Rattle.cordyceps_base.specs.BySpot.{HasSpot, HoldsAt, IsTaken};
ghost use Rattle.cordyceps_base.specs.Element.{values};
ghost use Rattle.cordyceps_base.specs.Nodes.{elements, spots, with_item};
ghost use Rattle.cordyceps_base.specs.Spots.{index_of, AreDistinct, AreNullComparable};
ghost use Rattle.cordyceps_many.specs.MultiList.{list_at, SameBut, IsFirstOf, IsLastOf, AreNextIn, HasNumber};
ghost use Rattle.cordyceps_many.specs.MultiList.{FirstTaken};
ghost use Rattle.cordyceps_many.specs.Threads.{is_in, without, with_before, with_after};

use crate::block::Row;
use crate::hook::Ends;
use crate::hooks::{EndsRow, Hooks};
use crate::links::{cut_open, cut_out, put_after, put_before, put_first, put_last};
use crate::node::MultiNode;
use crate::rows::{hook_of, joined, taken};
use cordyceps_base::boxes::{Address, Boxes};
use cordyceps_stable::addresses::{address_of, spot_at};
use cordyceps_stable::stable_list::Spot;
use std::marker::Model;
use std::mem;

/// Lists of owned nodes, as many as `H` says, which share their nodes. A contract sees the nodes, each with its spot,
/// in the order in which they came, and of each list the spots of its nodes, in order.
///
/// List 0 has all nodes. Each of the others has any of them, in an order of its own. A node stays where it is in
/// memory, and keeps its spot as long as it is in list 0. Linking allocates nothing and cannot be refused. At `One` to
/// `Four` it can be sent to a thread, and shared by threads, if `T` can.
///
/// # Complexity
/// Dropping the lists frees each node once: O(n H), for n nodes.
///
/// # Examples
/// From `tour::start_job` of `cordyceps_uses`:
/// ```
/// // List 0 has every job.
/// let spot = jobs.insert(job);
/// // The same node is also in list 1.
/// jobs.link_back(1, spot);
/// ```
pub struct MultiList<T, H: Hooks> {
    ends: EndsRow<H>,
    row: Row<T, H>,
}

impl<T, H: Hooks> Model for MultiList<T, H> {
    ghost use Rattle.cordyceps_many.specs.Rows.{nodes_of};
    ghost use Rattle.cordyceps_many.specs.MultiList.{Multi, lists_in, IsMulti};

    ghost Value = { Multi T };

    ghost view = { λ m. record { nodes = nodes_of m.row.boxes.blocks; lists = lists_in m.row.boxes.blocks 0 m.ends } };

    ghost invariant = { λ m. IsMulti H.count m.ends m.row.boxes.blocks };
}

impl<T: Drop, H: Hooks> Default for MultiList<T, H> {
    ghost is_default = { λ l. (l.nodes ≡ []) × ((i : ℕ) → list_at i l.lists ≡ []) };

    /// Creates empty lists, as `new` does.
    ///
    /// # Complexity
    /// O(1).
    fn default() -> MultiList<T, H> {
        MultiList::new()
    }
}

/// Frees each node.
impl<T: Drop, H: Hooks> Drop for MultiList<T, H> {
    fn drop(mut self) {
        while self.len(0) > 0 {
            drop(self.remove_first());
        }
        self.finish();
    }
}

/// Returns the spot of an address, unless it is null.
fn spot_unless_null(address: Address) -> Option<Spot>
    requires { Testable address.ptr }
    ensures { MatchOption result (address.ptr ≡ null_ptr) (λ p. InBlock p × (p ≡ address.ptr)) }
{
    if address.is_not_null() {
        Some(spot_at(address))
    } else {
        None
    }
}

impl<T: Drop, H: Hooks> MultiList<T, H> {
    /// Creates empty lists. Allocates nothing.
    ///
    /// # Complexity
    /// O(1).
    pub fn new() -> MultiList<T, H>
        ensures nodes { result.nodes ≡ [] }
        ensures lists { (i : ℕ) → list_at i result.lists ≡ [] }
    {
        MultiList {
            ends: EndsRow::none(),
            row: Row {
                boxes: Boxes::empty(),
            },
        }
    }

    /// Adds a node at the back of list 0, and returns its spot. It is in no other list. Requires that list 0 has less
    /// than `usize::MAX` nodes.
    ///
    /// # Complexity
    /// O(1).
    pub fn insert(&mut self, node: MultiNode<T, H>) -> Spot
        requires fits { length (list_at 0 self.old.lists) < usize.MAX }
        ensures nodes { self.new.nodes ≡ self.old.nodes ++ (result, node) ∷ [] }
        ensures list { list_at 0 self.new.lists ≡ list_at 0 self.old.lists ++ result ∷ [] }
        ensures others { SameBut 0 self.old.lists self.new.lists }
        ensures there { HasSpot self.new.nodes result }
        ensures kept { (p : Ptr) → HasSpot self.old.nodes p → HasSpot self.new.nodes p }
        ensures apart { HasSpot self.old.nodes result → ⊥ }
        ensures not_in { (j : ℕ) → 0 < j → is_in result (list_at j self.new.lists) ≡ false }
    {
        let ends = self.ends.at(0);
        let at = joined(&mut self.row, node);
        let ends = put_last(&mut self.row, 0, at, ends);
        self.ends.set(0, ends);
        at
    }

    /// Removes the node at `at` from every list, and returns it. Requires that `at` is valid.
    ///
    /// # Complexity
    /// O(H).
    pub fn remove(&mut self, at: Spot) -> MultiNode<T, H>
        requires { HasSpot self.old.nodes at }
        ensures taken { IsTaken self.old.nodes at result self.new.nodes }
        ensures lists { (j : ℕ) → j < H.count → list_at j self.new.lists ≡ without at (list_at j self.old.lists) }
        ensures kept { (p : Ptr) → HasSpot self.old.nodes p → p ≢ at → HasSpot self.new.nodes p }
    {
        self.unlink_others(at);
        self.take_out(at)
    }

    /// Removes the first node of list `i` from every list, and returns it, or `None` if list `i` is empty.
    ///
    /// # Complexity
    /// O(H).
    pub fn pop_front(&mut self, i: usize) -> Option<MultiNode<T, H>>
        requires within { i < H.count }
        ensures taken { MatchOption result ((list_at i self.old.lists ≡ []) × (self.new ≡ self.old))
            (λ n. FirstTaken H.count i self.old n self.new) }
        ensures kept { (p : Ptr) → HasSpot self.old.nodes p → (IsFirstOf (list_at i self.old.lists) p → ⊥)
            → HasSpot self.new.nodes p }
    {
        match self.front(i) {
            Some(at) => Some(self.remove(at)),
            None => None,
        }
    }

    /// Removes all nodes and drops them.
    ///
    /// # Complexity
    /// O(n H), for n nodes.
    pub fn clear(&mut self)
        ensures nodes { self.new.nodes ≡ [] }
        ensures lists { (i : ℕ) → list_at i self.new.lists ≡ [] }
    {
        drop(mem::replace(self, MultiList::new()));
    }

    /// Removes the first node of list 0.
    fn remove_first(&mut self) -> MultiNode<T, H>
        requires { 0 < length (list_at 0 self.old.lists) }
        ensures { length (list_at 0 self.new.lists) + 1 ≡ length (list_at 0 self.old.lists) }
    {
        let at = spot_at(self.ends.at(0).first);
        self.remove(at)
    }

    /// Takes the node at `at`, which is in list 0 alone, out of that, and returns it.
    fn take_out(&mut self, at: Spot) -> MultiNode<T, H>
        requires there { HasSpot self.old.nodes at }
        requires alone { (j : ℕ) → 0 < j → j < H.count → is_in at (list_at j self.old.lists) ≡ false }
        ensures nodes { IsTaken self.old.nodes at result self.new.nodes }
        ensures all { list_at 0 self.new.lists ≡ without at (list_at 0 self.old.lists) }
        ensures others { SameBut 0 self.old.lists self.new.lists }
    {
        let ends = self.ends.at(0);
        let ends = cut_open(&mut self.row, 0, at, ends);
        self.ends.set(0, ends);
        taken(&mut self.row, at)
    }

    /// Ends lists of which the first has no node.
    fn finish(self)
        requires { length (list_at 0 self.lists) ≡ 0 }
    {
        let MultiList { ends: _, row } = self;
        let Row { boxes } = row;
        boxes.discard();
    }
}

impl<T, H: Hooks> MultiList<T, H> {
    ghost use Rattle.cordyceps_many.specs.MultiLends.{LendsAt, with_value_at};

    /// Does nothing when the program runs. Its contract states that no two nodes are at one spot, and that no spot is
    /// null, that each list has a spot only once, and only spots of nodes, and that list 0 has all of these.
    ///
    /// # Complexity
    /// O(1).
    pub fn lists_agree(&self)
        ensures distinct { AreDistinct (spots self.now.nodes) }
        ensures comparable { AreNullComparable (spots self.now.nodes) }
        ensures once { (i : ℕ) → AreDistinct (list_at i self.now.lists) }
        ensures inside { (i : ℕ) (p : Ptr) → is_in p (list_at i self.now.lists) ≡ true → HasSpot self.now.nodes p }
        ensures all { (p : Ptr) → HasSpot self.now.nodes p → is_in p (list_at 0 self.now.lists) ≡ true }
    {
        let _ends = &self.ends;
    }

    /// Returns the number of nodes of list `i`.
    ///
    /// # Complexity
    /// O(1).
    pub fn len(&self, i: usize) -> usize
        requires within { i < H.count }
        ensures { result ≡ length (list_at i self.now.lists) }
    {
        self.ends.at(i).len
    }

    /// Returns `true` if list `i` has no node.
    ///
    /// # Complexity
    /// O(1).
    pub fn is_empty(&self, i: usize) -> bool
        requires within { i < H.count }
        ensures { result ≡ (length (list_at i self.now.lists) == 0) }
    {
        self.len(i) == 0
    }

    /// Returns a reference to the value at `at`. Requires that `at` is valid.
    ///
    /// # Complexity
    /// O(1).
    pub fn get(&self, at: Spot) -> &T
        requires { HasSpot self.now.nodes at }
        ensures { HoldsAt self.now.nodes at result.now }
    {
        let at = address_of(at);
        &self.row.boxes.from_address(at).get(at, 0).value
    }

    /// Returns a mutable reference to the value at `at`. The node keeps its number, its spot and its places. Requires
    /// that `at` is valid.
    ///
    /// # Complexity
    /// O(1).
    pub fn get_mut(&mut self, at: Spot) -> &mut T
        requires { HasSpot self.old.nodes at }
        ensures* writes_back { sem 𝓛 (LendsAt T.row H.row H.HookArray.row H.EndsArray.row H.Rows self.entry at result) }
        ensures value { slice_get (values (elements self.old.nodes)) (index_of at (spots self.old.nodes))
            ≡ Some result.now }
        ensures kept { (written : T) (p : Ptr) → HasSpot self.old.nodes p
            → HasSpot (with_value_at self.old at written).nodes p }
    {
        let at = address_of(at);
        let block = self.row.boxes.at_mut(at);
        &mut block.value
    }

    /// Returns the number of the node at `at`. Requires that `at` is valid.
    ///
    /// # Complexity
    /// O(1).
    pub fn id(&self, at: Spot) -> u64
        requires { HasSpot self.now.nodes at }
        ensures { HasNumber self.now.nodes at result }
    {
        let at = address_of(at);
        self.row.boxes.from_address(at).get(at, 0).id
    }

    /// Returns `true` if the node at `at` is in list `i`. Requires that `at` is valid.
    ///
    /// # Complexity
    /// O(1).
    pub fn is_linked(&self, i: usize, at: Spot) -> bool
        requires within { i < H.count }
        requires there { HasSpot self.now.nodes at }
        ensures { result ≡ is_in at (list_at i self.now.lists) }
    {
        hook_of(&self.row, i, address_of(at)).linked
    }

    /// Returns the spot of the first node of list `i`, or `None` if the list is empty.
    ///
    /// # Complexity
    /// O(1).
    pub fn front(&self, i: usize) -> Option<Spot>
        requires within { i < H.count }
        ensures first { MatchOption result (list_at i self.now.lists ≡ [])
            (λ p. IsFirstOf (list_at i self.now.lists) p) }
        ensures there { IfSome result (λ p. HasSpot self.now.nodes p) }
        ensures in_list { IfSome result (λ p. is_in p (list_at i self.now.lists) ≡ true) }
    {
        let Ends { first, len, .. } = self.ends.at(i);
        if len == 0 { None } else { Some(spot_at(first)) }
    }

    /// Returns the spot of the last node of list `i`, or `None` if the list is empty.
    ///
    /// # Complexity
    /// O(1).
    pub fn back(&self, i: usize) -> Option<Spot>
        requires within { i < H.count }
        ensures last { MatchOption result (list_at i self.now.lists ≡ []) (λ p. IsLastOf (list_at i self.now.lists) p) }
        ensures there { IfSome result (λ p. HasSpot self.now.nodes p) }
        ensures in_list { IfSome result (λ p. is_in p (list_at i self.now.lists) ≡ true) }
    {
        let Ends { last, len, .. } = self.ends.at(i);
        if len == 0 { None } else { Some(spot_at(last)) }
    }

    /// Returns the spot after `at` in list `i`, or `None` if the last node of that is at `at`. Requires that the node
    /// at `at` is in list `i`.
    ///
    /// # Complexity
    /// O(1).
    pub fn next(&self, i: usize, at: Spot) -> Option<Spot>
        requires within { i < H.count }
        requires in_list { is_in at (list_at i self.now.lists) ≡ true }
        ensures step { MatchOption result (IsLastOf (list_at i self.now.lists) at)
            (λ p. AreNextIn (list_at i self.now.lists) at p) }
        ensures there { IfSome result (λ p. HasSpot self.now.nodes p) }
        ensures in_list { IfSome result (λ p. is_in p (list_at i self.now.lists) ≡ true) }
    {
        spot_unless_null(hook_of(&self.row, i, address_of(at)).next)
    }

    /// Returns the spot before `at` in list `i`, or `None` if the first node of that is at `at`. Requires that the node
    /// at `at` is in list `i`.
    ///
    /// # Complexity
    /// O(1).
    pub fn prev(&self, i: usize, at: Spot) -> Option<Spot>
        requires within { i < H.count }
        requires in_list { is_in at (list_at i self.now.lists) ≡ true }
        ensures step { MatchOption result (IsFirstOf (list_at i self.now.lists) at)
            (λ p. AreNextIn (list_at i self.now.lists) p at) }
        ensures there { IfSome result (λ p. HasSpot self.now.nodes p) }
        ensures in_list { IfSome result (λ p. is_in p (list_at i self.now.lists) ≡ true) }
    {
        spot_unless_null(hook_of(&self.row, i, address_of(at)).prev)
    }

    /// Does nothing when the program runs. Its contract states that a list which does not have a node is not full: it is
    /// shorter than list 0, whose length is a `usize`.
    fn has_room(&self, i: usize, at: Spot)
        requires within { i < H.count }
        requires there { HasSpot self.now.nodes at }
        requires not_in { is_in at (list_at i self.now.lists) ≡ false }
        ensures { length (list_at i self.now.lists) < usize.MAX }
    {
        self.lists_agree();
        let _len = self.len(0);
    }

    /// Links the node at `at` at the back of list `i`. Requires that `at` is valid, and that the node is not in the
    /// list.
    ///
    /// # Complexity
    /// O(1).
    pub fn link_back(&mut self, i: usize, at: Spot)
        requires within { i < H.count }
        requires there { HasSpot self.old.nodes at }
        requires not_in { is_in at (list_at i self.old.lists) ≡ false }
        ensures nodes { self.new.nodes ≡ self.old.nodes }
        ensures list { list_at i self.new.lists ≡ list_at i self.old.lists ++ at ∷ [] }
        ensures others { SameBut i self.old.lists self.new.lists }
        ensures in_list { is_in at (list_at i self.new.lists) ≡ true }
        ensures kept { (p : Ptr) → HasSpot self.old.nodes p → HasSpot self.new.nodes p }
    {
        self.has_room(i, at);
        let ends = self.ends.at(i);
        let ends = put_last(&mut self.row, i, at, ends);
        self.ends.set(i, ends);
    }

    /// Links the node at `at` at the front of list `i`. Requires that `at` is valid, and that the node is not in the
    /// list.
    ///
    /// # Complexity
    /// O(1).
    pub fn link_front(&mut self, i: usize, at: Spot)
        requires within { i < H.count }
        requires there { HasSpot self.old.nodes at }
        requires not_in { is_in at (list_at i self.old.lists) ≡ false }
        ensures nodes { self.new.nodes ≡ self.old.nodes }
        ensures list { list_at i self.new.lists ≡ at ∷ list_at i self.old.lists }
        ensures others { SameBut i self.old.lists self.new.lists }
        ensures in_list { is_in at (list_at i self.new.lists) ≡ true }
        ensures kept { (p : Ptr) → HasSpot self.old.nodes p → HasSpot self.new.nodes p }
    {
        self.has_room(i, at);
        let ends = self.ends.at(i);
        let ends = put_first(&mut self.row, i, at, ends);
        self.ends.set(i, ends);
    }

    /// Links the node at `at` before the one at `other` in list `i`. Requires that `at` is valid, and that the list has
    /// the node at `other` and not that at `at`.
    ///
    /// # Complexity
    /// O(1).
    pub fn link_before(&mut self, i: usize, at: Spot, other: Spot)
        requires within { i < H.count }
        requires there { HasSpot self.old.nodes at }
        requires not_in { is_in at (list_at i self.old.lists) ≡ false }
        requires in_list { is_in other (list_at i self.old.lists) ≡ true }
        ensures nodes { self.new.nodes ≡ self.old.nodes }
        ensures list { list_at i self.new.lists ≡ with_before other at (list_at i self.old.lists) }
        ensures others { SameBut i self.old.lists self.new.lists }
        ensures in_list { is_in at (list_at i self.new.lists) ≡ true }
        ensures kept { (p : Ptr) → HasSpot self.old.nodes p → HasSpot self.new.nodes p }
    {
        self.has_room(i, at);
        let ends = self.ends.at(i);
        let ends = put_before(&mut self.row, i, at, other, ends);
        self.ends.set(i, ends);
    }

    /// Links the node at `at` after the one at `other` in list `i`. Requires that `at` is valid, and that the list has
    /// the node at `other` and not that at `at`.
    ///
    /// # Complexity
    /// O(1).
    pub fn link_after(&mut self, i: usize, at: Spot, other: Spot)
        requires within { i < H.count }
        requires there { HasSpot self.old.nodes at }
        requires not_in { is_in at (list_at i self.old.lists) ≡ false }
        requires in_list { is_in other (list_at i self.old.lists) ≡ true }
        ensures nodes { self.new.nodes ≡ self.old.nodes }
        ensures list { list_at i self.new.lists ≡ with_after other at (list_at i self.old.lists) }
        ensures others { SameBut i self.old.lists self.new.lists }
        ensures in_list { is_in at (list_at i self.new.lists) ≡ true }
        ensures kept { (p : Ptr) → HasSpot self.old.nodes p → HasSpot self.new.nodes p }
    {
        self.has_room(i, at);
        let ends = self.ends.at(i);
        let ends = put_after(&mut self.row, i, at, other, ends);
        self.ends.set(i, ends);
    }

    /// Takes the node at `at` out of list `i`, which is not list 0. Requires that it is in list `i`.
    ///
    /// # Complexity
    /// O(1).
    pub fn unlink(&mut self, i: usize, at: Spot)
        requires not_all { 0 < i }
        requires within { i < H.count }
        requires in_list { is_in at (list_at i self.old.lists) ≡ true }
        ensures nodes { self.new.nodes ≡ self.old.nodes }
        ensures list { list_at i self.new.lists ≡ without at (list_at i self.old.lists) }
        ensures others { SameBut i self.old.lists self.new.lists }
        ensures out { is_in at (list_at i self.new.lists) ≡ false }
        ensures there { HasSpot self.new.nodes at }
        ensures kept { (p : Ptr) → HasSpot self.old.nodes p → HasSpot self.new.nodes p }
    {
        let ends = self.ends.at(i);
        let ends = cut_out(&mut self.row, i, at, ends);
        self.ends.set(i, ends);
    }

    /// Takes the node at `at` out of list `i`, which is not list 0, if it is in that. Requires that `at` is valid.
    ///
    /// # Complexity
    /// O(1).
    pub fn ensure_unlinked(&mut self, i: usize, at: Spot)
        requires not_all { 0 < i }
        requires within { i < H.count }
        requires there { HasSpot self.old.nodes at }
        ensures nodes { self.new.nodes ≡ self.old.nodes }
        ensures list { list_at i self.new.lists ≡ without at (list_at i self.old.lists) }
        ensures others { SameBut i self.old.lists self.new.lists }
        ensures out { is_in at (list_at i self.new.lists) ≡ false }
        ensures kept { (p : Ptr) → HasSpot self.old.nodes p → HasSpot self.new.nodes p }
    {
        if self.is_linked(i, at) {
            self.unlink(i, at);
        }
    }

    /// Takes the node at `at` out of all lists but list 0. Requires that `at` is valid.
    ///
    /// # Complexity
    /// O(H).
    pub fn unlink_others(&mut self, at: Spot)
        requires { HasSpot self.old.nodes at }
        ensures nodes { self.new.nodes ≡ self.old.nodes }
        ensures all { list_at 0 self.new.lists ≡ list_at 0 self.old.lists }
        ensures others { (j : ℕ) → 0 < j → j < H.count
            → list_at j self.new.lists ≡ without at (list_at j self.old.lists) }
        ensures out { (j : ℕ) → 0 < j → j < H.count → is_in at (list_at j self.new.lists) ≡ false }
        ensures kept { (p : Ptr) → HasSpot self.old.nodes p → HasSpot self.new.nodes p }
    {
        let count = H::count();
        let mut i = 1;
        while i < count {
            self.ensure_unlinked(i, at);
            i += 1;
        }
    }

    /// Moves the node at `at` to the back of list `i`. The others keep their order. Requires that the node is in the
    /// list.
    ///
    /// # Complexity
    /// O(1).
    pub fn move_to_back(&mut self, i: usize, at: Spot)
        requires within { i < H.count }
        requires in_list { is_in at (list_at i self.old.lists) ≡ true }
        ensures nodes { self.new.nodes ≡ self.old.nodes }
        ensures list { list_at i self.new.lists ≡ without at (list_at i self.old.lists) ++ at ∷ [] }
        ensures others { SameBut i self.old.lists self.new.lists }
        ensures in_list { is_in at (list_at i self.new.lists) ≡ true }
        ensures kept { (p : Ptr) → HasSpot self.old.nodes p → HasSpot self.new.nodes p }
    {
        let ends = self.ends.at(i);
        let rest = cut_open(&mut self.row, i, at, ends);
        let ends = put_last(&mut self.row, i, at, rest);
        self.ends.set(i, ends);
    }

    /// Moves the node at `at` to the front of list `i`. The others keep their order. Requires that the node is in the
    /// list.
    ///
    /// # Complexity
    /// O(1).
    pub fn move_to_front(&mut self, i: usize, at: Spot)
        requires within { i < H.count }
        requires in_list { is_in at (list_at i self.old.lists) ≡ true }
        ensures nodes { self.new.nodes ≡ self.old.nodes }
        ensures list { list_at i self.new.lists ≡ at ∷ without at (list_at i self.old.lists) }
        ensures others { SameBut i self.old.lists self.new.lists }
        ensures in_list { is_in at (list_at i self.new.lists) ≡ true }
        ensures kept { (p : Ptr) → HasSpot self.old.nodes p → HasSpot self.new.nodes p }
    {
        let ends = self.ends.at(i);
        let rest = cut_open(&mut self.row, i, at, ends);
        let ends = put_first(&mut self.row, i, at, rest);
        self.ends.set(i, ends);
    }

    /// Takes the first node of list `i`, which is not list 0, out of that, and returns its spot, or `None` if the list
    /// is empty. The node stays in its other lists.
    ///
    /// # Complexity
    /// O(1).
    pub fn unlink_front(&mut self, i: usize) -> Option<Spot>
        requires not_all { 0 < i }
        requires within { i < H.count }
        ensures nodes { self.new.nodes ≡ self.old.nodes }
        ensures popped { MatchOption result ((list_at i self.old.lists ≡ []) × (list_at i self.new.lists ≡ []))
            (λ p. list_at i self.old.lists ≡ p ∷ list_at i self.new.lists) }
        ensures others { SameBut i self.old.lists self.new.lists }
        ensures out { IfSome result (λ p. is_in p (list_at i self.new.lists) ≡ false) }
        ensures there { IfSome result (λ p. HasSpot self.new.nodes p) }
        ensures kept { (p : Ptr) → HasSpot self.old.nodes p → HasSpot self.new.nodes p }
    {
        let first = self.front(i);
        if let Some(at) = first {
            self.unlink(i, at);
        }
        first
    }
}
