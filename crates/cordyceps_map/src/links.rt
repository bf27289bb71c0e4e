//! The lists that a map's nodes are in: nodes are linked and unlinked in them, and found by their neighbours.
ghost use Rattle.std.specs.Prelude.{◌≡◌, ℕ, ◌<◌, [], ◌∷◌, ◌++◌, length, true, false, MatchOption, IfSome};
ghost use denote.RawPtr.{Ptr};
ghost use Rattle.cordyceps_base.specs.BySpot.{HasSpot};
ghost use Rattle.cordyceps_many.specs.MultiList.{list_at, IsFirstOf, IsLastOf, AreNextIn};
ghost use Rattle.cordyceps_many.specs.Threads.{is_in, without, with_before, with_after};
ghost use Rattle.cordyceps_map.specs.StableMap.{OthersStay};

use crate::stable_map::StableMap;
use cordyceps_many::hooks::Hooks;
use cordyceps_stable::stable_list::Spot;
use std::hash::{BuildHasher, Hash};

impl<K: Eq + Hash, V, H: Hooks, S: BuildHasher> StableMap<K, V, H, S> {
    /// Returns `true` if the node at `at` is in list `i`. Requires that `at` is valid.
    ///
    /// # Complexity
    /// O(1).
    pub fn is_linked(&self, i: usize, at: Spot) -> bool
        requires within { i < H.count }
        requires there { HasSpot self.now.nodes at }
        ensures { result ≡ is_in at (list_at i self.now.lists) }
    {
        self.nodes.is_linked(i, at)
    }

    /// Returns the spot of the first node of list `i`, or `None` if the list is empty.
    ///
    /// # Complexity
    /// O(1).
    pub fn front(&self, i: usize) -> Option<Spot>
        requires within { i < H.count }
        ensures first { MatchOption result (list_at i self.now.lists ≡ [])
            (λ p. IsFirstOf (list_at i self.now.lists) p) }
        ensures there { IfSome result (λ p. HasSpot self.now.nodes p) }
        ensures in_list { IfSome result (λ p. is_in p (list_at i self.now.lists) ≡ true) }
    {
        self.nodes.front(i)
    }

    /// Returns the spot of the last node of list `i`, or `None` if the list is empty.
    ///
    /// # Complexity
    /// O(1).
    pub fn back(&self, i: usize) -> Option<Spot>
        requires within { i < H.count }
        ensures last { MatchOption result (list_at i self.now.lists ≡ []) (λ p. IsLastOf (list_at i self.now.lists) p) }
        ensures there { IfSome result (λ p. HasSpot self.now.nodes p) }
        ensures in_list { IfSome result (λ p. is_in p (list_at i self.now.lists) ≡ true) }
    {
        self.nodes.back(i)
    }

    /// Returns the spot after `at` in list `i`, or `None` if the last node of that is at `at`. Requires that the node
    /// at `at` is in list `i`.
    ///
    /// # Complexity
    /// O(1).
    pub fn next(&self, i: usize, at: Spot) -> Option<Spot>
        requires within { i < H.count }
        requires in_list { is_in at (list_at i self.now.lists) ≡ true }
        ensures step { MatchOption result (IsLastOf (list_at i self.now.lists) at)
            (λ p. AreNextIn (list_at i self.now.lists) at p) }
        ensures there { IfSome result (λ p. HasSpot self.now.nodes p) }
        ensures in_list { IfSome result (λ p. is_in p (list_at i self.now.lists) ≡ true) }
    {
        self.nodes.next(i, at)
    }

    /// Returns the spot before `at` in list `i`, or `None` if the first node of that is at `at`. Requires that the node
    /// at `at` is in list `i`.
    ///
    /// # Complexity
    /// O(1).
    pub fn prev(&self, i: usize, at: Spot) -> Option<Spot>
        requires within { i < H.count }
        requires in_list { is_in at (list_at i self.now.lists) ≡ true }
        ensures step { MatchOption result (IsFirstOf (list_at i self.now.lists) at)
            (λ p. AreNextIn (list_at i self.now.lists) p at) }
        ensures there { IfSome result (λ p. HasSpot self.now.nodes p) }
        ensures in_list { IfSome result (λ p. is_in p (list_at i self.now.lists) ≡ true) }
    {
        self.nodes.prev(i, at)
    }

    /// Links the node at `at` at the back of list `i`. Requires that `at` is valid, and that the node is not in the
    /// list.
    ///
    /// # Complexity
    /// O(1).
    pub fn link_back(&mut self, i: usize, at: Spot)
        requires within { i < H.count }
        requires there { HasSpot self.old.nodes at }
        requires not_in { is_in at (list_at i self.old.lists) ≡ false }
        ensures nodes { self.new.nodes ≡ self.old.nodes }
        ensures list { list_at i self.new.lists ≡ list_at i self.old.lists ++ at ∷ [] }
        ensures others { OthersStay i self.old self.new }
        ensures in_list { is_in at (list_at i self.new.lists) ≡ true }
        ensures kept { (p : Ptr) → HasSpot self.old.nodes p → HasSpot self.new.nodes p }
    {
        self.nodes.link_back(i, at);
    }

    /// Links the node at `at` at the front of list `i`. Requires that `at` is valid, and that the node is not in the
    /// list.
    ///
    /// # Complexity
    /// O(1).
    pub fn link_front(&mut self, i: usize, at: Spot)
        requires within { i < H.count }
        requires there { HasSpot self.old.nodes at }
        requires not_in { is_in at (list_at i self.old.lists) ≡ false }
        ensures nodes { self.new.nodes ≡ self.old.nodes }
        ensures list { list_at i self.new.lists ≡ at ∷ list_at i self.old.lists }
        ensures others { OthersStay i self.old self.new }
        ensures in_list { is_in at (list_at i self.new.lists) ≡ true }
        ensures kept { (p : Ptr) → HasSpot self.old.nodes p → HasSpot self.new.nodes p }
    {
        self.nodes.link_front(i, at);
    }

    /// Links the node at `at` before the one at `other` in list `i`. Requires that `at` is valid, and that the list has
    /// the node at `other` and not that at `at`.
    ///
    /// # Complexity
    /// O(1).
    pub fn link_before(&mut self, i: usize, at: Spot, other: Spot)
        requires within { i < H.count }
        requires there { HasSpot self.old.nodes at }
        requires not_in { is_in at (list_at i self.old.lists) ≡ false }
        requires in_list { is_in other (list_at i self.old.lists) ≡ true }
        ensures nodes { self.new.nodes ≡ self.old.nodes }
        ensures list { list_at i self.new.lists ≡ with_before other at (list_at i self.old.lists) }
        ensures others { OthersStay i self.old self.new }
        ensures in_list { is_in at (list_at i self.new.lists) ≡ true }
        ensures kept { (p : Ptr) → HasSpot self.old.nodes p → HasSpot self.new.nodes p }
    {
        self.nodes.link_before(i, at, other);
    }

    /// Links the node at `at` after the one at `other` in list `i`. Requires that `at` is valid, and that the list has
    /// the node at `other` and not that at `at`.
    ///
    /// # Complexity
    /// O(1).
    pub fn link_after(&mut self, i: usize, at: Spot, other: Spot)
        requires within { i < H.count }
        requires there { HasSpot self.old.nodes at }
        requires not_in { is_in at (list_at i self.old.lists) ≡ false }
        requires in_list { is_in other (list_at i self.old.lists) ≡ true }
        ensures nodes { self.new.nodes ≡ self.old.nodes }
        ensures list { list_at i self.new.lists ≡ with_after other at (list_at i self.old.lists) }
        ensures others { OthersStay i self.old self.new }
        ensures in_list { is_in at (list_at i self.new.lists) ≡ true }
        ensures kept { (p : Ptr) → HasSpot self.old.nodes p → HasSpot self.new.nodes p }
    {
        self.nodes.link_after(i, at, other);
    }

    /// Takes the node at `at` out of list `i`, which is not list 0. Requires that it is in list `i`.
    ///
    /// # Complexity
    /// O(1).
    pub fn unlink(&mut self, i: usize, at: Spot)
        requires not_all { 0 < i }
        requires within { i < H.count }
        requires in_list { is_in at (list_at i self.old.lists) ≡ true }
        ensures nodes { self.new.nodes ≡ self.old.nodes }
        ensures list { list_at i self.new.lists ≡ without at (list_at i self.old.lists) }
        ensures others { OthersStay i self.old self.new }
        ensures out { is_in at (list_at i self.new.lists) ≡ false }
        ensures there { HasSpot self.new.nodes at }
        ensures kept { (p : Ptr) → HasSpot self.old.nodes p → HasSpot self.new.nodes p }
    {
        self.nodes.unlink(i, at);
    }

    /// Takes the node at `at` out of list `i`, which is not list 0, if it is in that. Requires that `at` is valid.
    ///
    /// # Complexity
    /// O(1).
    pub fn ensure_unlinked(&mut self, i: usize, at: Spot)
        requires not_all { 0 < i }
        requires within { i < H.count }
        requires there { HasSpot self.old.nodes at }
        ensures nodes { self.new.nodes ≡ self.old.nodes }
        ensures list { list_at i self.new.lists ≡ without at (list_at i self.old.lists) }
        ensures others { OthersStay i self.old self.new }
        ensures out { is_in at (list_at i self.new.lists) ≡ false }
        ensures kept { (p : Ptr) → HasSpot self.old.nodes p → HasSpot self.new.nodes p }
    {
        self.nodes.ensure_unlinked(i, at);
    }

    /// Takes the node at `at` out of all lists but list 0. Requires that `at` is valid.
    ///
    /// # Complexity
    /// O(H).
    pub fn unlink_others(&mut self, at: Spot)
        requires { HasSpot self.old.nodes at }
        ensures nodes { self.new.nodes ≡ self.old.nodes }
        ensures all { list_at 0 self.new.lists ≡ list_at 0 self.old.lists }
        ensures others { (j : ℕ) → 0 < j → j < H.count
            → list_at j self.new.lists ≡ without at (list_at j self.old.lists) }
        ensures buckets { self.new.buckets ≡ self.old.buckets }
        ensures out { (j : ℕ) → 0 < j → j < H.count → is_in at (list_at j self.new.lists) ≡ false }
        ensures kept { (p : Ptr) → HasSpot self.old.nodes p → HasSpot self.new.nodes p }
    {
        self.nodes.unlink_others(at);
    }

    /// Moves the node at `at` to the back of list `i`. The others keep their order. Requires that the node is in the
    /// list.
    ///
    /// # Complexity
    /// O(1).
    pub fn move_to_back(&mut self, i: usize, at: Spot)
        requires within { i < H.count }
        requires in_list { is_in at (list_at i self.old.lists) ≡ true }
        ensures nodes { self.new.nodes ≡ self.old.nodes }
        ensures list { list_at i self.new.lists ≡ without at (list_at i self.old.lists) ++ at ∷ [] }
        ensures others { OthersStay i self.old self.new }
        ensures in_list { is_in at (list_at i self.new.lists) ≡ true }
        ensures kept { (p : Ptr) → HasSpot self.old.nodes p → HasSpot self.new.nodes p }
    {
        self.nodes.move_to_back(i, at);
    }

    /// Moves the node at `at` to the front of list `i`. The others keep their order. Requires that the node is in the
    /// list.
    ///
    /// # Complexity
    /// O(1).
    pub fn move_to_front(&mut self, i: usize, at: Spot)
        requires within { i < H.count }
        requires in_list { is_in at (list_at i self.old.lists) ≡ true }
        ensures nodes { self.new.nodes ≡ self.old.nodes }
        ensures list { list_at i self.new.lists ≡ at ∷ without at (list_at i self.old.lists) }
        ensures others { OthersStay i self.old self.new }
        ensures in_list { is_in at (list_at i self.new.lists) ≡ true }
        ensures kept { (p : Ptr) → HasSpot self.old.nodes p → HasSpot self.new.nodes p }
    {
        self.nodes.move_to_front(i, at);
    }

    /// Takes the first node of list `i`, which is not list 0, out of that, and returns its spot, or `None` if the list
    /// is empty. The node stays in its other lists.
    ///
    /// # Complexity
    /// O(1).
    pub fn unlink_front(&mut self, i: usize) -> Option<Spot>
        requires not_all { 0 < i }
        requires within { i < H.count }
        ensures nodes { self.new.nodes ≡ self.old.nodes }
        ensures popped { MatchOption result ((list_at i self.old.lists ≡ []) × (list_at i self.new.lists ≡ []))
            (λ p. list_at i self.old.lists ≡ p ∷ list_at i self.new.lists) }
        ensures others { OthersStay i self.old self.new }
        ensures out { IfSome result (λ p. is_in p (list_at i self.new.lists) ≡ false) }
        ensures there { IfSome result (λ p. HasSpot self.new.nodes p) }
        ensures kept { (p : Ptr) → HasSpot self.old.nodes p → HasSpot self.new.nodes p }
    {
        self.nodes.unlink_front(i)
    }
}
