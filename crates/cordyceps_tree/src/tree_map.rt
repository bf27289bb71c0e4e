//! A map from keys to nodes, in order of the keys.
//!
//! ```text
//!              12: b         keys with their values
//!            /       \
//!         5: x       40: a
//!            \
//!            7: c
//! ```
//!
//! It is a balanced tree of pairs (`rooted`), and no two pairs have equal keys. A search goes down once to the first
//! pair whose key is not less than the one that is looked for (`keyed`), and compares that key once more. `insert` does
//! so too: it exchanges the node of an equal key for the new one, in the same place of the tree, and else hangs the new
//! one in where the search ended.
//!
//! The names are those of std's `BTreeMap`. That has many pairs in a node, and moves them as it grows and shrinks: here
//! each pair has a node of its own, which stays where it is in memory, so an insertion cannot be refused. An insertion,
//! a removal and a search are O(log n) in the worst case.
ghost use Rattle.std.specs.Prelude.{◌≡◌, ◌≢◌, ◌<◌, ◌==◌, List, [], ◌∷◌, ◌++◌, length, true, false};
ghost use Rattle.std.specs.Prelude.{IfSome, MatchOption, option_copied, is_some, None, Some};
ghost use Rattle.std.specs.Borrow.{sem};
ghost use Rattle.std.specs.Ordering.{is_gt};
ghost use Rattle.cordyceps_tree.specs.Bounds.{IsBoundWhere};
ghost use Rattle.std.specs.Option.{option_copied_mut};
ghost use denote.RawPtr.{Ptr};
ghost use Rattle.cordyceps_base.specs.BySpot.{HasSpot, HoldsAt, IsTaken, IsFirst, IsLast};
ghost use Rattle.cordyceps_base.specs.Element.{Element};
ghost use Rattle.cordyceps_base.specs.Nodes.{Nodes, entries, spots};
ghost use Rattle.cordyceps_base.specs.Spots.{AreDistinct};
ghost use Rattle.cordyceps_tree.specs.Rows.{nodes_of};
ghost use Rattle.cordyceps_tree.specs.TreeMapLends.{LendsValueAt, LendsValueOf};
ghost use Rattle.cordyceps_tree.specs.TreeMaps.{pairs, is_key, value_of, with_value_of, Rises, between};
ghost use Rattle.cordyceps_tree.specs.TreeMaps.{IsFound, IsRemoved, IsInserted};

use crate::alone::Alone;
use crate::iter::Iter;
use crate::keyed::{BeforeKey, ByFirst};
use crate::map_range::Range;
use crate::node::TreeNode;
use crate::rooted::Rooted;
use crate::{iter, map_range};
use cordyceps_stable::addresses::spot_at;
use cordyceps_stable::stable_list::Spot;
use std::marker::Model;
use std::mem;

/// A map from keys to nodes, in order of the keys. A contract sees the nodes in this order, each with its spot, its key
/// and its value.
///
/// No two keys are equal. A node stays where it is in memory, and keeps its spot as long as it is in the map. Inserting
/// allocates nothing and cannot be refused.
///
/// # Complexity
/// Dropping the map frees each node once: O(n log n) at worst, for n nodes, without a comparison.
#[derive(Drop)]
pub struct TreeMap<K: Ord, V> {
    nodes: Rooted<(K, V)>,
}

impl<K: Ord, V> Model for TreeMap<K, V> {
    ghost use Rattle.cordyceps_base.specs.Nodes.{Nodes};
    ghost use Rattle.cordyceps_tree.specs.TreeMaps.{Rises};

    ghost Value = { Nodes (K × V) };

    ghost view = { λ m. m.nodes };

    ghost invariant = { λ m. Rises K.cmp m.nodes };
}

/// What `insert` returns: the spot of the node that was put in, and the node that had its key before.
#[derive(Drop)]
pub struct Inserted<K, V> {
    pub spot: Spot,
    pub replaced: Option<TreeNode<(K, V)>>,
}

impl<K: Ord + Drop, V: Drop> TreeMap<K, V> {
    /// Creates an empty map. Allocates nothing.
    ///
    /// # Complexity
    /// O(1).
    pub fn new() -> TreeMap<K, V>
        ensures { result ≡ [] }
    {
        TreeMap {
            nodes: Rooted::empty(),
        }
    }

    /// Puts a node in, whose value is a key with its value. If a node with an equal key is there, it leaves its place
    /// to the new one, and is returned. All other spots stay valid. Requires fewer than `usize::MAX` nodes.
    ///
    /// # Complexity
    /// O(log n), for n nodes: at most one comparison more than the tree is high.
    pub fn insert(&mut self, node: TreeNode<(K, V)>) -> Inserted<K, V>
        requires fits { length self.old < usize.MAX }
        ensures inserted { IsInserted K.cmp self.old node result.spot result.replaced self.new }
        ensures found { value_of K.cmp node.value.0 self.new ≡ Some node.value.1 }
        ensures there { HasSpot self.new result.spot }
        ensures kept { (p : Ptr) → HasSpot self.old p → (IsFound K.cmp self.old node.value.0 p → ⊥)
            → HasSpot self.new p }
        ensures distinct { AreDistinct (spots self.new) }
    {
        let one = Alone::new(node);
        let spot = spot_at(one.at);
        let replaced = self.put(one);
        self.nodes.spots_are_distinct();
        Inserted { spot, replaced }
    }

    /// Removes the node of a key and returns it, or `None` if no node has the key.
    ///
    /// # Complexity
    /// O(log n), for n nodes.
    pub fn remove(&mut self, key: &K) -> Option<TreeNode<(K, V)>>
        ensures removed { MatchOption result ((value_of K.cmp key.now self.old ≡ None) × (self.new ≡ self.old))
            (λ n. IsRemoved K.cmp self.old key.now n self.new) }
        ensures gone { value_of K.cmp key.now self.new ≡ None }
        ensures kept { (p : Ptr) → HasSpot self.old p → (IsFound K.cmp self.old key.now p → ⊥) → HasSpot self.new p }
        ensures distinct { AreDistinct (spots self.new) }
    {
        // for the proof: no two nodes are at one spot
        self.nodes.spots_are_distinct();
        match self.find(key) {
            Some(spot) => Some(self.remove_at(spot)),
            None => None,
        }
    }

    /// Removes the node at `at` and returns it. Requires that `at` is valid.
    ///
    /// # Complexity
    /// O(log n), for n nodes, without a comparison.
    pub fn remove_at(&mut self, at: Spot) -> TreeNode<(K, V)>
        requires { HasSpot self.old at }
        ensures taken { IsTaken self.old at result self.new }
        ensures kept { (p : Ptr) → HasSpot self.old p → p ≢ at → HasSpot self.new p }
        ensures gone { value_of K.cmp result.value.0 self.new ≡ None }
        ensures distinct { AreDistinct (spots self.new) }
    {
        let node = self.nodes.take(at).into_node();
        self.nodes.spots_are_distinct();
        node
    }

    /// Removes the node of the least key and returns it, or `None` if the map is empty.
    ///
    /// # Complexity
    /// O(log n), for n nodes, without a comparison.
    pub fn pop_first(&mut self) -> Option<TreeNode<(K, V)>>
        ensures taken { MatchOption result ((self.old ≡ []) × (self.new ≡ []))
            (λ n. (p : Ptr) × (self.old ≡ (p, n) ∷ self.new)) }
        ensures kept { (p : Ptr) → HasSpot self.old p → (IsFirst self.old p → ⊥) → HasSpot self.new p }
        ensures distinct { AreDistinct (spots self.new) }
    {
        if self.nodes.len() == 0 {
            self.nodes.spots_are_distinct();
            return None;
        }
        let node = self.nodes.take_first().into_node();
        self.nodes.spots_are_distinct();
        Some(node)
    }

    /// Removes the node of the greatest key and returns it, or `None` if the map is empty.
    ///
    /// # Complexity
    /// O(log n), for n nodes, without a comparison.
    pub fn pop_last(&mut self) -> Option<TreeNode<(K, V)>>
        ensures taken { MatchOption result ((self.old ≡ []) × (self.new ≡ []))
            (λ n. (p : Ptr) × (self.old ≡ self.new ++ (p, n) ∷ [])) }
        ensures kept { (p : Ptr) → HasSpot self.old p → (IsLast self.old p → ⊥) → HasSpot self.new p }
        ensures distinct { AreDistinct (spots self.new) }
    {
        self.nodes.spots_are_distinct();
        match self.nodes.last() {
            Some(last) => Some(self.remove_at(last)),
            None => None,
        }
    }

    /// Removes all nodes and drops them.
    ///
    /// # Complexity
    /// O(n log n) at worst, for n nodes, without a comparison.
    pub fn clear(&mut self)
        ensures { self.new ≡ [] }
    {
        drop(mem::replace(&mut self.nodes, Rooted::empty()));
    }

    /// Puts a node in. Returns the one that had its key.
    fn put(&mut self, one: Alone<(K, V)>) -> Option<TreeNode<(K, V)>>
        requires fits { length self.old < usize.MAX }
        requires alone { (e : Element (K × V)) × (nodes_of one.row.boxes.blocks ≡ (one.at.ptr, e) ∷ []) }
        ensures { (e : Element (K × V)) → nodes_of one.row.boxes.blocks ≡ (one.at.ptr, e) ∷ []
            → IsInserted K.cmp self.old e one.at.ptr result self.new }
    {
        match self.nodes.put_apart(&ByFirst, one) {
            Some(left) => Some(left.into_node()),
            None => None,
        }
    }
}

impl<K: Ord, V> TreeMap<K, V> {
    /// Returns the number of nodes.
    ///
    /// # Complexity
    /// O(1).
    pub fn len(&self) -> usize
        ensures { result ≡ length self.now }
    {
        let TreeMap { nodes } = self;
        nodes.len()
    }

    /// Returns `true` if the map has no node.
    ///
    /// # Complexity
    /// O(1).
    pub fn is_empty(&self) -> bool
        ensures { result ≡ (length self.now == 0) }
    {
        self.len() == 0
    }

    /// Does nothing when the program runs. Its contract states that each key is less than those after it, and that no
    /// two nodes are at one spot.
    ///
    /// # Complexity
    /// O(1).
    pub fn keys_rise(&self)
        ensures rises { Rises K.cmp self.now }
        ensures distinct { AreDistinct (spots self.now) }
    {
        self.nodes.spots_are_distinct();
    }

    /// Returns the spot of the node of a key, or `None` if no node has it.
    ///
    /// # Complexity
    /// O(log n), for n nodes: at most one comparison more than the tree is high.
    pub fn find(&self, key: &K) -> Option<Spot>
        ensures found { MatchOption result (value_of K.cmp key.now self.now ≡ None)
            (λ p. IsFound K.cmp self.now key.now p) }
        ensures there { IfSome result (λ p. HasSpot self.now p) }
    {
        match self.nodes.bound(&BeforeKey { key }) {
            Some(at) => self.found(at, key),
            None => None,
        }
    }

    /// Returns the spot `at`, at which the first node is whose key is not less than a key, if it has that key.
    fn found(&self, at: Spot, key: &K) -> Option<Spot>
        requires there { HasSpot self.now at }
        requires bound { IsBoundWhere (λ (x : K × V) b. b ≡ is_gt (K.cmp key.now x.0)) self.now (Some at) }
        ensures found { MatchOption result (value_of K.cmp key.now self.now ≡ None)
            (λ p. IsFound K.cmp self.now key.now p) }
        ensures there { IfSome result (λ p. HasSpot self.now p) }
    {
        // for the proof: no two nodes are at one spot
        self.nodes.spots_are_distinct();
        let is_equal = key.cmp(&self.nodes.get(at).0).is_eq();
        if is_equal { Some(at) } else { None }
    }

    /// Returns `true` if a node has the key.
    ///
    /// # Complexity
    /// As `find`.
    pub fn contains_key(&self, key: &K) -> bool
        ensures { result ≡ is_some (value_of K.cmp key.now self.now) }
    {
        self.find(key).is_some()
    }

    /// Returns a reference to the value of a key, or `None` if no node has it.
    ///
    /// # Complexity
    /// As `find`.
    pub fn get(&self, key: &K) -> Option<&V>
        ensures { option_copied result ≡ value_of K.cmp key.now self.now }
    {
        self.nodes.spots_are_distinct();
        match self.find(key) {
            Some(at) => Some(&self.nodes.get(at).1),
            None => None,
        }
    }

    /// Returns references to the key and the value at `at`. Requires that `at` is valid.
    ///
    /// # Complexity
    /// O(1).
    pub fn key_value_at(&self, at: Spot) -> (&K, &V)
        requires { HasSpot self.now at }
        ensures { HoldsAt self.now at (result.0.now, result.1.now) }
    {
        let pair = self.nodes.get(at);
        (&pair.0, &pair.1)
    }

    /// Returns references to the least key and its value, or `None` if the map is empty.
    ///
    /// # Complexity
    /// O(1).
    pub fn first_key_value(&self) -> Option<(&K, &V)>
        ensures { MatchOption result (self.now ≡ [])
            (λ r. (rest : List (K × V)) × (pairs self.now ≡ (r.0.now, r.1.now) ∷ rest)) }
    {
        self.nodes.spots_are_distinct();
        match self.nodes.first() {
            Some(first) => Some(self.key_value_at(first)),
            None => None,
        }
    }

    /// Returns references to the greatest key and its value, or `None` if the map is empty.
    ///
    /// # Complexity
    /// O(log n), for n nodes, without a comparison.
    pub fn last_key_value(&self) -> Option<(&K, &V)>
        ensures { MatchOption result (self.now ≡ [])
            (λ r. (rest : List (K × V)) × (pairs self.now ≡ rest ++ (r.0.now, r.1.now) ∷ [])) }
    {
        self.nodes.spots_are_distinct();
        match self.nodes.last() {
            Some(last) => Some(self.key_value_at(last)),
            None => None,
        }
    }

    /// Returns a mutable reference to the value at `at`. The key, the spot and the place of the node stay. Requires
    /// that `at` is valid.
    fn value_at_mut(&mut self, at: Spot, _key: &K) -> &mut V
        requires { IsFound K.cmp self.old _key.now at }
        ensures* writes_back { sem 𝓛 (LendsValueAt K.row V.row K.Ord self.entry _key.now result) }
        ensures value { Some result.now ≡ value_of K.cmp _key.now self.old }
    {
        // for the proof: no two nodes are at one spot
        self.nodes.spots_are_distinct();
        let pair = self.nodes.get_mut(at);
        &mut pair.1
    }

    /// Returns a mutable reference to the value of a key, or `None` if no node has it. The key, the spot and the place
    /// of the node stay.
    ///
    /// # Complexity
    /// As `find`.
    pub fn get_mut(&mut self, key: &K) -> Option<&mut V>
        ensures* writes_back { sem 𝓛 (LendsValueOf K.row V.row K.Ord self.entry key.now result) }
        ensures value { option_copied_mut result ≡ value_of K.cmp key.now self.old }
        ensures kept { (written : V) (p : Ptr) → HasSpot self.old p
            → HasSpot (with_value_of (is_key K.cmp key.now) self.old written) p }
    {
        match self.find(key) {
            Some(at) => Some(self.value_at_mut(at, key)),
            None => None,
        }
    }

    /// Returns an iterator over all nodes, in order of the keys: the spot of each, and a reference to its key and
    /// value.
    ///
    /// # Complexity
    /// O(1), and O(n) for a walk over all n nodes.
    pub fn iter(&self) -> Iter<'_, (K, V)>
        ensures { result ≡ entries self.now }
    {
        self.nodes.spots_are_distinct();
        iter::from(&self.nodes, self.nodes.first())
    }

    /// Returns an iterator over the nodes whose keys are not less than one key and less than another, in order of the
    /// keys: the spot of each, and a reference to its key and value.
    ///
    /// # Complexity
    /// O(log n), for n nodes, and O(log n + k) for a walk over k nodes, with one comparison for each.
    pub fn range<'a>(&'a self, low: &K, high: &'a K) -> Range<'a, K, V>
        ensures { result ≡ entries (between K.cmp low.now high.now self.now) }
    {
        // for the proof: no two nodes are at one spot
        self.nodes.spots_are_distinct();
        let at = self.nodes.bound(&BeforeKey { key: low });
        map_range::from(&self.nodes, at, high)
    }
}
