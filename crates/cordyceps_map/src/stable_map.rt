//! A map from keys to nodes, which keep their places in memory and are in lists at the same time.
//!
//! ```text
//! buckets    nodes of a bucket
//! +------+   +-----+-------+------+   +-----+-------+------+
//! |   ------>| key | value |   ------>| key | value | none |
//! +------+   +-----+-------+------+   +-----+-------+------+
//! | none |
//! +------+
//! ```
//!
//! Each node also has the hooks of a `MultiList`, which are not drawn.
//!
//! A map is a `MultiList` of entries, a table of buckets, and a hasher. The number of buckets is a power of two, and
//! the bucket of a key is that of the low bits of its hash. A lookup reads one place of the table and the nodes of one
//! bucket. Besides the lists, an insertion writes the table and the node, and a removal writes the node before it in
//! the bucket, or the table. `insert` hashes its key once: the number of the bucket is handed to the functions that
//! take out the node with that key and link in the new one. A bucket is a walk by spots, and the map's invariant
//! (`IsMap`) says that the walks of all buckets together come to each node once.
//!
//! A bucket is linked one way. A removal walks its bucket from the front to find the node before, which costs what the
//! lookup has cost already. A second link would cost each node 8 bytes, and a removal one more node to write, which is
//! often not in the cache. A contract sees how many buckets there are, and no more of the table: their number changes
//! the speed of a call and nothing else that a call does. `rehash` alone changes it. So an insertion never allocates,
//! and never grows the table by itself.
//!
//! It is hashing with separate chains. The list of all nodes in order of arrival is that of Java's `LinkedHashMap`.
ghost use Rattle.std.specs.Prelude.{◌≡◌, ◌≢◌, ℕ, ◌<◌, ◌≤◌, ◌==◌, List, [], ◌∷◌, ◌++◌, length, true, false};
ghost use Rattle.std.specs.Prelude.{MatchOption, MatchResult, IfSome, IfOk, is_some, option_copied, None, Some};
ghost use Rattle.std.specs.Int.{IsPowerOfTwo, IsNextPowerOfTwo};
ghost use Rattle.std.specs.Map.{lookup};
ghost use Rattle.std.specs.Borrow.{sem};
ghost use denote.RawPtr.{Ptr};
ghost use Rattle.cordyceps_base.specs.BySpot.{HasSpot, HoldsAt, IsTaken};
ghost use Rattle.cordyceps_many.specs.MultiList.{list_at, HasNumber};
ghost use Rattle.cordyceps_many.specs.Threads.{is_in, without};
ghost use Rattle.cordyceps_map.specs.StableMap.{pairs, AreSound, IsFound, IsRemoved, IsInserted};
ghost use Rattle.cordyceps_map.specs.Chains.{IsEmptyTable};

use crate::chains::{bucket_of, enter, fill, leave, place_of, take_out};
use crate::entry::Entry;
use crate::link::Link;
use crate::map_node::MapNode;
use cordyceps_many::hooks::Hooks;
use cordyceps_many::multi_list::MultiList;
use cordyceps_stable::stable_list::Spot;
use std::alloc::{AllocError, Global};
use std::hash::{BuildHasher, Hash};
use std::marker::Model;

/// A map from keys to nodes. A contract sees the nodes, each with its spot, its key and its value, in the order in which
/// they came, of each list the spots of its nodes, and how many buckets its table has.
///
/// A node stays where it is in memory, and keeps its spot as long as it is in the map. Every node is in list 0, and can
/// be in the others, as those of a `MultiList`. Inserting allocates nothing and cannot be refused.
///
/// # Complexity
/// A call that takes a key is O(1) if the hashes of the keys are spread over as many buckets as there are nodes, and
/// O(n) at the worst, for n nodes. Dropping the map frees each node once: O(n H).
///
/// # Examples
/// From `tour::admit_job` of `cordyceps_uses`:
/// ```
/// // A node that has the key is replaced, and comes back.
/// let inserted = jobs.insert(job);
/// // The same node is also in list 1.
/// jobs.link_back(1, inserted.spot);
/// ```
#[derive(Drop)]
pub struct StableMap<K: Eq + Hash, V, H: Hooks, S: BuildHasher> {
    pub(crate) nodes: MultiList<Entry<K, V>, H>,
    buckets: Vec<Link>,
    hasher: S,
}

impl<K: Eq + Hash, V, H: Hooks, S: BuildHasher> Model for StableMap<K, V, H, S> {
    ghost use Rattle.std.specs.Prelude.{length};
    ghost use Rattle.cordyceps_map.specs.Chains.{hash_of, IsMap};
    ghost use Rattle.cordyceps_map.specs.Shown.{seen};
    ghost use Rattle.cordyceps_map.specs.StableMap.{Mapped};

    ghost Value = { Mapped (K × V) };

    ghost view = { λ m. seen m.nodes (length m.buckets.items) };

    ghost invariant = { λ m. IsMap K.eq (λ k. hash_of S.BuildHasher S.Hasher.Hasher m.hasher (K.hash_input k))
        m.nodes.nodes m.buckets.items };
}

impl<K: Eq + Hash + Drop, V: Drop, H: Hooks, S: BuildHasher + Drop> StableMap<K, V, H, S> {
    /// Creates an empty map, and hashes keys by `hasher`. The number of buckets is the least power of two that is at
    /// least `capacity`.
    ///
    /// # Errors
    /// If memory for the table is refused, or `capacity` is greater than 2 to the 63, it returns `AllocError`.
    ///
    /// # Complexity
    /// O(c), for a capacity of c, with one allocation.
    pub fn with_capacity(
        alloc: Global,
        capacity: usize,
        hasher: S,
    ) -> Result<StableMap<K, V, H, S>, AllocError>
        ensures nodes { IfOk result (λ m. m.nodes ≡ []) }
        ensures lists { IfOk result (λ m. (i : ℕ) → list_at i m.lists ≡ []) }
        ensures buckets { IfOk result (λ m. IsNextPowerOfTwo capacity m.buckets) }
    {
        let buckets = empty_buckets(alloc, capacity)?;
        Ok(StableMap {
            nodes: MultiList::new(),
            buckets,
            hasher,
        })
    }
}

impl<K: Eq + Hash + Drop, V: Drop, H: Hooks, S: BuildHasher> StableMap<K, V, H, S> {
    /// Allocates another table, and links every node into it. The number of buckets becomes the least power of two that
    /// is at least `capacity`, and what the map holds stays the same.
    ///
    /// A map whose nodes are more than its buckets gets slower, so a caller who cannot tell how many there will be calls
    /// it with twice the number of nodes whenever there are as many nodes as buckets.
    ///
    /// # Errors
    /// If memory for the table is refused, or `capacity` is greater than 2 to the 63, it returns `AllocError`, and the
    /// table stays as it is.
    ///
    /// # Complexity
    /// O(n + c), for n nodes and a capacity of c, with one allocation.
    pub fn rehash(&mut self, alloc: Global, capacity: usize) -> Result<(), AllocError>
        ensures nodes { self.new.nodes ≡ self.old.nodes }
        ensures lists { self.new.lists ≡ self.old.lists }
        ensures buckets { MatchResult result (λ _. IsNextPowerOfTwo capacity self.new.buckets)
            (λ _. self.new.buckets ≡ self.old.buckets) }
    {
        let mut buckets = empty_buckets(alloc, capacity)?;
        fill(&mut self.nodes, buckets.as_mut_slice(), &self.hasher);
        // for the proof: list 0 has every node, and no other spots
        self.nodes.lists_agree();
        self.buckets = buckets;
        Ok(())
    }

    /// Puts a node in, at the back of list 0. If a node with an equal key is there, it is removed from every list, and
    /// returned. All other spots stay valid. Requires fewer than `usize::MAX` nodes.
    ///
    /// # Complexity
    /// O(H) if the hashes of the keys are spread, and O(n) at the worst.
    pub fn insert(&mut self, node: MapNode<K, V, H>) -> Inserted<K, V, H>
        requires fits { length (list_at 0 self.old.lists) < usize.MAX }
        ensures inserted { IsInserted K.eq H.count self.old node result.spot result.replaced self.new }
        ensures found { lookup (K.eq node.value.0) (pairs self.new.nodes) ≡ Some node.value.1 }
        ensures there { HasSpot self.new.nodes result.spot }
        ensures no_longer { (j : ℕ) → 0 < j → j < H.count
            → length (list_at j self.new.lists) ≤ length (list_at j self.old.lists) }
        ensures not_in { (j : ℕ) → 0 < j → is_in result.spot (list_at j self.new.lists) ≡ false }
        ensures kept { (p : Ptr) → HasSpot self.old.nodes p → (IsFound K.eq self.old.nodes node.value.0 p → ⊥)
            → HasSpot self.new.nodes p }
    {
        let key = node.key();
        let bucket = bucket_of(key, &self.hasher, self.buckets.len());
        let replaced = take_out(&mut self.nodes, self.buckets.as_mut_slice(), bucket, key);
        let spot = self.nodes.insert(node.node);
        enter(&mut self.nodes, self.buckets.as_mut_slice(), bucket, spot);
        Inserted { spot, replaced }
    }

    /// Removes the node of a key from every list, and returns it, or `None` if no node has the key.
    ///
    /// # Complexity
    /// O(H) if the hashes of the keys are spread, and O(n) at the worst.
    pub fn remove(&mut self, key: &K) -> Option<MapNode<K, V, H>>
        ensures removed { MatchOption result ((lookup (K.eq key.now) (pairs self.old.nodes) ≡ None) × (self.new ≡ self.old))
            (λ n. IsRemoved K.eq H.count self.old key.now n self.new) }
        ensures gone { lookup (K.eq key.now) (pairs self.new.nodes) ≡ None }
        ensures kept { (p : Ptr) → HasSpot self.old.nodes p → (IsFound K.eq self.old.nodes key.now p → ⊥)
            → HasSpot self.new.nodes p }
    {
        let bucket = bucket_of(key, &self.hasher, self.buckets.len());
        take_out(&mut self.nodes, self.buckets.as_mut_slice(), bucket, key)
    }
}

impl<K: Eq + Hash, V, H: Hooks, S: BuildHasher> StableMap<K, V, H, S> {
    /// Returns the spot of the node of a key, or `None` if no node has it.
    ///
    /// # Complexity
    /// O(1) if the hashes of the keys are spread, and O(n) at the worst.
    pub fn find(&self, key: &K) -> Option<Spot>
        ensures found { MatchOption result (lookup (K.eq key.now) (pairs self.now.nodes) ≡ None)
            (λ p. IsFound K.eq self.now.nodes key.now p) }
        ensures there { IfSome result (λ p. HasSpot self.now.nodes p) }
    {
        let place = place_of(&self.nodes, self.buckets.as_slice(), &self.hasher, key)?;
        Some(place.at)
    }

    /// Returns a reference to the value of a key, or `None` if no node has it.
    ///
    /// # Complexity
    /// O(1) if the hashes of the keys are spread, and O(n) at the worst.
    pub fn get(&self, key: &K) -> Option<&V>
        ensures { option_copied result ≡ lookup (K.eq key.now) (pairs self.now.nodes) }
    {
        // for the proof: no two nodes are at one spot
        self.nodes.lists_agree();
        let place = place_of(&self.nodes, self.buckets.as_slice(), &self.hasher, key)?;
        Some(&self.nodes.get(place.at).value)
    }

    /// Returns a reference to the value at `at`. Requires that `at` is valid.
    ///
    /// # Complexity
    /// O(1).
    pub fn value_at(&self, at: Spot) -> &V
        requires { HasSpot self.now.nodes at }
        ensures { (k : K) × HoldsAt self.now.nodes at (k, result.now) }
    {
        &self.nodes.get(at).value
    }

    /// Returns a reference to the key at `at`. Requires that `at` is valid.
    ///
    /// # Complexity
    /// O(1).
    pub fn key_at(&self, at: Spot) -> &K
        requires { HasSpot self.now.nodes at }
        ensures { (v : V) × HoldsAt self.now.nodes at (result.now, v) }
    {
        &self.nodes.get(at).key
    }

    /// Returns the number of the node at `at`. Requires that `at` is valid.
    ///
    /// # Complexity
    /// O(1).
    pub fn id(&self, at: Spot) -> u64
        requires { HasSpot self.now.nodes at }
        ensures { HasNumber self.now.nodes at result }
    {
        self.nodes.id(at)
    }
}

impl<K: Eq + Hash + Drop, V: Drop, H: Hooks, S: BuildHasher> StableMap<K, V, H, S> {
    /// Removes the node at `at` from every list, and returns it. Requires that `at` is valid.
    ///
    /// # Complexity
    /// As `remove`: the chain of the bucket is walked.
    pub fn remove_at(&mut self, at: Spot) -> MapNode<K, V, H>
        requires { HasSpot self.old.nodes at }
        ensures taken { IsTaken self.old.nodes at result self.new.nodes }
        ensures lists { (j : ℕ) → j < H.count → list_at j self.new.lists ≡ without at (list_at j self.old.lists) }
        ensures buckets { self.new.buckets ≡ self.old.buckets }
        ensures kept { (p : Ptr) → HasSpot self.old.nodes p → p ≢ at → HasSpot self.new.nodes p }
    {
        // for the proof: no two nodes are at one spot
        self.nodes.lists_agree();
        let key = &self.nodes.get(at).key;
        let Some(place) = place_of(&self.nodes, self.buckets.as_slice(), &self.hasher, key) else {
            unreachable!()
        };
        leave(&mut self.nodes, self.buckets.as_mut_slice(), place);
        MapNode {
            node: self.nodes.remove(at),
        }
    }
}

impl<K: Eq + Hash, V, H: Hooks, S: BuildHasher> StableMap<K, V, H, S> {
    /// Returns the number of nodes.
    ///
    /// # Complexity
    /// O(1).
    pub fn len(&self) -> usize
        ensures { result ≡ length (list_at 0 self.now.lists) }
    {
        self.nodes.len(0)
    }

    /// Returns `true` if the map has no node.
    ///
    /// # Complexity
    /// O(1).
    pub fn is_empty(&self) -> bool
        ensures { result ≡ (length (list_at 0 self.now.lists) == 0) }
    {
        self.len() == 0
    }

    /// Returns the number of buckets, a power of two. It is a matter of speed alone: the calls do the same with any
    /// number.
    ///
    /// # Complexity
    /// O(1).
    pub fn bucket_count(&self) -> usize
        ensures count { result ≡ self.now.buckets }
        ensures power { IsPowerOfTwo result }
    {
        self.buckets.len()
    }

    /// Returns `true` if a node has the key.
    ///
    /// # Complexity
    /// As `find`.
    pub fn contains_key(&self, key: &K) -> bool
        ensures { result ≡ is_some (lookup (K.eq key.now) (pairs self.now.nodes)) }
    {
        self.find(key).is_some()
    }
}

impl<K: Eq + Hash, V, H: Hooks, S: BuildHasher> StableMap<K, V, H, S> {
    /// Does nothing when the program runs. Its contract states that no two nodes are at one spot or have equal keys,
    /// that no spot is null, that each list has a spot only once, and only spots of nodes, and that list 0 has all of
    /// these.
    ///
    /// # Complexity
    /// O(1).
    pub fn lists_agree(&self)
        ensures { AreSound K.eq self.now }
    {
        self.nodes.lists_agree();
    }
}

impl<K: Eq + Hash, V, H: Hooks, S: BuildHasher> StableMap<K, V, H, S> {
    ghost use Rattle.std.specs.Option.{option_copied_mut};
    ghost use Rattle.cordyceps_map.specs.MapLends.{LendsValueAt, LendsValueOf, with_value_at};

    /// Returns a mutable reference to the value at `at`. The key, the spot and the places of the node stay. Requires
    /// that `at` is valid.
    ///
    /// # Complexity
    /// O(1).
    pub fn value_at_mut(&mut self, at: Spot) -> &mut V
        requires { HasSpot self.old.nodes at }
        ensures* writes_back { sem 𝓛 (LendsValueAt K.row V.row H.row S.row H.HookArray.row H.EndsArray.row S.Hasher.row
            K.Hash H.Rows S.BuildHasher S.Hasher.Hasher self.entry at result) }
        ensures value { (k : K) × HoldsAt self.old.nodes at (k, result.now) }
        ensures kept { (written : V) (p : Ptr) → HasSpot self.old.nodes p
            → HasSpot (with_value_at self.old at written).nodes p }
    {
        let entry = self.nodes.get_mut(at);
        &mut entry.value
    }

    /// Returns a mutable reference to the value of a key, or `None` if no node has it. The key, the spot and the places
    /// of the node stay.
    ///
    /// # Complexity
    /// As `find`.
    pub fn get_mut(&mut self, key: &K) -> Option<&mut V>
        ensures* writes_back { sem 𝓛 (LendsValueOf K.row V.row H.row S.row H.HookArray.row H.EndsArray.row S.Hasher.row
            K.Hash H.Rows S.BuildHasher S.Hasher.Hasher self.entry key.now result) }
        ensures value { option_copied_mut result ≡ lookup (K.eq key.now) (pairs self.old.nodes) }
        ensures found { IfSome result (λ _. (p : Ptr) × IsFound K.eq self.old.nodes key.now p) }
        ensures kept { (written : V) (at p : Ptr) → IsFound K.eq self.old.nodes key.now at → HasSpot self.old.nodes p
            → HasSpot (with_value_at self.old at written).nodes p }
    {
        // for the proof: no two nodes are at one spot
        self.lists_agree();
        let at = self.find(key)?;
        Some(self.value_at_mut(at))
    }
}

/// What `insert` returns: the spot of the node that was put in, and the node that had its key before.
#[derive(Drop)]
pub struct Inserted<K, V, H: Hooks> {
    pub spot: Spot,
    pub replaced: Option<MapNode<K, V, H>>,
}

/// Creates a table of empty buckets, whose number is the least power of two that is at least `capacity`.
fn empty_buckets(alloc: Global, capacity: usize) -> Result<Vec<Link>, AllocError>
    ensures count { IfOk result (λ v. IsNextPowerOfTwo capacity (length v.items)) }
    ensures empty { IfOk result (λ v. IsEmptyTable v.items) }
{
    let count = capacity.checked_next_power_of_two().ok_or(AllocError)?;
    let mut buckets = Vec::new(alloc);
    buckets.resize(count, Link::none())?;
    Ok(buckets)
}
