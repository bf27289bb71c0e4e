//! A cache of bounded size that evicts the entry that was used longest ago.
//!
//! It keeps what is expensive to compute or to read again, such as rows of a table or the results of lookups. Each
//! entry is one node, which a table finds by its key, and which is at the same time in the order of use.
ghost use Rattle.std.specs.Prelude.{◌≡◌, ◌<◌, ◌≤◌, [], length, is_some, None};
ghost use Rattle.std.specs.Prelude.{IsSome, IsOk, IfOk, IfErr, OnOk, OnErr, option_map, option_copied};
ghost use Rattle.std.specs.Borrow.{sem};
ghost use Rattle.std.specs.Map.{lookup_entry, remove_entry};
ghost use Rattle.cordyceps.specs.Spots.BySpot.{HasSpot};
ghost use Rattle.cordyceps_uses.specs.Keyed.{order, moved_back, IsAt};
ghost use Rattle.cordyceps_uses.specs.Recency.{evicted, with_room, stored, displaced, IsReplaced};

use crate::keyed::{count, lists_agree, move_back, put, spot_of, take_out, value_of};
use cordyceps::Refused;
use cordyceps::stable_map::{MapNode, One, Spot, StableMap};
use std::alloc::{AllocError, Global};
use std::hash::{BuildHasher, Hash};
use std::marker::Model;
use std::mem;

/// A cache of values by their keys, up to a capacity. A contract sees its entries, that which was used longest ago
/// first, and its capacity.
///
/// # Complexity
/// A call that takes a key is O(1) if the hashes of the keys are spread, and O(n) at the worst, for n entries. Dropping
/// the cache frees the table and the node of each entry: O(n).
#[derive(Drop)]
pub struct Cache<K: Eq + Hash, V, S: BuildHasher> {
    // Of list 0 the first was used longest ago.
    map: StableMap<K, V, One, S>,
    capacity: usize,
}

impl<K: Eq + Hash, V, S: BuildHasher> Model for Cache<K, V, S> {
    ghost use Rattle.cordyceps_uses.specs.Keyed.{order};
    ghost use Rattle.cordyceps_uses.specs.Recency.{Held, IsHeld};

    ghost Value = { Held K V };

    ghost view = { λ c. record { entries = order 0 c.map; capacity = c.capacity } };

    ghost invariant = { λ c. IsHeld c.map c.capacity };
}

impl<K: Eq + Hash + Drop, V: Drop, S: BuildHasher + Drop> Cache<K, V, S> {
    /// Creates an empty cache for at most `capacity` entries, with a table for as many, and hashes keys by `hasher`.
    /// Requires a capacity of at least 1.
    ///
    /// # Errors
    /// If memory for the table is refused, it returns `AllocError`.
    ///
    /// # Complexity
    /// O(c), for a capacity of c, with one allocation.
    pub fn new(alloc: Global, capacity: usize, hasher: S) -> Result<Cache<K, V, S>, AllocError>
        requires { 0 < capacity }
        ensures entries { IfOk result (λ c. c.entries ≡ []) }
        ensures capacity { IfOk result (λ c. c.capacity ≡ capacity) }
    {
        let map = StableMap::with_capacity(alloc, capacity, hasher)?;
        Ok(Cache { map, capacity })
    }
}

impl<K: Eq + Hash, V, S: BuildHasher> Cache<K, V, S> {
    ghost use Rattle.cordyceps_uses.specs.RecencyLends.{ends_used};

    /// Returns the number of entries.
    ///
    /// # Complexity
    /// O(1).
    pub fn len(&self) -> usize
        ensures length { result ≡ length self.now.entries }
        ensures fits { result ≤ self.now.capacity }
    {
        count(&self.map)
    }

    /// Returns `true` if the key has an entry. The order of use stays.
    ///
    /// # Complexity
    /// O(1) if the hashes of the keys are spread.
    pub fn contains(&self, key: &K) -> bool
        ensures { result ≡ is_some (lookup_entry (K.eq key.now) self.now.entries) }
    {
        spot_of(&self.map, key).is_some()
    }

    /// Returns a reference to the value of a key, or `None` if the key has no entry. The order of use stays.
    ///
    /// # Complexity
    /// O(1) if the hashes of the keys are spread.
    pub fn peek(&self, key: &K) -> Option<&V>
        ensures { option_copied result ≡ option_map (λ x. x.1) (lookup_entry (K.eq key.now) self.now.entries) }
    {
        let at = spot_of(&self.map, key)?;
        Some(value_of(&self.map, at))
    }

    /// Returns a reference to the value of a key, whose entry becomes the last used one, or `None` if the key has no
    /// entry.
    ///
    /// # Complexity
    /// O(1) if the hashes of the keys are spread.
    pub fn get(&mut self, key: &K) -> Option<&V>
        ensures* uses { sem 𝓛 (ends_used K.row V.row S.row S.Hasher.row K.Hash S.BuildHasher S.Hasher.Hasher
            self.entry (K.eq key.now)) }
        ensures value { option_copied result ≡ option_map (λ x. x.1) (lookup_entry (K.eq key.now) self.old.entries) }
    {
        let spot = spot_of(&self.map, key)?;
        move_back(&mut self.map, key, spot);
        Some(value_of(&self.map, spot))
    }

    /// Makes the entry of a key the last used one and returns `true`, or returns `false` if the key has no entry.
    ///
    /// # Complexity
    /// O(1) if the hashes of the keys are spread.
    pub fn touch(&mut self, key: &K) -> bool
        ensures entries { self.new.entries ≡ moved_back (K.eq key.now) self.old.entries }
        ensures capacity { self.new.capacity ≡ self.old.capacity }
        ensures answer { result ≡ is_some (lookup_entry (K.eq key.now) self.old.entries) }
    {
        match spot_of(&self.map, key) {
            Some(at) => {
                move_back(&mut self.map, key, at);
                true
            }
            None => false,
        }
    }
}

impl<K: Eq + Hash + Drop, V: Drop, S: BuildHasher> Cache<K, V, S> {
    /// Inserts a value for a key, whose entry becomes the last used one. Returns what goes for it: the given key with
    /// its old value, or, if a new key comes to a full cache, the entry that was used longest ago.
    ///
    /// A key that has an entry keeps its node, and the key that is stored there stays. For a new key one node is
    /// allocated.
    ///
    /// # Errors
    /// If memory is refused, the key and the value are returned, and the cache is unchanged. This does not happen for
    /// a key that has an entry.
    ///
    /// # Complexity
    /// O(1) if the hashes of the keys are spread.
    pub fn insert(
        &mut self,
        alloc: Global,
        key: K,
        value: V,
    ) -> Result<Option<(K, V)>, Refused<(K, V)>>
        ensures entries { OnOk result
            (self.new.entries ≡ stored self.old.capacity (K.eq key) (key, value) self.old.entries) }
        ensures displaced { IfOk result (λ out. out ≡ displaced self.old.capacity (K.eq key) key self.old.entries) }
        ensures returned { IfErr result (λ e. e.value ≡ (key, value)) }
        ensures kept { OnErr result (self.new ≡ self.old) }
        ensures succeeds { IsSome (lookup_entry (K.eq key) self.old.entries) → IsOk result }
        ensures capacity { self.new.capacity ≡ self.old.capacity }
    {
        if let Some(at) = spot_of(&self.map, &key) {
            let old = replace(&mut self.map, &key, at, value);
            return Ok(Some((key, old)));
        }
        let node = MapNode::new(alloc, 0, key, value)?;
        let evicted = make_room(&mut self.map, self.capacity);
        put(&mut self.map, node);
        Ok(evicted)
    }

    /// Removes the entry of a key and returns it, or returns `None` if the key has no entry.
    ///
    /// # Complexity
    /// O(1) if the hashes of the keys are spread.
    pub fn remove(&mut self, key: &K) -> Option<(K, V)>
        ensures entries { self.new.entries ≡ remove_entry (K.eq key.now) self.old.entries }
        ensures capacity { self.new.capacity ≡ self.old.capacity }
        ensures answer { result ≡ lookup_entry (K.eq key.now) self.old.entries }
        ensures gone { lookup_entry (K.eq key.now) self.new.entries ≡ None }
    {
        let at = spot_of(&self.map, key)?;
        Some(take_out(&mut self.map, at).into_pair())
    }
}

/// Gives the entry of a key, which is at `at`, another value, and makes it the last used one. Returns its old value.
fn replace<K: Eq + Hash, V, S: BuildHasher>(
    map: &mut StableMap<K, V, One, S>,
    key: &K,
    at: Spot,
    value: V,
) -> V
    requires at { IsAt K.eq 0 map.old key.now at }
    requires there { HasSpot map.old.nodes at }
    ensures { IsReplaced (K.eq key.now) result value (order 0 map.old) (order 0 map.new) }
{
    lists_agree(map);
    let old = mem::replace(map.value_at_mut(at), value);
    lists_agree(map);
    move_back(map, key, at);
    old
}

/// Removes the entry that was used longest ago, if the cache is full, and returns it.
fn make_room<K: Eq + Hash + Drop, V: Drop, S: BuildHasher>(
    map: &mut StableMap<K, V, One, S>,
    capacity: usize,
) -> Option<(K, V)>
    requires some { 0 < capacity }
    requires fits { length (order 0 map.old) ≤ capacity }
    ensures out { result ≡ evicted capacity (order 0 map.old) }
    ensures left { order 0 map.new ≡ with_room capacity (order 0 map.old) }
    ensures absent { (k : K) → lookup_entry (K.eq k) (order 0 map.old) ≡ None
        → lookup_entry (K.eq k) (order 0 map.new) ≡ None }
    ensures room { length (order 0 map.new) < capacity }
{
    if count(map) < capacity {
        return None;
    }
    let at = map.front(0)?;
    Some(take_out(map, at).into_pair())
}
