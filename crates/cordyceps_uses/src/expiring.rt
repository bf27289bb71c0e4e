//! A cache of bounded size whose entries expire, and which allocates nothing but its nodes and, once, a table.
//!
//! It keeps what is valid for a time, such as addresses of names, sessions or tokens. Each entry is one node, which a
//! table finds by its key, and which is at the same time in the order of use and in the order of the times.
//!
//! A table of connections is such a cache: the key is a connection's number, the order of use tells which is idle
//! longest, and the time is its deadline, which `renew` puts off.
ghost use Rattle.std.specs.Prelude.{◌≡◌, ◌<◌, ◌≤◌, ◌⊎◌, [], ◌∷◌, ◌++◌, length, true, false, None, Some};
ghost use Rattle.std.specs.Prelude.{MatchOption, IfSome, IfOk, IfErr, OnErr, option_map, option_copied, is_some};
ghost use Rattle.std.specs.Borrow.{sem};
ghost use Rattle.std.specs.List.{All};
ghost use Rattle.std.specs.Map.{lookup_entry, remove_entry};
ghost use Rattle.cordyceps.specs.Spots.BySpot.{HasSpot};
ghost use Rattle.cordyceps.specs.Spots.Entries.{value_at};
ghost use Rattle.cordyceps_uses.specs.Expiring.{IsLive, live, renewed, with_until, by_use, AreTimed};
ghost use Rattle.cordyceps_uses.specs.Expiring.{IsFirstExpired, IsLongestUnused, HasRoom, IsStored};
ghost use Rattle.cordyceps_uses.specs.Keyed.{HasAt, IsAt, IsOut, moved_back};

use crate::keyed::{count, lists_agree, move_back, put, spot_of, take_out, value_of};
use crate::ranked::{Ranked, link_by_rank};
use cordyceps::Refused;
use cordyceps::stable_map::{MapNode, Spot, StableMap, Two};
use std::alloc::{AllocError, Global};
use std::hash::{BuildHasher, Hash};
use std::marker::Model;

/// A value, and the time from which on it is expired.
#[derive(Drop)]
pub struct Timed<V> {
    /// The value.
    pub value: V,
    /// The time from which on the value is expired.
    pub until: u64,
}

impl<V> Ranked for Timed<V> {
    ghost rank = { λ t. t.until };

    fn rank(&self) -> u64 {
        self.until
    }
}

/// A cache of values by their keys, up to a capacity, each up to its time. A contract sees its entries, that which was
/// used longest ago first, and its capacity.
///
/// The caller says at each call what the time is, in a unit of its own. An entry that is expired is never returned as a
/// value, and stays until it is removed, replaced or evicted.
///
/// # Complexity
/// A call that takes a key is O(1) if the hashes of the keys are spread, and O(n) at the worst, for n entries. Dropping
/// the cache frees the table and the node of each entry: O(n).
#[derive(Drop)]
pub struct ExpiringCache<K: Eq + Hash, V, S: BuildHasher> {
    // Of list 0 the first was used longest ago, and of list 1 the first expires first.
    map: StableMap<K, Timed<V>, Two, S>,
    capacity: usize,
}

impl<K: Eq + Hash, V, S: BuildHasher> Model for ExpiringCache<K, V, S> {
    ghost use Rattle.cordyceps_uses.specs.Expiring.{Kept, IsKept, by_use};

    ghost Value = { Kept K V };

    ghost view = { λ c. record { entries = by_use c.map; capacity = c.capacity } };

    ghost invariant = { λ c. IsKept c.map c.capacity };
}

/// The nodes of a cache.
type Nodes<K, V, S> = StableMap<K, Timed<V>, Two, S>;

impl<K: Eq + Hash + Drop, V: Drop, S: BuildHasher + Drop> ExpiringCache<K, V, S> {
    /// Creates an empty cache for at most `capacity` entries, with a table for as many, and hashes keys by `hasher`.
    /// Requires a capacity of at least 1.
    ///
    /// # Errors
    /// If memory for the table is refused, it returns `AllocError`.
    ///
    /// # Complexity
    /// O(c), for a capacity of c, with one allocation.
    pub fn new(
        alloc: Global,
        capacity: usize,
        hasher: S,
    ) -> Result<ExpiringCache<K, V, S>, AllocError>
        requires { 0 < capacity }
        ensures entries { IfOk result (λ c. c.entries ≡ []) }
        ensures capacity { IfOk result (λ c. c.capacity ≡ capacity) }
    {
        let map = StableMap::with_capacity(alloc, capacity, hasher)?;
        Ok(ExpiringCache { map, capacity })
    }
}

impl<K: Eq + Hash, V, S: BuildHasher> ExpiringCache<K, V, S> {
    ghost use Rattle.cordyceps_uses.specs.ExpiringLends.{ends_used};

    /// Returns the number of entries, with those that are expired.
    ///
    /// # Complexity
    /// O(1).
    pub fn len(&self) -> usize
        ensures length { result ≡ length self.now.entries }
        ensures fits { result ≤ self.now.capacity }
    {
        count(&self.map)
    }

    /// Returns a reference to the value of a key, or `None` if the key has no entry or that is expired. The order of
    /// use stays.
    ///
    /// # Complexity
    /// O(1) if the hashes of the keys are spread.
    pub fn peek(&self, now: u64, key: &K) -> Option<&V>
        ensures { option_copied result ≡ option_map (λ x. x.1.value) (live now (K.eq key.now) self.now.entries) }
    {
        let at = live_spot(&self.map, now, key)?;
        Some(&value_of(&self.map, at).value)
    }

    /// Returns a reference to the value of a key, whose entry becomes the last used one, or `None` if the key has no
    /// entry or that is expired. An expired entry stays where it is.
    ///
    /// # Complexity
    /// O(1) if the hashes of the keys are spread.
    pub fn get(&mut self, now: u64, key: &K) -> Option<&V>
        ensures* uses { sem 𝓛 (ends_used K.row V.row S.row S.Hasher.row K.Hash S.BuildHasher S.Hasher.Hasher
            self.entry now (K.eq key.now)) }
        ensures value { option_copied result ≡ option_map (λ x. x.1.value) (live now (K.eq key.now) self.old.entries) }
    {
        let spot = live_spot(&self.map, now, key)?;
        use_at(&mut self.map, key, spot);
        Some(&value_of(&self.map, spot).value)
    }

    /// Gives the entry of a key a new time, makes it the last used one, and returns `true`. If the key has no entry or
    /// that is expired, it returns `false`, and nothing changes.
    ///
    /// # Complexity
    /// As `insert`, without an allocation.
    pub fn renew(&mut self, key: &K, now: u64, until: u64) -> bool
        ensures answer { result ≡ is_some (live now (K.eq key.now) self.old.entries) }
        ensures entries { self.new.entries ≡ renewed now until (K.eq key.now) self.old.entries }
        ensures capacity { self.new.capacity ≡ self.old.capacity }
    {
        match live_spot(&self.map, now, key) {
            Some(at) => {
                set_until(&mut self.map, key, at, until);
                true
            }
            None => false,
        }
    }
}

impl<K: Eq + Hash + Drop, V: Drop, S: BuildHasher> ExpiringCache<K, V, S> {
    /// Inserts a value for a key, which is expired from `until` on, and makes its entry the last used one. Returns the
    /// entry that goes for it: the old entry of the key, or, if a new key comes to a full cache, the entry that expires
    /// first, if that is expired, and otherwise the entry that was used longest ago.
    ///
    /// It allocates one node.
    ///
    /// # Errors
    /// If memory is refused, the key and the value are returned, and the cache is unchanged.
    ///
    /// # Complexity
    /// O(1) if the hashes of the keys are spread and the entry expires last, as it does where all live equally long.
    /// Otherwise O(m) more, for m entries that expire later.
    pub fn insert(
        &mut self,
        alloc: Global,
        key: K,
        value: V,
        now: u64,
        until: u64,
    ) -> Result<Option<(K, Timed<V>)>, Refused<(K, Timed<V>)>>
        ensures stored { IfOk result (λ out. IsStored K.eq self.old.capacity now self.old.entries
            (key, record { value = value; until = until }) out self.new.entries) }
        ensures returned { IfErr result (λ e. e.value ≡ (key, record { value = value; until = until })) }
        ensures kept { OnErr result (self.new ≡ self.old) }
        ensures capacity { self.new.capacity ≡ self.old.capacity }
    {
        match MapNode::new(alloc, 0, key, Timed { value, until }) {
            Ok(node) => {
                let out = make_room(&mut self.map, self.capacity, now, node.key());
                put_by_time(&mut self.map, node);
                Ok(out)
            }
            Err(refused) => Err(refused),
        }
    }

    /// Removes the entry of a key and returns it, be it expired or not, or returns `None` if the key has no entry.
    ///
    /// # Complexity
    /// O(1) if the hashes of the keys are spread.
    pub fn remove(&mut self, key: &K) -> Option<(K, Timed<V>)>
        ensures entries { self.new.entries ≡ remove_entry (K.eq key.now) self.old.entries }
        ensures capacity { self.new.capacity ≡ self.old.capacity }
        ensures answer { result ≡ lookup_entry (K.eq key.now) self.old.entries }
        ensures gone { lookup_entry (K.eq key.now) self.new.entries ≡ None }
    {
        let at = spot_of(&self.map, key)?;
        Some(taken(&mut self.map, at))
    }

    /// Removes the entry that expires first and returns it, if it is expired, or returns `None` if no entry is expired.
    ///
    /// # Complexity
    /// O(1) if the hashes of the keys are spread.
    pub fn remove_expired(&mut self, now: u64) -> Option<(K, Timed<V>)>
        ensures expired { MatchOption result (All (IsLive now) self.old.entries)
            (λ x. IsFirstExpired now self.old.entries x) }
        ensures out { MatchOption result (self.new ≡ self.old)
            (λ x. IsOut K.eq self.old.entries x self.new.entries) }
        ensures capacity { self.new.capacity ≡ self.old.capacity }
    {
        let at = first_expired(&self.map, now)?;
        Some(taken(&mut self.map, at))
    }
}

/// Returns the spot of the entry of a key, or `None` if the key has none or that is expired.
fn live_spot<K: Eq + Hash, V, S: BuildHasher>(
    map: &Nodes<K, V, S>,
    now: u64,
    key: &K,
) -> Option<Spot>
    ensures found { MatchOption result (live now (K.eq key.now) (by_use map.now) ≡ None)
        (λ p. IsAt K.eq 0 map.now key.now p) }
    ensures live { IfSome result
        (λ p. HasAt map.now (λ x. live now (K.eq key.now) (by_use map.now) ≡ Some x) p) }
    ensures there { IfSome result (λ p. HasSpot map.now.nodes p) }
{
    let at = spot_of(map, key)?;
    if now < value_of(map, at).until {
        Some(at)
    } else {
        None
    }
}

/// Makes the entry of a key, which is at `at`, the last used one.
fn use_at<K: Eq + Hash, V, S: BuildHasher>(map: &mut Nodes<K, V, S>, key: &K, at: Spot)
    requires timed { AreTimed map.old }
    requires at { IsAt K.eq 0 map.old key.now at }
    requires there { HasSpot map.old.nodes at }
    ensures timed { AreTimed map.new }
    ensures nodes { map.new.nodes ≡ map.old.nodes }
    ensures there { HasSpot map.new.nodes at }
    ensures moved { by_use map.new ≡ moved_back (K.eq key.now) (by_use map.old) }
{
    lists_agree(map);
    move_back(map, key, at);
}

/// Gives the entry of a key, which is at `at`, a new time, and makes it the last used one.
fn set_until<K: Eq + Hash, V, S: BuildHasher>(
    map: &mut Nodes<K, V, S>,
    key: &K,
    at: Spot,
    until: u64,
)
    requires timed { AreTimed map.old }
    requires at { IsAt K.eq 0 map.old key.now at }
    requires there { HasSpot map.old.nodes at }
    ensures timed { AreTimed map.new }
    ensures renewed { HasAt map.old (λ x. by_use map.new ≡ remove_entry (K.eq key.now) (by_use map.old)
        ++ with_until until x ∷ []) at }
{
    lists_agree(map);
    map.unlink(1, at);
    map.value_at_mut(at).until = until;
    lists_agree(map);
    move_back(map, key, at);
    link_by_rank(map, 1, at);
}

/// Takes the node at `at` out, and returns its entry.
fn taken<K: Eq + Hash + Drop, V: Drop, S: BuildHasher>(
    map: &mut Nodes<K, V, S>,
    at: Spot,
) -> (K, Timed<V>)
    requires there { HasSpot map.old.nodes at }
    requires timed { AreTimed map.old }
    ensures value { value_at map.old.nodes at ≡ Some result }
    ensures out { IsOut K.eq (by_use map.old) result (by_use map.new) }
    ensures timed { AreTimed map.new }
{
    lists_agree(map);
    take_out(map, at).into_pair()
}

/// Returns the spot of the entry that expires first, if it is expired, or `None` if no entry is expired.
fn first_expired<K: Eq + Hash, V, S: BuildHasher>(map: &Nodes<K, V, S>, now: u64) -> Option<Spot>
    requires { AreTimed map.now }
    ensures expired { MatchOption result (All (IsLive now) (by_use map.now))
        (λ p. HasAt map.now (IsFirstExpired now (by_use map.now)) p) }
    ensures there { IfSome result (λ p. HasSpot map.now.nodes p) }
{
    lists_agree(map);
    let at = map.front(1)?;
    if value_of(map, at).until <= now {
        Some(at)
    } else {
        None
    }
}

/// Returns the spot of the entry that goes from a full cache, or `None` if there is no entry.
fn victim<K: Eq + Hash, V, S: BuildHasher>(map: &Nodes<K, V, S>, now: u64) -> Option<Spot>
    requires { AreTimed map.now }
    ensures oldest { MatchOption result (by_use map.now ≡ [])
        (λ p. HasAt map.now (λ x. IsFirstExpired now (by_use map.now) x
        ⊎ IsLongestUnused now (by_use map.now) x) p) }
    ensures there { IfSome result (λ p. HasSpot map.now.nodes p) }
{
    lists_agree(map);
    match first_expired(map, now) {
        Some(at) => Some(at),
        None => map.front(0),
    }
}

/// Removes the entry of a key, or, if the key has none and the cache is full, another. Returns what it removes.
fn make_room<K: Eq + Hash + Drop, V: Drop, S: BuildHasher>(
    map: &mut Nodes<K, V, S>,
    capacity: usize,
    now: u64,
    key: &K,
) -> Option<(K, Timed<V>)>
    requires some { 0 < capacity }
    requires fits { length (by_use map.old) ≤ capacity }
    requires timed { AreTimed map.old }
    ensures room { HasRoom K.eq capacity now (by_use map.old) key.now result (by_use map.new) }
    ensures fits { length (by_use map.new) < capacity }
    ensures timed { AreTimed map.new }
{
    match spot_of(map, key) {
        Some(at) => Some(taken(map, at)),
        None => {
            if count(map) < capacity {
                return None;
            }
            let at = victim(map, now)?;
            Some(taken(map, at))
        }
    }
}

/// Puts a node in, whose key no other has, also in the order of the times.
fn put_by_time<K: Eq + Hash + Drop, V: Drop, S: BuildHasher>(
    map: &mut Nodes<K, V, S>,
    node: MapNode<K, Timed<V>, Two>,
)
    requires absent { lookup_entry (K.eq node.value.0) (by_use map.old) ≡ None }
    requires fits { length (by_use map.old) < usize.MAX }
    requires timed { AreTimed map.old }
    ensures entries { by_use map.new ≡ by_use map.old ++ node.value ∷ [] }
    ensures found { lookup_entry (K.eq node.value.0) (by_use map.new) ≡ Some node.value }
    ensures timed { AreTimed map.new }
{
    lists_agree(map);
    let at = put(map, node);
    link_by_rank(map, 1, at);
}
