//! Steps on a map of entries by their keys, which the caches and the table of tasks share.
//!
//! Their contracts are said of the entries in the orders of the map's lists.
ghost use Rattle.std.specs.Prelude.{◌≡◌, ◌<◌, ℕ, length, true, false, None, Some, MatchOption, IfSome, [], ◌∷◌, ◌++◌};
ghost use Rattle.std.specs.Map.{lookup_entry};
ghost use Rattle.cordyceps.specs.Spots.BySpot.{HasSpot};
ghost use Rattle.cordyceps.specs.Spots.MultiList.{list_at, SameBut};
ghost use Rattle.cordyceps.specs.Spots.Threads.{is_in, without};
ghost use Rattle.cordyceps_uses.specs.Keyed.{order, moved_back, HasAt, IsAt, IsSound, IsTakenOut, IsPut};

use cordyceps::stable_map::{Hooks, MapNode, Spot, StableMap};
use std::hash::{BuildHasher, Hash};

/// Does nothing when the program runs. Its contract states what holds of each map.
pub(crate) fn lists_agree<K: Eq + Hash, V, H: Hooks, S: BuildHasher>(map: &StableMap<K, V, H, S>)
    ensures { IsSound K.eq map.now }
{
    map.lists_agree();
}

/// Returns the number of entries.
pub(crate) fn count<K: Eq + Hash, V, H: Hooks, S: BuildHasher>(map: &StableMap<K, V, H, S>) -> usize
    ensures { result ≡ length (order 0 map.now) }
{
    lists_agree(map);
    map.len()
}

/// Returns a reference to the value at `at`.
pub(crate) fn value_of<K: Eq + Hash, V, H: Hooks, S: BuildHasher>(
    map: &StableMap<K, V, H, S>,
    at: Spot,
) -> &V
    requires { HasSpot map.now.nodes at }
    ensures { HasAt map.now (λ x. x.1 ≡ result.now) at }
{
    lists_agree(map);
    map.value_at(at)
}

/// Returns the spot of the entry of a key, or `None` if the key has none.
pub(crate) fn spot_of<K: Eq + Hash, V, H: Hooks, S: BuildHasher>(
    map: &StableMap<K, V, H, S>,
    key: &K,
) -> Option<Spot>
    ensures found { MatchOption result (lookup_entry (K.eq key.now) (order 0 map.now) ≡ None)
        (λ p. IsAt K.eq 0 map.now key.now p) }
    ensures there { IfSome result (λ p. HasSpot map.now.nodes p) }
{
    lists_agree(map);
    map.find(key)
}

/// Returns the spot of the entry of a key, or `None` if list `i` has none.
pub(crate) fn spot_in<K: Eq + Hash, V, H: Hooks, S: BuildHasher>(
    map: &StableMap<K, V, H, S>,
    i: usize,
    key: &K,
) -> Option<Spot>
    requires { i < H.count }
    ensures found { MatchOption result (lookup_entry (K.eq key.now) (order i map.now) ≡ None)
        (λ p. IsAt K.eq i map.now key.now p) }
    ensures there { IfSome result (λ p. HasSpot map.now.nodes p) }
    ensures in_list { IfSome result (λ p. is_in p (list_at i map.now.lists) ≡ true) }
{
    lists_agree(map);
    let at = spot_of(map, key)?;
    if map.is_linked(i, at) { Some(at) } else { None }
}

/// Moves the entry of a key, which is at `at`, behind all others.
pub(crate) fn move_back<K: Eq + Hash, V, H: Hooks, S: BuildHasher>(
    map: &mut StableMap<K, V, H, S>,
    key: &K,
    at: Spot,
)
    requires at { IsAt K.eq 0 map.old key.now at }
    requires there { HasSpot map.old.nodes at }
    ensures nodes { map.new.nodes ≡ map.old.nodes }
    ensures there { HasSpot map.new.nodes at }
    ensures list { list_at 0 map.new.lists ≡ without at (list_at 0 map.old.lists) ++ at ∷ [] }
    ensures others { SameBut 0 map.old.lists map.new.lists }
    ensures moved { order 0 map.new ≡ moved_back (K.eq key.now) (order 0 map.old) }
{
    lists_agree(map);
    map.move_to_back(0, at);
}

/// Takes the node at `at` out of the map, and returns it.
pub(crate) fn take_out<K: Eq + Hash + Drop, V: Drop, H: Hooks, S: BuildHasher>(
    map: &mut StableMap<K, V, H, S>,
    at: Spot,
) -> MapNode<K, V, H>
    requires { HasSpot map.old.nodes at }
    ensures { IsTakenOut K.eq H.count map.old at result.value map.new }
{
    lists_agree(map);
    map.remove_at(at)
}

/// Puts a node in, whose key no other has, and returns its spot.
pub(crate) fn put<K: Eq + Hash + Drop, V: Drop, H: Hooks, S: BuildHasher>(
    map: &mut StableMap<K, V, H, S>,
    node: MapNode<K, V, H>,
) -> Spot
    requires absent { lookup_entry (K.eq node.value.0) (order 0 map.old) ≡ None }
    requires fits { length (order 0 map.old) < usize.MAX }
    ensures put { IsPut K.eq map.old result node.value map.new }
    ensures out { (j : ℕ) → 0 < j → is_in result (list_at j map.new.lists) ≡ false }
    ensures there { HasSpot map.new.nodes result }
{
    lists_agree(map);
    let inserted = map.insert(node);
    lists_agree(map);
    inserted.spot
}
