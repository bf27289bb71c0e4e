//! Lists of a map that are in the order of a rank of their values, the least first, and equals as they came.
ghost use Rattle.std.specs.Prelude.{◌≡◌, ◌<◌, ◌≤◌, ℕ, suc, true, false, MatchOption, IfSome};
ghost use Rattle.cordyceps.specs.Spots.BySpot.{HasSpot};
ghost use Rattle.cordyceps.specs.Spots.MultiList.{list_at};
ghost use Rattle.cordyceps.specs.Spots.Threads.{is_in};
ghost use Rattle.cordyceps_uses.specs.Keyed.{order, HasAt, AreFrom, IsPassed, IsLinkedIn};

use crate::keyed::{lists_agree, value_of};
use cordyceps::stable_map::{Hooks, Spot, StableMap};
use std::hash::{BuildHasher, Hash};

/// A value with a rank.
pub(crate) trait Ranked {
    // The rank.
    ghost rank: { Self → ℕ };

    /// Returns the rank.
    fn rank(&self) -> u64
        ensures { result ≡ rank self.now };
}

/// Links the node at `at` into list `i`, after those whose rank is no greater.
pub(crate) fn link_by_rank<K: Eq + Hash, V: Ranked, H: Hooks, S: BuildHasher>(
    map: &mut StableMap<K, V, H, S>,
    i: usize,
    at: Spot,
)
    requires within { i < H.count }
    requires there { HasSpot map.old.nodes at }
    requires not_in { is_in at (list_at i map.old.lists) ≡ false }
    requires sorted { AreFrom V.rank 0 (order i map.old) }
    ensures { IsLinkedIn V.rank i map.old at map.new }
{
    lists_agree(map);
    match place_by_rank(map, i, value_of(map, at).rank()) {
        Some(before) => map.link_after(i, at, before),
        None => map.link_front(i, at),
    }
}

/// Returns the spot of the last node of list `i` whose rank is at most `most`, or `None` if all are greater.
fn place_by_rank<K: Eq + Hash, V: Ranked, H: Hooks, S: BuildHasher>(
    map: &StableMap<K, V, H, S>,
    i: usize,
    most: u64,
) -> Option<Spot>
    requires within { i < H.count }
    requires sorted { AreFrom V.rank 0 (order i map.now) }
    ensures place { MatchOption result (AreFrom V.rank (suc most) (order i map.now))
        (λ p. IsPassed V.rank map.now.nodes (list_at i map.now.lists) (suc most) p) }
    ensures least { IfSome result (λ p. HasAt map.now (λ x. V.rank x.1 ≤ most) p) }
    ensures in_list { IfSome result (λ p. is_in p (list_at i map.now.lists) ≡ true) }
{
    lists_agree(map);
    let mut at = map.back(i);
    while let Some(spot) = at {
        if value_of(map, spot).rank() <= most {
            return Some(spot);
        }
        at = map.prev(i, spot);
    }
    None
}
