//! The chains of a map's buckets: a node is linked into that of its key, and taken out of it.
ghost use Rattle.std.specs.Prelude.{◌≡◌, ◌<◌, ℕ, length, None, MatchOption, IfSome};
ghost use Rattle.std.specs.Map.{lookup, lookup_entry};
ghost use denote.RawPtr.{Ptr};
ghost use Rattle.cordyceps_base.specs.BySpot.{HasSpot};
ghost use Rattle.cordyceps_many.specs.Entries.{value_at};
ghost use Rattle.cordyceps_many.specs.MultiList.{list_at};
ghost use Rattle.cordyceps_map.specs.Chains.{AreChained, IsEmptyTable, hash_of, bucket_in, IsBucketOf};
ghost use Rattle.cordyceps_map.specs.Chains.{IsEntered, IsRedirected, IsMap, IsPlace, IsCut};
ghost use Rattle.cordyceps_map.specs.Shown.{shown, seen};
ghost use Rattle.cordyceps_map.specs.StableMap.{pairs, IsFound, IsRemoved};

use crate::entry::Entry;
use crate::link::Link;
use crate::map_node::MapNode;
use cordyceps_many::hooks::Hooks;
use cordyceps_many::multi_list::MultiList;
use cordyceps_stable::stable_list::Spot;
use std::hash::{BuildHasher, Hash};

/// Where a key stands in the table.
#[derive(Clone, Copy)]
pub(crate) struct Place {
    pub(crate) bucket: usize,
    // The node before it in the chain of the bucket, or `None` if it is the first.
    pub(crate) before: Option<Spot>,
    pub(crate) at: Spot,
}

/// The nodes of a map.
pub(crate) type Nodes<K, V, H> = MultiList<Entry<K, V>, H>;

/// Returns the bucket of a key, of a table with `count` buckets.
pub(crate) fn bucket_of<K: Eq + Hash, S: BuildHasher>(key: &K, hasher: &S, count: usize) -> usize
    requires { 0 < count }
    ensures bucket { result ≡ bucket_in count (hash_of S.BuildHasher S.Hasher.Hasher hasher.now (K.hash_input key.now)) }
    ensures within { result < count }
{
    hasher.hash_one(key) as usize & (count - 1)
}

/// Makes the node at `at` lead to `next`.
pub(crate) fn redirect<K, V, H: Hooks>(nodes: &mut Nodes<K, V, H>, at: Spot, next: Link)
    requires { HasSpot nodes.old.nodes at }
    ensures nodes { IsRedirected nodes.old.nodes at next nodes.new.nodes }
    ensures lists { nodes.new.lists ≡ nodes.old.lists }
{
    let entry = nodes.get_mut(at);
    entry.next = next;
}

/// Links the node at `at` at the front of the chain of a bucket.
pub(crate) fn enter<K, V, H: Hooks>(
    nodes: &mut Nodes<K, V, H>,
    buckets: &mut [Link],
    bucket: usize,
    at: Spot,
)
    requires within { bucket < length buckets.old }
    requires there { HasSpot nodes.old.nodes at }
    ensures entered { IsEntered nodes.old.nodes buckets.old bucket at nodes.new.nodes buckets.new }
    ensures lists { nodes.new.lists ≡ nodes.old.lists }
{
    // for the proof: no node is at null
    nodes.lists_agree();
    redirect(nodes, at, buckets[bucket]);
    buckets[bucket] = Link::to(at);
}

/// Returns where a key stands, or `None` if no node has it.
pub(crate) fn place_of<K: Eq + Hash, V, H: Hooks, S: BuildHasher>(
    nodes: &Nodes<K, V, H>,
    buckets: &[Link],
    hasher: &S,
    key: &K,
) -> Option<Place>
    requires { IsMap K.eq (λ k. hash_of S.BuildHasher S.Hasher.Hasher hasher.now (K.hash_input k)) nodes.now.nodes
        buckets.now }
    ensures { MatchOption result (lookup_entry (K.eq key.now) (pairs (shown nodes.now.nodes)) ≡ None)
        (λ w. IsPlace K.eq nodes.now.nodes buckets.now key.now w.bucket w.before w.at) }
{
    place_in(nodes, buckets, bucket_of(key, hasher, buckets.len()), key)
}

/// Returns where a key stands in the chain of its bucket, or `None` if no node has it.
fn place_in<K: Eq, V, H: Hooks>(
    nodes: &Nodes<K, V, H>,
    buckets: &[Link],
    bucket: usize,
    key: &K,
) -> Option<Place>
    requires { IsBucketOf K.eq nodes.now.nodes buckets.now key.now bucket }
    ensures { MatchOption result (lookup_entry (K.eq key.now) (pairs (shown nodes.now.nodes)) ≡ None)
        (λ w. IsPlace K.eq nodes.now.nodes buckets.now key.now w.bucket w.before w.at) }
{
    // for the proof: no two nodes are at one spot
    nodes.lists_agree();
    let mut before = None;
    let mut at = buckets[bucket].spot();
    while let Some(spot) = at {
        let entry = nodes.get(spot);
        if *key == entry.key {
            return Some(Place {
                bucket,
                before,
                at: spot,
            });
        }
        before = at;
        at = entry.next.spot();
    }
    None
}

/// Takes the node at a place out of the chain of its bucket.
pub(crate) fn leave<K, V, H: Hooks>(nodes: &mut Nodes<K, V, H>, buckets: &mut [Link], place: Place)
    requires within { place.bucket < length buckets.old }
    requires there { HasSpot nodes.old.nodes place.at }
    requires before { IfSome place.before (λ p. HasSpot nodes.old.nodes p) }
    ensures cut { IsCut nodes.old.nodes buckets.old place.bucket place.before place.at nodes.new.nodes
        buckets.new }
    ensures lists { nodes.new.lists ≡ nodes.old.lists }
{
    // for the proof: no two nodes are at one spot
    nodes.lists_agree();
    let next = nodes.get(place.at).next;
    match place.before {
        Some(before) => redirect(nodes, before, next),
        None => buckets[place.bucket] = next,
    }
}

/// Takes the node of a key out of the chain of its bucket and of every list, and returns it, or `None` if no node has
/// the key.
pub(crate) fn take_out<K: Eq + Drop, V: Drop, H: Hooks>(
    nodes: &mut Nodes<K, V, H>,
    buckets: &mut [Link],
    bucket: usize,
    key: &K,
) -> Option<MapNode<K, V, H>>
    requires { IsBucketOf K.eq nodes.old.nodes buckets.old key.now bucket }
    ensures removed { MatchOption result
        ((lookup (K.eq key.now) (pairs (shown nodes.old.nodes)) ≡ None)
        × (seen nodes.new (length buckets.new) ≡ seen nodes.old (length buckets.old)))
        (λ n. IsRemoved K.eq H.count (seen nodes.old (length buckets.old)) key.now n
        (seen nodes.new (length buckets.new))) }
    ensures gone { lookup (K.eq key.now) (pairs (shown nodes.new.nodes)) ≡ None }
    ensures kept { (p : Ptr) → HasSpot nodes.old.nodes p → (IsFound K.eq (shown nodes.old.nodes) key.now p → ⊥)
        → HasSpot nodes.new.nodes p }
    ensures map { (hash : K → ℕ) → IsMap K.eq hash nodes.old.nodes buckets.old
        → IsMap K.eq hash nodes.new.nodes buckets.new }
    ensures long { length buckets.new ≡ length buckets.old }
{
    // for the proof: no two nodes are at one spot
    nodes.lists_agree();
    let place = place_in(nodes, buckets, bucket, key)?;
    let at = place.at;
    leave(nodes, buckets, place);
    Some(MapNode {
        node: nodes.remove(at),
    })
}

/// Links every node into the chain of its bucket in an empty table.
pub(crate) fn fill<K: Eq + Hash, V, H: Hooks, S: BuildHasher>(
    nodes: &mut Nodes<K, V, H>,
    buckets: &mut [Link],
    hasher: &S,
)
    requires { IsEmptyTable buckets.old }
    ensures chained { AreChained (λ k. hash_of S.BuildHasher S.Hasher.Hasher hasher.now (K.hash_input k))
        (value_at nodes.new.nodes) buckets.new (list_at 0 nodes.new.lists) }
    ensures long { length buckets.new ≡ length buckets.old }
    ensures shows { shown nodes.new.nodes ≡ shown nodes.old.nodes }
    ensures lists { nodes.new.lists ≡ nodes.old.lists }
{
    let mut at = nodes.front(0);
    while let Some(spot) = at {
        // for the proof: a list has a spot only once, and only those of nodes
        nodes.lists_agree();
        let bucket = bucket_of(&nodes.get(spot).key, hasher, buckets.len());
        enter(nodes, buckets, bucket, spot);
        at = nodes.next(0, spot);
    }
}
