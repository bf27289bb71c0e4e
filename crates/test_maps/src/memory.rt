//! Values of maps that are dropped, and memory that is refused.
use crate::calls::{Map, holds, reply};
use crate::compared::{at_most, made, same};
use crate::plain::{Call, Plain};
use cordyceps_base::node::Refused;
use cordyceps_many::hooks::{Hooks, One, Two};
use cordyceps_map::map_node::MapNode;
use cordyceps_map::seeded::Seeded;
use cordyceps_map::stable_map::{Inserted, StableMap};
use std::alloc::{AllocError, Global};
use std::process::Abort;
use test_support::counted::{Counted, Drops};

/// A map of values whose drops are counted.
type CountedMap = StableMap<u64, Counted, Two, Seeded>;

/// Creates a node of a key, and of a value whose drop is counted.
fn counted<H: Hooks>(
    alloc: Global,
    key: u64,
    drops: &Drops,
) -> Result<MapNode<u64, Counted, H>, AllocError> {
    match MapNode::new(alloc, key, key, Counted::new(key, drops)?) {
        Ok(node) => Ok(node),
        Err(_) => Err(AllocError),
    }
}

#[test]
fn each_value_is_dropped_once(rt: HostRuntime) -> Result<(), AllocError> {
    let drops = Drops::new(rt.alloc())?;
    let mut map: CountedMap = StableMap::with_capacity(rt.alloc(), 2, Seeded::new(1, 2))?;
    for key in 0..5u64 {
        at_most(&rt, map.len(), 5);
        map.insert(counted(rt.alloc(), key, &drops)?);
    }
    map.rehash(rt.alloc(), 8)?;
    same(&rt, drops.count(), 0);
    // a value that was replaced is the caller's
    at_most(&rt, map.len(), 5);
    let Inserted { spot, replaced } = map.insert(counted(rt.alloc(), 3, &drops)?);
    same(&rt, (drops.count(), replaced.is_some()), (0, true));
    drop(replaced);
    same(&rt, drops.count(), 1);
    drop(map.remove_at(spot));
    same(&rt, drops.count(), 2);
    let node = map.remove(&1);
    same(&rt, (drops.count(), node.is_some()), (2, true));
    drop(node);
    same(&rt, drops.count(), 3);
    let alone: MapNode<u64, Counted, One> = counted(rt.alloc(), 9, &drops)?;
    same(&rt, alone.into_pair().1.value, 9);
    same(&rt, drops.count(), 4);
    drop(map);
    same(&rt, drops.count(), 7);
    Ok(())
}

/// Numbers of buckets whose table no memory has room for.
const TOO_MANY: [usize; 3] = [usize::MAX, 1 << 63, 1 << 48];

#[test]
fn a_table_too_large_for_memory_is_refused(rt: HostRuntime) {
    let mut map: Map<Two> = made(
        &rt,
        StableMap::with_capacity(rt.alloc(), 4, Seeded::new(1, 2)),
    );
    let mut plain = Plain::new(&rt, rt.alloc(), 2);
    for key in 0..9u64 {
        for call in [Call::Insert((key, key, key)), Call::LinkFront(1, key)] {
            let wanted = plain.call(&rt, call);
            same(&rt, reply(&rt, rt.alloc(), &mut map, 1, call), wanted);
        }
    }
    let buckets = map.bucket_count();
    for capacity in &TOO_MANY {
        let other: Result<Map<Two>, AllocError> = StableMap::with_capacity(
            rt.alloc(),
            *capacity,
            Seeded::new(1, 2),
        );
        same(&rt, other.is_err(), true);
        same(&rt, map.rehash(rt.alloc(), *capacity).is_err(), true);
        same(&rt, map.bucket_count(), buckets);
        holds(&rt, &map, 1, &plain);
    }
}

/// Returns a node of a key and of a value that counts its drop. Where memory is refused the key and the value are
/// returned, and passed to the next call.
fn node_again(
    rt: &impl Abort,
    alloc: Global,
    key: u64,
    drops: &Drops,
) -> Result<MapNode<u64, Counted, Two>, AllocError> {
    match MapNode::new(alloc, key, key, Counted::new(key, drops)?) {
        Ok(node) => Ok(node),
        Err(Refused { value }) => {
            same(rt, (value.0, value.1.value, drops.count()), (key, key, 0));
            match MapNode::new(alloc, key, value.0, value.1) {
                Ok(node) => Ok(node),
                Err(_) => Err(AllocError),
            }
        }
    }
}

/// Creates a map of one bucket. Where memory is refused it asks again.
fn map_again(alloc: Global) -> Result<CountedMap, AllocError> {
    match StableMap::with_capacity(alloc, 1, Seeded::new(1, 2)) {
        Ok(map) => Ok(map),
        Err(_) => StableMap::with_capacity(alloc, 1, Seeded::new(1, 2)),
    }
}

/// Asserts that the map holds these keys, that their values are the same numbers, and that there are so many buckets.
fn keys_are(rt: &impl Abort, map: &CountedMap, keys: &[u64], buckets: usize) {
    same(rt, (map.len(), map.bucket_count()), (keys.len(), buckets));
    for key in keys {
        same(rt, map.get(key).map(|it| it.value), Some(*key));
    }
}

// It says more where an allocation is made to fail, as `tools/refusals` does.
#[test]
fn a_map_goes_on_after_refused_memory(rt: HostRuntime) -> Result<(), AllocError> {
    let drops = Drops::new(rt.alloc())?;
    let mut map = map_again(rt.alloc())?;
    for key in [3u64, 1, 2] {
        let node = node_again(&rt, rt.alloc(), key, &drops)?;
        at_most(&rt, map.len(), 3);
        map.insert(node);
    }
    if map.rehash(rt.alloc(), 8).is_err() {
        keys_are(&rt, &map, &[3, 1, 2], 1);
        map.rehash(rt.alloc(), 8)?;
    }
    keys_are(&rt, &map, &[3, 1, 2], 8);
    same(&rt, drops.count(), 0);
    drop(map);
    same(&rt, drops.count(), 3);
    Ok(())
}
