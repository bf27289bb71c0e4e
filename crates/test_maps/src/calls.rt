//! Calls of maps, by keys, and what the maps hold beside plain vectors.
ghost use Rattle.std.specs.Prelude.{◌≡◌, ◌<◌, length, true, IfSome};
ghost use Rattle.cordyceps_base.specs.BySpot.{HasSpot};
ghost use Rattle.cordyceps_many.specs.MultiList.{list_at};
ghost use Rattle.cordyceps_many.specs.Threads.{is_in};

use crate::compared::{at_most, made, same};
use crate::plain::{Call, Plain, Reply};
use cordyceps_many::hooks::Hooks;
use cordyceps_map::map_node::MapNode;
use cordyceps_map::seeded::Seeded;
use cordyceps_map::stable_map::{Inserted, StableMap};
use cordyceps_single::sorted_list::Least;
use cordyceps_stable::stable_list::Spot;
use std::alloc::Global;
use std::process::Abort;

/// The keys of a test are below this number, so that most are drawn again.
pub const KEYS: u64 = 16;

/// No list of a test is longer.
const LONGEST: usize = 10_000;

/// A map from numbers to numbers.
pub type Map<H> = StableMap<u64, u64, H, Seeded>;

/// Returns the key at a spot.
fn key_of<H: Hooks>(map: &Map<H>, at: Option<Spot>) -> Option<u64>
    requires { IfSome at (λ p. HasSpot map.now.nodes p) }
{
    match at {
        Some(spot) => Some(*map.key_at(spot)),
        None => None,
    }
}

/// Returns the spot of a key, and fails where it is not in list `i`.
fn spot_in<H: Hooks>(rt: &impl Abort, map: &Map<H>, i: usize, key: u64) -> Spot
    requires { i < H.count }
    ensures there { HasSpot map.now.nodes result }
    ensures in_list { is_in result (list_at i map.now.lists) ≡ true }
{
    let spot = map.find(&key).expect(rt, "the map has the key");
    assert!(rt; map.is_linked(i, spot));
    spot
}

/// Asserts what the map holds of a key.
fn key_holds<H: Hooks>(rt: &impl Abort, map: &Map<H>, plain: &Plain, key: u64) {
    let value = plain.value(key);
    let came = (map.get(&key).copied(), map.contains_key(&key));
    same(rt, came, (value, value.is_some()));
    let node = match map.find(&key) {
        Some(spot) => Some((*map.key_at(spot), *map.value_at(spot))),
        None => None,
    };
    same(rt, node, value.map(|it| (key, it)));
}

/// Asserts what list `i` holds: its ends, what stands beside each node, and which nodes are in it.
fn list_holds<H: Hooks>(rt: &impl Abort, map: &Map<H>, i: usize, plain: &Plain)
    requires { i < H.count }
{
    let keys = plain.list(i);
    same(
        rt,
        (key_of(map, map.front(i)), key_of(map, map.back(i))),
        (keys.first().copied(), keys.last().copied()),
    );
    for (at, key) in keys.iter().enumerate() {
        let spot = spot_in(rt, map, i, *key);
        same(
            rt,
            (
                key_of(map, map.prev(i, spot)),
                key_of(map, map.next(i, spot)),
            ),
            (
                keys.get(at.wrapping_sub(1)).copied(),
                keys.get(at.wrapping_add(1)).copied(),
            ),
        );
    }
    for key in plain.list(0) {
        let spot = spot_in(rt, map, 0, *key);
        same(rt, map.is_linked(i, spot), plain.has(i, *key));
    }
}

/// Asserts what the map and its lists hold. The last of the lists is list `last`.
pub fn holds<H: Hooks>(rt: &impl Abort, map: &Map<H>, last: usize, plain: &Plain)
    requires { last < H.count }
{
    let len = plain.nodes.len();
    same(rt, (map.len(), map.is_empty()), (len, len == 0));
    for key in 0..KEYS {
        key_holds(rt, map, plain, key);
    }
    for i in 0..plain.lists.len() {
        at_most(rt, i, last);
        list_holds(rt, map, i, plain);
    }
}

/// Links the node of a key at an end of list `i`, unless it is in that.
fn link_end<H: Hooks>(map: &mut Map<H>, i: usize, key: u64, is_back: bool) -> Reply
    requires { i < H.count }
{
    let Some(spot) = map.find(&key) else {
        return Reply::NotMade;
    };
    if map.is_linked(i, spot) {
        return Reply::NotMade;
    }
    if is_back {
        map.link_back(i, spot);
    } else {
        map.link_front(i, spot);
    }
    Reply::Done
}

/// Links the node of the first key beside that of the second in list `i`, unless it is in that, or the other is not.
fn link_beside<H: Hooks>(map: &mut Map<H>, i: usize, keys: (u64, u64), is_after: bool) -> Reply
    requires { i < H.count }
{
    let Some(spot) = map.find(&keys.0) else {
        return Reply::NotMade;
    };
    let Some(other) = map.find(&keys.1) else {
        return Reply::NotMade;
    };
    if map.is_linked(i, spot) || !map.is_linked(i, other) {
        return Reply::NotMade;
    }
    if is_after {
        map.link_after(i, spot, other);
    } else {
        map.link_before(i, spot, other);
    }
    Reply::Done
}

/// Links the node of a key in list `i` where the order of the values puts it, unless it is in that.
fn link_in_order<H: Hooks>(map: &mut Map<H>, i: usize, key: u64) -> Reply
    requires { i < H.count }
{
    let Some(spot) = map.find(&key) else {
        return Reply::NotMade;
    };
    if map.is_linked(i, spot) {
        return Reply::NotMade;
    }
    map.link_in_order(i, spot, &Least);
    Reply::Done
}

/// Moves the node of a key to an end of list `i`, if it is in that.
fn move_to_end<H: Hooks>(map: &mut Map<H>, i: usize, key: u64, is_back: bool) -> Reply
    requires { i < H.count }
{
    let Some(spot) = map.find(&key) else {
        return Reply::NotMade;
    };
    if !map.is_linked(i, spot) {
        return Reply::NotMade;
    }
    if is_back {
        map.move_to_back(i, spot);
    } else {
        map.move_to_front(i, spot);
    }
    Reply::Done
}

/// Takes the node of a key out of list `i`, unless that is list 0. `is_sure` requires that it is in the list.
fn unlink<H: Hooks>(map: &mut Map<H>, i: usize, key: u64, is_sure: bool) -> Reply
    requires { i < H.count }
{
    let Some(spot) = map.find(&key) else {
        return Reply::NotMade;
    };
    if i == 0 {
        return Reply::NotMade;
    }
    if !is_sure {
        map.ensure_unlinked(i, spot);
        return Reply::Done;
    }
    if !map.is_linked(i, spot) {
        return Reply::NotMade;
    }
    map.unlink(i, spot);
    Reply::Done
}

/// Takes the node of a key out of all lists but list 0.
fn unlink_others<H: Hooks>(map: &mut Map<H>, key: u64) -> Reply {
    let Some(spot) = map.find(&key) else {
        return Reply::NotMade;
    };
    map.unlink_others(spot);
    Reply::Done
}

/// Takes the first node of list `i` out of that, unless that is list 0.
fn unlink_front<H: Hooks>(map: &mut Map<H>, i: usize) -> Reply
    requires { i < H.count }
{
    if i == 0 {
        return Reply::NotMade;
    }
    let at = map.unlink_front(i);
    Reply::At(key_of(map, at))
}

/// Returns what came out.
fn out<H: Hooks>(node: Option<MapNode<u64, u64, H>>) -> Reply {
    let Some(node) = node else {
        return Reply::Out(None);
    };
    let number = node.id();
    let (key, value) = node.into_pair();
    Reply::Out(Some((number, key, value)))
}

/// Makes a call that moves nodes within a list or takes them out of one. The last of the lists is list `last`.
fn relink<H: Hooks>(rt: &impl Abort, map: &mut Map<H>, last: usize, call: Call) -> Reply
    requires { last < H.count }
{
    match call {
        Call::MoveToBack(i, key) => {
            at_most(rt, i, last);
            move_to_end(map, i, key, true)
        }
        Call::MoveToFront(i, key) => {
            at_most(rt, i, last);
            move_to_end(map, i, key, false)
        }
        Call::Unlink(i, key) => {
            at_most(rt, i, last);
            unlink(map, i, key, true)
        }
        Call::EnsureUnlinked(i, key) => {
            at_most(rt, i, last);
            unlink(map, i, key, false)
        }
        Call::UnlinkOthers(key) => unlink_others(map, key),
        Call::UnlinkFront(i) => {
            at_most(rt, i, last);
            unlink_front(map, i)
        }
        _ => Reply::NotMade,
    }
}

/// Makes a call that links nodes. The last of the lists is list `last`.
fn link<H: Hooks>(rt: &impl Abort, map: &mut Map<H>, last: usize, call: Call) -> Reply
    requires { last < H.count }
{
    match call {
        Call::LinkBack(i, key) => {
            at_most(rt, i, last);
            link_end(map, i, key, true)
        }
        Call::LinkFront(i, key) => {
            at_most(rt, i, last);
            link_end(map, i, key, false)
        }
        Call::LinkBefore(i, key, other) => {
            at_most(rt, i, last);
            link_beside(map, i, (key, other), false)
        }
        Call::LinkAfter(i, key, other) => {
            at_most(rt, i, last);
            link_beside(map, i, (key, other), true)
        }
        Call::LinkInOrder(i, key) => {
            at_most(rt, i, last);
            link_in_order(map, i, key)
        }
        _ => relink(rt, map, last, call),
    }
}

/// Makes a call, and returns its reply. The last of the lists is list `last`.
pub fn reply<H: Hooks>(
    rt: &impl Abort,
    alloc: Global,
    map: &mut Map<H>,
    last: usize,
    call: Call,
) -> Reply
    requires { last < H.count }
{
    match call {
        Call::Insert((number, key, value)) => {
            at_most(rt, map.len(), LONGEST);
            let node = made(rt, MapNode::new(alloc, number, key, value));
            let Inserted { spot, replaced } = map.insert(node);
            same(
                rt,
                (map.id(spot), *map.key_at(spot), *map.value_at(spot)),
                (number, key, value),
            );
            out(replaced)
        }
        Call::Remove(key) => out(map.remove(&key)),
        Call::RemoveAt(key) => match map.find(&key) {
            Some(spot) => out(Some(map.remove_at(spot))),
            None => Reply::NotMade,
        },
        Call::Find(key) => Reply::At(key_of(map, map.find(&key))),
        Call::Get(key) => Reply::Value(map.get(&key).copied()),
        Call::ContainsKey(key) => Reply::Has(map.contains_key(&key)),
        Call::Write(key, value) => match map.find(&key) {
            Some(spot) => {
                *map.value_at_mut(spot) = value;
                Reply::Done
            }
            None => Reply::NotMade,
        },
        Call::GetMut(key, value) => {
            let old = map.get(&key).copied();
            if let Some(it) = map.get_mut(&key) {
                *it = value;
            }
            Reply::Value(old)
        }
        Call::Rehash(capacity) => {
            made(rt, map.rehash(alloc, capacity));
            same(rt, map.bucket_count() >= capacity, true);
            Reply::Done
        }
        _ => link(rt, map, last, call),
    }
}
