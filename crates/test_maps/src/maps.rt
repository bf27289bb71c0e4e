//! Calls of maps one after the other, what they reply, nodes that are in no map, and hashes.
use crate::calls::Map;
use crate::compared::{at_most, made, same};
use crate::many_calls::agree;
use crate::plain::{Call, Plain, Reply};
use cordyceps_many::hooks::{One, Three, Two};
use cordyceps_map::map_node::MapNode;
use cordyceps_map::seeded::Seeded;
use cordyceps_map::stable_map::{Inserted, StableMap};
use std::alloc::Global;
use std::hash::BuildHasher;
use std::process::Abort;

/// Calls of a map of three lists that is empty at first, and what they reply.
const CALLS: &[(Call, Reply)] = &[
    (Call::Find(5), Reply::At(None)),
    (Call::Get(5), Reply::Value(None)),
    (Call::ContainsKey(5), Reply::Has(false)),
    (Call::Remove(5), Reply::Out(None)),
    (Call::UnlinkFront(1), Reply::At(None)),
    (Call::Rehash(1), Reply::Done),
    (Call::Insert((0, 5, 50)), Reply::Out(None)),
    (Call::Insert((1, 6, 60)), Reply::Out(None)),
    (Call::Insert((2, 7, 70)), Reply::Out(None)),
    (Call::Insert((3, 8, 80)), Reply::Out(None)),
    (Call::Find(7), Reply::At(Some(7))),
    (Call::Get(7), Reply::Value(Some(70))),
    (Call::ContainsKey(7), Reply::Has(true)),
    (Call::ContainsKey(9), Reply::Has(false)),
    (Call::Write(7, 77), Reply::Done),
    (Call::Write(9, 99), Reply::NotMade),
    (Call::Get(7), Reply::Value(Some(77))),
    // list 1 is 6 8 5 7
    (Call::LinkBack(1, 5), Reply::Done),
    (Call::LinkFront(1, 6), Reply::Done),
    (Call::LinkAfter(1, 7, 5), Reply::Done),
    (Call::LinkBefore(1, 8, 5), Reply::Done),
    // a node is in a list once, and one that is not in the map is in none
    (Call::LinkBack(1, 8), Reply::NotMade),
    (Call::LinkFront(0, 8), Reply::NotMade),
    (Call::LinkBefore(2, 8, 5), Reply::NotMade),
    (Call::LinkBack(1, 9), Reply::NotMade),
    // list 2 is 8 7
    (Call::LinkBack(2, 8), Reply::Done),
    (Call::LinkAfter(2, 7, 8), Reply::Done),
    // the table has no part in the lists
    (Call::Rehash(64), Reply::Done),
    (Call::Rehash(0), Reply::Done),
    // a node is replaced by one that comes last in list 0, and is in no other
    (Call::Insert((4, 6, 61)), Reply::Out(Some((1, 6, 60)))),
    (Call::Get(6), Reply::Value(Some(61))),
    (Call::Unlink(1, 6), Reply::NotMade),
    (Call::EnsureUnlinked(1, 6), Reply::Done),
    // list 1 is 8 5 7, and then 5 7 8, 7 5 8 and 7 8
    (Call::MoveToBack(1, 8), Reply::Done),
    (Call::MoveToFront(1, 7), Reply::Done),
    (Call::Unlink(1, 5), Reply::Done),
    (Call::UnlinkFront(1), Reply::At(Some(7))),
    (Call::UnlinkFront(2), Reply::At(Some(8))),
    (Call::UnlinkOthers(7), Reply::Done),
    (Call::UnlinkFront(2), Reply::At(None)),
    // list 1 is 8, and list 0 is 5 7 8 6, and then 7 8 6 5 and 6 7 8 5
    (Call::MoveToBack(0, 5), Reply::Done),
    (Call::MoveToFront(0, 6), Reply::Done),
    (Call::Remove(8), Reply::Out(Some((3, 8, 80)))),
    (Call::UnlinkFront(1), Reply::At(None)),
    (Call::RemoveAt(6), Reply::Out(Some((4, 6, 61)))),
    (Call::RemoveAt(6), Reply::NotMade),
    (Call::Remove(5), Reply::Out(Some((0, 5, 50)))),
    (Call::Remove(7), Reply::Out(Some((2, 7, 77)))),
    (Call::Remove(7), Reply::Out(None)),
    // a map that has become empty goes on
    (Call::Insert((5, 7, 71)), Reply::Out(None)),
    (Call::Insert((6, 7, 72)), Reply::Out(Some((5, 7, 71)))),
    // list 1 is 8, and then 7 8, 7 9 8 and 5 7 9 8: by the values, which are 80, 72, 72 and 51
    (Call::Insert((7, 8, 80)), Reply::Out(None)),
    (Call::Insert((8, 9, 72)), Reply::Out(None)),
    (Call::Insert((9, 5, 51)), Reply::Out(None)),
    (Call::LinkInOrder(1, 8), Reply::Done),
    (Call::LinkInOrder(1, 7), Reply::Done),
    (Call::LinkInOrder(1, 9), Reply::Done),
    (Call::LinkInOrder(1, 5), Reply::Done),
    (Call::LinkInOrder(1, 9), Reply::NotMade),
    (Call::LinkInOrder(2, 6), Reply::NotMade),
    (Call::UnlinkFront(1), Reply::At(Some(5))),
    (Call::UnlinkFront(1), Reply::At(Some(7))),
    (Call::UnlinkFront(1), Reply::At(Some(9))),
    (Call::UnlinkFront(1), Reply::At(Some(8))),
    (Call::GetMut(9, 90), Reply::Value(Some(72))),
    (Call::Get(9), Reply::Value(Some(90))),
    (Call::GetMut(6, 60), Reply::Value(None)),
    (Call::Get(6), Reply::Value(None)),
];

/// Makes the calls of the table with a map of at least so many buckets, which hashes by these two numbers.
fn calls_reply(rt: &impl Abort, alloc: Global, buckets: usize, numbers: (u64, u64)) {
    let hasher = Seeded::new(numbers.0, numbers.1);
    let mut map: Map<Three> = made(rt, StableMap::with_capacity(alloc, buckets, hasher));
    same(
        rt,
        (map.len(), map.is_empty(), map.bucket_count() >= buckets),
        (0, true, true),
    );
    let mut plain = Plain::new(rt, alloc, 3);
    for (call, wanted) in CALLS {
        let came = agree(rt, alloc, &mut map, 2, &mut plain, *call);
        same(rt, came, *wanted);
    }
}

#[test]
fn calls_reply_and_leave_what_they_should(rt: HostRuntime) {
    calls_reply(&rt, rt.alloc(), 16, (1, 2));
}

#[test]
fn two_maps_of_the_same_numbers_agree(rt: HostRuntime) {
    calls_reply(&rt, rt.alloc(), 3, (8, 9));
    calls_reply(&rt, rt.alloc(), 3, (8, 9));
}

#[test]
fn calls_reply_the_same_where_all_keys_collide(rt: HostRuntime) {
    calls_reply(&rt, rt.alloc(), 1, (1, 2));
    calls_reply(&rt, rt.alloc(), 0, (3, u64::MAX));
}

/// Keys, the two numbers that each is hashed by, and its SipHash-1-3, which a program of another language told.
const HASHES: &[(u64, (u64, u64), u64)] = &[
    (7, (1, 2), 2859619566211953181),
    (7, (2, 1), 16461421045576994136),
    (8, (1, 2), 14710809811109249645),
    (0, (0, 0), 13646096770106105413),
];

#[test]
fn a_hash_is_that_of_the_two_numbers(rt: HostRuntime) {
    for (key, numbers, wanted) in HASHES {
        let hasher = Seeded::new(numbers.0, numbers.1);
        same(
            &rt,
            (hasher.hash_one(key), hasher.hash_one(key)),
            (*wanted, *wanted),
        );
    }
}

#[test]
fn a_node_keeps_its_number_its_key_and_its_value(rt: HostRuntime) {
    let node: MapNode<u64, u64, One> = made(&rt, MapNode::new(rt.alloc(), 4, 40, 41));
    same(&rt, (node.id(), *node.key(), *node.value()), (4, 40, 41));
    let mut map = made(
        &rt,
        StableMap::with_capacity(rt.alloc(), 1, Seeded::new(0, 0)),
    );
    let spot = map.insert(node).spot;
    same(&rt, map.id(spot), 4);
    let node = map.remove_at(spot);
    same(&rt, (node.id(), *node.key(), *node.value()), (4, 40, 41));
    same(&rt, node.into_pair(), (40, 41));
}

/// Returns a text of its own.
fn text(rt: &impl Abort, alloc: Global, of: &str) -> String {
    made(rt, String::from_str(alloc, of))
}

#[test]
fn texts_are_keys(rt: HostRuntime) {
    let alloc = rt.alloc();
    let mut map: StableMap<String, u64, Two, Seeded> = made(
        &rt,
        StableMap::with_capacity(alloc, 2, Seeded::new(5, 6)),
    );
    for (number, word) in ["one", "two", "", "a longer text", "two"]
        .iter()
        .enumerate()
    {
        let value = number as u64;
        at_most(&rt, map.len(), 5);
        let node = made(
            &rt,
            MapNode::new(alloc, value, text(&rt, alloc, word), value),
        );
        let Inserted { spot, replaced } = map.insert(node);
        same(&rt, map.key_at(spot).as_str(), word);
        same(&rt, replaced.is_some(), number == 4);
    }
    same(&rt, map.len(), 4);
    for (word, wanted) in [
        ("one", Some(0)),
        ("two", Some(4)),
        ("", Some(2)),
        ("tw", None),
    ] {
        same(&rt, map.get(&text(&rt, alloc, word)).copied(), wanted);
    }
    let node = map
        .remove(&text(&rt, alloc, "a longer text"))
        .expect(&rt, "the map has the key");
    same(&rt, node.key().as_str(), "a longer text");
    same(&rt, node.into_pair().1, 3);
    same(
        &rt,
        map.contains_key(&text(&rt, alloc, "a longer text")),
        false,
    );
}
