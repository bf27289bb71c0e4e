//! What a spot tells while a program runs: whether it is at an end of its list, and nothing of its address.
use crate::compared::{made, same};
use crate::keys::{Key, ONE, TWO, make, spot_at};
use crate::sorted_calls::keys_of;
use cordyceps_stable::stable_list::StableList;
use std::alloc::Global;
use std::process::Abort;
use test_support::counted::{Counted, Drops, counted_node};

#[test]
fn a_spot_tells_the_ends(rt: HostRuntime) {
    let mut list: StableList<Key> = StableList::new();
    let first = list.push_back(make(&rt, rt.alloc(), ONE));
    let second = list.push_back(make(&rt, rt.alloc(), TWO));
    same(
        &rt,
        (list.is_first(first), list.is_last(second)),
        (true, true),
    );
    same(
        &rt,
        (list.is_last(first), list.is_first(second)),
        (false, false),
    );
}

#[test]
fn a_spot_prints_no_address(rt: HostRuntime) {
    let mut list: StableList<Key> = StableList::new();
    let spot = list.push_back(make(&rt, rt.alloc(), ONE));
    let text = made(&rt, format!(in rt.alloc(); "{spot:?}"));
    same(&rt, text.as_str(), "Spot { .. }");
}

#[test]
fn a_spot_of_a_sorted_list_tells_the_ends(rt: HostRuntime) {
    let list = keys_of(&rt, rt.alloc(), &[(1, 5), (2, 3), (3, 4)]);
    for (place, wanted) in [
        (0usize, (true, false)),
        (1, (false, false)),
        (2, (false, true)),
    ] {
        let spot = spot_at(&rt, list.cursor_front(), place);
        same(&rt, (list.is_first(spot), list.is_last(spot)), wanted);
    }
}

/// Asserts that a sorted list holds nothing once it is cleared.
fn clears_sorted(rt: &impl Abort, alloc: Global) {
    let mut sorted = keys_of(rt, alloc, &[(1, 5), (2, 3)]);
    sorted.clear();
    same(rt, (sorted.len(), sorted.front().is_none()), (0, true));
}

#[test]
fn clear_drops_each_element_once(rt: HostRuntime) {
    let drops = made(&rt, Drops::new(rt.alloc()));
    let mut list: StableList<Counted> = StableList::new();
    list.push_back(made(&rt, counted_node(rt.alloc(), 1, 1, &drops)));
    list.push_back(made(&rt, counted_node(rt.alloc(), 2, 2, &drops)));
    list.clear();
    same(&rt, (list.len(), drops.count()), (0, 2));
    list.clear();
    list.push_back(made(&rt, counted_node(rt.alloc(), 3, 3, &drops)));
    same(&rt, (list.len(), drops.count()), (1, 2));
    clears_sorted(&rt, rt.alloc());
}
