//! Spots that a caller keeps. What the calls promise shows that they are valid, so no test here has a proof file.
use crate::compared::{at_most, same};
use crate::keys::{Key, ONE, Pair, THREE, TWO, make, parts};
use crate::sorted_calls::{Keys, LONGEST};
use cordyceps_stable::stable_list::StableList;
use cordyceps_stable::stable_sorted_list::StableSortedList;
use std::process::Abort;

/// Asserts which elements came out, one after the other.
fn came_out(rt: &impl Abort, came: (Option<Pair>, Option<Pair>), pairs: (Pair, Pair)) {
    same(rt, came, (Some(pairs.0), Some(pairs.1)));
}

#[test]
fn the_later_spot_is_removed_first(rt: HostRuntime) {
    let mut list: StableList<Key> = StableList::new();
    let first = list.push_back(make(&rt, rt.alloc(), ONE));
    let second = list.push_back(make(&rt, rt.alloc(), TWO));
    same(&rt, list.is_last(second), true);
    let two = parts(Some(list.remove(second)));
    let one = parts(Some(list.remove(first)));
    came_out(&rt, (two, one), (TWO, ONE));
}

#[test]
fn the_earlier_spot_is_removed_first(rt: HostRuntime) {
    let mut list: StableList<Key> = StableList::new();
    let first = list.push_back(make(&rt, rt.alloc(), ONE));
    let second = list.push_back(make(&rt, rt.alloc(), TWO));
    let one = parts(Some(list.remove(first)));
    let two = parts(Some(list.remove(second)));
    came_out(&rt, (one, two), (ONE, TWO));
}

#[test]
fn a_moved_spot_is_removed(rt: HostRuntime) {
    let mut list: StableList<Key> = StableList::new();
    let first = list.push_front(make(&rt, rt.alloc(), ONE));
    let second = list.insert_after(first, make(&rt, rt.alloc(), TWO));
    list.move_to_front(second);
    same(&rt, list.is_first(second), true);
    list.move_after(second, first);
    let two = parts(Some(list.remove(second)));
    let one = parts(Some(list.remove(first)));
    came_out(&rt, (two, one), (TWO, ONE));
}

#[test]
fn a_spot_outlasts_what_is_replaced_and_popped(rt: HostRuntime) {
    let mut list: StableList<Key> = StableList::new();
    let first = list.push_back(make(&rt, rt.alloc(), ONE));
    let second = list.push_back(make(&rt, rt.alloc(), TWO));
    let (one, third) = list.replace(first, make(&rt, rt.alloc(), THREE));
    list.move_to_front(third);
    if !list.is_first(second) {
        came_out(
            &rt,
            (parts(Some(one)), parts(list.pop_front())),
            (ONE, THREE),
        );
        same(&rt, parts(Some(list.remove(second))), Some(TWO));
    }
    same(&rt, list.len(), 0);
}

#[test]
fn a_spot_of_an_appended_list_is_removed(rt: HostRuntime) {
    let mut list: StableList<Key> = StableList::new();
    let mut other: StableList<Key> = StableList::new();
    let first = list.push_back(make(&rt, rt.alloc(), ONE));
    let second = other.push_back(make(&rt, rt.alloc(), TWO));
    list.append(&mut other);
    let one = parts(Some(list.remove(first)));
    let two = parts(Some(list.remove(second)));
    came_out(&rt, (one, two), (ONE, TWO));
}

#[test]
fn a_kept_spot_of_a_sorted_list_is_removed(rt: HostRuntime) {
    let mut list: Keys = StableSortedList::new_min();
    let second = list.insert(make(&rt, rt.alloc(), TWO));
    let first = list.insert(make(&rt, rt.alloc(), ONE));
    same(&rt, list.is_first(first), true);
    list.update(first, |key| key.value = 21);
    let two = parts(Some(list.remove(second)));
    let one = parts(Some(list.remove(first)));
    came_out(&rt, (two, one), (TWO, (1, 21)));
}

#[test]
fn a_spot_of_a_joined_sorted_list_is_removed(rt: HostRuntime) {
    let mut list: Keys = StableSortedList::new_min();
    let mut other: Keys = StableSortedList::new_min();
    list.insert(make(&rt, rt.alloc(), ONE));
    let second = other.insert(make(&rt, rt.alloc(), TWO));
    at_most(&rt, list.len(), LONGEST);
    at_most(&rt, other.len(), LONGEST);
    list.append(&mut other);
    let mut plain = list.into_stable_list();
    same(&rt, parts(Some(plain.remove(second))), Some(TWO));
    same(&rt, plain.len(), 1);
}
