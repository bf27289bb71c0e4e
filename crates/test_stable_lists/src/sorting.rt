//! Sorts and merges of lists, by each kind of order, and lists of what a heap holds.
use crate::compared::{at_most, made, same};
use crate::heap_calls::push_all;
use crate::keys::{Key, Pair, make, parts};
use crate::sorted_lists::{by_tens, tens_of};
use cordyceps_base::linked::Linked;
use cordyceps_heap::sorting::{
    merge, merge_with_order, sort, sort_by, sort_by_key, sort_with_order,
};
use cordyceps_heap::stable_heap::StableHeap;
use cordyceps_list::list::{Links, List};
use cordyceps_single::sorted_list::Greatest;
use std::alloc::Global;
use std::process::Abort;
use test_support::draws::Draws;

/// No list of a test is longer.
const LONGEST: usize = 10_000;

/// Drawn keys are below this, so that a list has most of them many times.
const KEYS: u64 = 300;

/// Lists, and what they are once they are sorted. Numbers tell elements with equal keys apart.
const LISTS: &[(&[Pair], &[Pair])] = &[
    (&[], &[]),
    (&[(1, 7)], &[(1, 7)]),
    // equals
    (&[(1, 4), (2, 4), (3, 4)], &[(1, 4), (2, 4), (3, 4)]),
    // in order already, and the other way round
    (&[(1, 2), (2, 3), (3, 5)], &[(1, 2), (2, 3), (3, 5)]),
    (&[(1, 5), (2, 3), (3, 2)], &[(3, 2), (2, 3), (1, 5)]),
    // equals among others
    (
        &[(1, 5), (2, 3), (3, 5), (4, 1), (5, 3)],
        &[(4, 1), (2, 3), (5, 3), (1, 5), (3, 5)],
    ),
];

/// Sorted lists, others, and what both are once they are merged.
const MERGES: &[(&[Pair], &[Pair], &[Pair])] = &[
    (&[], &[], &[]),
    (&[(1, 7)], &[], &[(1, 7)]),
    (&[], &[(1, 7)], &[(1, 7)]),
    // one list after the other
    (&[(1, 2), (2, 3)], &[(3, 4)], &[(1, 2), (2, 3), (3, 4)]),
    (&[(1, 4)], &[(2, 2), (3, 3)], &[(2, 2), (3, 3), (1, 4)]),
    // equals of the first list come first
    (
        &[(1, 2), (2, 4), (3, 4)],
        &[(4, 1), (5, 2), (6, 4), (7, 5)],
        &[(4, 1), (1, 2), (5, 2), (2, 4), (3, 4), (6, 4), (7, 5)],
    ),
];

/// Returns a list of these elements.
pub fn listed(rt: &impl Abort, alloc: Global, pairs: &[Pair]) -> List<Key> {
    let mut list = List::new();
    for pair in pairs {
        at_most(rt, list.len(), LONGEST);
        list.push_back(make(rt, alloc, *pair));
    }
    list
}

/// Returns a list of `count` elements, whose keys are drawn, and whose numbers are 0, 1, 2 and so on.
pub fn drawn(rt: &impl Abort, alloc: Global, count: u64) -> List<Key> {
    let mut draws = Draws::new(1);
    let mut list = List::new();
    for number in 0..count {
        let key = draws.below(KEYS);
        at_most(rt, list.len(), LONGEST);
        list.push_back(make(rt, alloc, (number, key)));
    }
    list
}

/// Asserts the elements of a list.
fn holds(rt: &impl Abort, mut list: List<Key>, pairs: &[Pair]) {
    same(rt, list.len(), pairs.len());
    for pair in pairs {
        same(rt, parts(list.pop_front()), Some(*pair));
    }
}

#[test]
fn sorts_keep_equals_in_their_order(rt: HostRuntime) {
    for (pairs, wanted) in LISTS {
        let mut list = listed(&rt, rt.alloc(), pairs);
        sort(&mut list);
        holds(&rt, list, wanted);
    }
}

#[test]
fn sorts_go_by_any_order(rt: HostRuntime) {
    let mut list = listed(&rt, rt.alloc(), &[(1, 5), (2, 3), (3, 5), (4, 1), (5, 3)]);
    sort_with_order(&mut list, &Greatest);
    holds(&rt, list, &[(1, 5), (3, 5), (2, 3), (5, 3), (4, 1)]);
    let pairs = [(1, 21), (2, 11), (3, 12), (4, 20)];
    let rising = [(2, 11), (3, 12), (1, 21), (4, 20)];
    let mut list = listed(&rt, rt.alloc(), &pairs);
    sort_by(&mut list, by_tens);
    holds(&rt, list, &rising);
    let mut list = listed(&rt, rt.alloc(), &pairs);
    sort_by_key(&mut list, tens_of);
    holds(&rt, list, &rising);
}

/// Sorts two lists, and merges the second into the first.
fn sort_and_merge<T: Linked<Links<T>> + Ord>(
    rt: &impl Abort,
    list: &mut List<T>,
    other: &mut List<T>,
) {
    sort(list);
    sort(other);
    at_most(rt, list.len(), LONGEST);
    at_most(rt, other.len(), LONGEST);
    merge(list, other);
}

#[test]
fn merges_keep_equals_in_their_order(rt: HostRuntime) {
    for (pairs, more, wanted) in MERGES {
        let mut list = listed(&rt, rt.alloc(), pairs);
        let mut other = listed(&rt, rt.alloc(), more);
        sort_and_merge(&rt, &mut list, &mut other);
        holds(&rt, list, wanted);
        holds(&rt, other, &[]);
    }
}

#[test]
fn a_merge_goes_by_any_order(rt: HostRuntime) {
    let mut list = listed(&rt, rt.alloc(), &[(1, 5), (2, 3)]);
    let mut other = listed(&rt, rt.alloc(), &[(3, 1), (4, 5), (5, 4)]);
    sort_with_order(&mut list, &Greatest);
    sort_with_order(&mut other, &Greatest);
    at_most(&rt, list.len(), LONGEST);
    at_most(&rt, other.len(), LONGEST);
    merge_with_order(&mut list, &mut other, &Greatest);
    holds(&rt, list, &[(1, 5), (4, 5), (5, 4), (2, 3), (3, 1)]);
    holds(&rt, other, &[]);
}

#[test]
fn many_elements_are_sorted_as_a_vector_is(rt: HostRuntime) {
    let mut list = drawn(&rt, rt.alloc(), 1000);
    let mut wanted = Vec::new(rt.alloc());
    for key in list.iter() {
        let number = wanted.len() as u64;
        made(&rt, wanted.push((key.value, number)));
    }
    sort(&mut list);
    made(&rt, wanted.sort());
    for (key, number) in &wanted {
        same(&rt, parts(list.pop_front()), Some((*number, *key)));
    }
    same(&rt, list.len(), 0);
}

#[test]
fn a_heap_becomes_a_list(rt: HostRuntime) {
    for (pairs, wanted) in LISTS {
        let mut heap = StableHeap::new_min();
        push_all(&rt, rt.alloc(), &mut heap, pairs);
        holds(&rt, heap.into_list(), wanted);
    }
}
