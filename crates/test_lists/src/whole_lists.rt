//! Iterators from both ends, and lists that are split and put together again.
use crate::compared::{at_most, same};
use crate::items::{has_number, holds, list_of, raises, shows};
use cordyceps_base::steps::Steps;
use cordyceps_list::list::List;
use std::alloc::Global;
use std::process::Abort;
use test_support::items::Item;

#[test]
fn iterators_know_how_many_are_left(rt: HostRuntime) {
    let list = list_of(&rt, rt.alloc(), &[1, 2, 3, 4]);
    let mut left = list.iter();
    shows(&rt, left.next(), Some(1));
    shows(&rt, left.next_back(), Some(4));
    same(&rt, left.len(), 2);
    let mut nodes = list.into_iter();
    has_number(&rt, nodes.next(), Some(1));
    has_number(&rt, nodes.next_back(), Some(4));
    same(&rt, nodes.len(), 2);
}

/// Adds ten to each value of a list of four, from the back down to a place, and then from the front up to it. The first
/// sum is given, and each further one is greater by one.
fn raises_from_both_ends(rt: &impl Abort, list: &mut List<Item>, met: u64, first: u64) {
    let mut left = list.iter_mut();
    same(rt, left.len(), 4);
    for at in (met..4).rev() {
        raises(rt, left.next_back(), Some(first.wrapping_add(at)));
    }
    for at in 0..met {
        raises(rt, left.next(), Some(first.wrapping_add(at)));
    }
    raises(rt, left.next_back(), None);
    raises(rt, left.next(), None);
    same(rt, left.len(), 0);
}

/// Adds ten to each value of a list by a cursor.
fn raises_by_cursor(rt: &impl Abort, list: &mut List<Item>, sums: &[u64]) {
    let mut cursor = list.cursor_front_mut();
    same(rt, (cursor.len(), cursor.is_empty()), (sums.len(), false));
    for sum in sums {
        raises(rt, cursor.next(), Some(*sum));
    }
    raises(rt, cursor.next(), None);
    same(rt, cursor.index(), None);
}

#[test]
fn each_walk_sees_what_the_last_one_wrote(rt: HostRuntime) {
    let mut list = list_of(&rt, rt.alloc(), &[1, 2, 3, 4]);
    for (met, first) in [(0u64, 11), (1, 21), (2, 31), (3, 41), (4, 51)] {
        raises_from_both_ends(&rt, &mut list, met, first);
    }
    raises_by_cursor(&rt, &mut list, &[61, 62, 63, 64]);
    holds(&rt, &list, &[61, 62, 63, 64]);
}

/// The items of the lists that the next function splits.
const ALL: [u64; 5] = [1, 2, 3, 4, 5];

/// Splits a list of the items 1 to 5 at a place, in this many moves, and makes one of both parts again.
fn splits_and_extends(rt: &impl Abort, alloc: Global, at: usize, moves: u64) {
    at_most(rt, at, 5);
    let mut list = list_of(rt, alloc, &ALL);
    at_most(rt, list.len(), 5);
    let mut steps = Steps::new();
    let Some(rest) = list.try_split_off_in(at, &mut steps) else {
        panic!(rt; "{at} is at most the length");
    };
    same(rt, (at, steps.count()), (at, moves));
    holds(rt, &list, &ALL[..at]);
    holds(rt, &rest, &ALL[at..]);
    at_most(rt, list.len(), 5);
    at_most(rt, rest.len(), 5);
    list.extend(rest.into_iter());
    holds(rt, &list, &ALL);
    at_most(rt, list.len(), 5);
    let copy = List::from_iter(list.into_iter());
    holds(rt, &copy, &ALL);
}

#[test]
fn splits_everywhere(rt: HostRuntime) {
    for (at, moves) in [(0usize, 0u64), (1, 0), (2, 1), (3, 2), (4, 1), (5, 0)] {
        splits_and_extends(&rt, rt.alloc(), at, moves);
    }
}
