//! What the laws' functions show, and elements removed from both ends in turn.
use crate::compared::same;
use crate::items::{has_number, holds, item, list_of};
use cordyceps_list::laws::{
    append_split_off, pop_pushed_back, pop_pushed_front, take_from_both_ends,
};
use cordyceps_list::list::List;
use test_support::items::{Item, value};

/// Turns of an iterator over the items 1 to 4, those taken from the front, how many are left, and those taken from the
/// back.
const TAKEN: [(&[bool], &[u64], usize, &[u64]); 4] = [
    (&[], &[], 4, &[]),
    (&[true], &[1], 3, &[]),
    (&[true, false, false], &[1], 1, &[3, 4]),
    (&[true, false, false, true, true], &[1, 2], 0, &[3, 4]),
];

#[test]
fn takes_each_element_once(rt: HostRuntime) {
    for (turns, firsts, left, lasts) in TAKEN {
        let list = list_of(&rt, rt.alloc(), &[1, 2, 3, 4]);
        let (before, rest, after) = take_from_both_ends(list, turns);
        holds(&rt, &before, firsts);
        same(&rt, rest.len(), left);
        holds(&rt, &after, lasts);
    }
}

/// Returns the values at the ends of a list.
fn ends_of(list: &List<Item>) -> (Option<u64>, Option<u64>) {
    (value(list.front()), value(list.back()))
}

#[test]
fn shows_the_list_between_two_calls(rt: HostRuntime) {
    let mut list = list_of(&rt, rt.alloc(), &[1, 2, 3]);
    assert!(&rt; list.len() == 3);
    let (ends, popped) = pop_pushed_front(&mut list, item(&rt, rt.alloc(), 8), ends_of);
    same(&rt, ends, (Some(8), Some(3)));
    has_number(&rt, popped, Some(8));
    let (ends, popped) = pop_pushed_back(&mut list, item(&rt, rt.alloc(), 9), ends_of);
    same(&rt, ends, (Some(1), Some(9)));
    has_number(&rt, popped, Some(9));
    let lens = append_split_off(&mut list, 1, |kept: &List<Item>, rest: &List<Item>| {
        (kept.len(), rest.len())
    });
    same(&rt, lens, (1, 2));
    holds(&rt, &list, &[1, 2, 3]);
}
