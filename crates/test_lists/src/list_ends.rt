//! Pushes that may be refused, values written at the ends of lists, and drops.
use crate::compared::{made, same};
use crate::items::has_place;
use cordyceps_list::list::List;
use std::alloc::Global;
use std::process::Abort;
use test_support::counted::{Counted, Drops, counted_node};
use test_support::nodes::number;

/// Returns a list of the elements 1, 2 and 3, each pushed to the back.
fn one_to_three(rt: &impl Abort, alloc: Global, drops: &Drops) -> List<Counted> {
    let mut list: List<Counted> = List::default();
    for id in 1..4u64 {
        has_place(rt, list.len());
        list.push_back(made(rt, counted_node(alloc, id, id, drops)));
    }
    list
}

#[test]
fn tries_to_push_at_both_ends(rt: HostRuntime) {
    let drops = made(&rt, Drops::new(rt.alloc()));
    let mut list = one_to_three(&rt, rt.alloc(), &drops);
    let first = made(&rt, counted_node(rt.alloc(), 7, 70, &drops));
    let last = made(&rt, counted_node(rt.alloc(), 8, 80, &drops));
    same(&rt, list.try_push_front(first).is_ok(), true);
    same(&rt, list.try_push_back(last).is_ok(), true);
    same(&rt, drops.count(), 0);
    for want in [7u64, 1, 2, 3] {
        same(&rt, number(list.pop_front()), Some(want));
    }
    same(&rt, number(list.pop_back()), Some(8));
    same(&rt, drops.count(), 5);
    same(&rt, list.is_empty(), true);
}

#[test]
fn a_drop_frees_each_element_once(rt: HostRuntime) {
    let drops = made(&rt, Drops::new(rt.alloc()));
    let mut list: List<Counted> = List::new();
    for _ in 0..1000u64 {
        has_place(&rt, list.len());
        list.push_front(made(&rt, counted_node(rt.alloc(), 1, 1, &drops)));
    }
    drop(list);
    same(&rt, drops.count(), 1000);
}

/// Writes values that count their drops elsewhere to both ends of a list.
fn set_ends(rt: &impl Abort, list: &mut List<Counted>, drops: &Drops) {
    if let Some(value) = list.front_mut() {
        *value = made(rt, Counted::new(0, drops));
    }
    if let Some(value) = list.back_mut() {
        *value = made(rt, Counted::new(0, drops));
    }
}

#[test]
fn lends_its_ends(rt: HostRuntime) {
    let written = made(&rt, Drops::new(rt.alloc()));
    let others = made(&rt, Drops::new(rt.alloc()));
    let mut list = one_to_three(&rt, rt.alloc(), &others);
    set_ends(&rt, &mut list, &written);
    same(&rt, (written.count(), others.count()), (0, 2));
    same(&rt, number(list.pop_front()), Some(1));
    same(&rt, (written.count(), others.count()), (1, 2));
    same(&rt, number(list.pop_back()), Some(3));
    same(&rt, (written.count(), others.count()), (2, 2));
    drop(list);
    same(&rt, (written.count(), others.count()), (2, 3));
}
