//! How often lists and heaps drop what they hold, and what was removed from them. Those that are sorted have an order
//! of the caller's.
ghost use Rattle.std.specs.Prelude.{◌≡◌, refl, ⊤};
ghost use Rattle.std.specs.Ordering.{nat_cmp};
ghost use Rattle.std.proofs.Common.{subst, sym};
ghost use Rattle.test_stable_lists.specs.ByNumber.{by_number_lawful};
ghost use Rattle.cordyceps_single.specs.Preorder.{IsPreorder};

use crate::compared::{at_most, made, same};
use crate::keys::spot_at;
use cordyceps_base::node::Node;
use cordyceps_heap::stable_heap::StableHeap;
use cordyceps_list::list::Links;
use cordyceps_single::sorted_list::Order;
use cordyceps_stable::stable_list::StableList;
use cordyceps_stable::stable_sorted_list::StableSortedList;
use std::alloc::Global;
use std::cmp::Ordering;
use std::process::Abort;
use test_support::counted::{Counted, Drops, counted_node};

/// The order of the values.
#[derive(Drop)]
struct ByValue;

impl Order<Counted> for ByValue {
    ghost use Rattle.test_support.specs.declared.counted.Counted.{Counted};

    ghost compares_by = { λ _ cmp. cmp ≡ (λ x y. nat_cmp x.value y.value) };

    ghost computes = { λ _ _. ((λ x y. nat_cmp x.value y.value), refl) };

    ghost lawful = { λ _ cmp e. subst IsPreorder (sym e) (by_number_lawful (λ (x : Counted). x.value)) };

    fn compare(&self, first: &Counted, second: &Counted) -> Ordering {
        first.value.cmp(&second.value)
    }
}

/// Returns a sorted list of the elements with these values, which are their numbers too.
fn counted(
    rt: &impl Abort,
    alloc: Global,
    values: &[u64],
    drops: &Drops,
) -> StableSortedList<Counted, ByValue> {
    let mut list = StableSortedList::new_with_order(ByValue);
    for value in values {
        at_most(rt, list.len(), 100);
        list.insert(made(rt, counted_node(alloc, *value, *value, drops)));
    }
    list
}

/// Asserts that an element with this number is dropped once.
pub fn drops_one(rt: &impl Abort, node: Node<Counted, Links<Counted>>, number: u64, drops: &Drops) {
    let before = drops.count();
    same(rt, node.id(), number);
    drop(node);
    same(rt, drops.count(), before.wrapping_add(1));
}

#[test]
fn a_sorted_list_drops_each_element_once(rt: HostRuntime) {
    let drops = made(&rt, Drops::new(rt.alloc()));
    let mut list = counted(&rt, rt.alloc(), &[6, 2, 4, 1, 3, 5], &drops);
    for (place, number) in [(0usize, 1u64), (2, 4), (3, 6)] {
        let spot = spot_at(&rt, list.cursor_front(), place);
        drops_one(&rt, list.remove(spot), number, &drops);
    }
    let mut other = counted(&rt, rt.alloc(), &[2, 1, 4], &drops);
    let spot = spot_at(&rt, other.cursor_front(), 0);
    other.update(spot, |counted| counted.value = 9);
    same(&rt, (list.len(), other.len(), drops.count()), (3, 3, 3));
    at_most(&rt, list.len(), 3);
    at_most(&rt, other.len(), 3);
    list.append(&mut other);
    drop(other);
    same(&rt, (list.len(), drops.count()), (6, 3));
    drop(list);
    same(&rt, drops.count(), 9);
}

/// Returns the list of the elements 2, 1, 3, 4 and 5, which is made of two that were sorted.
fn joined(rt: &impl Abort, alloc: Global, drops: &Drops) -> StableList<Counted> {
    let sorted = counted(rt, alloc, &[3, 1, 2], drops);
    let second = spot_at(rt, sorted.cursor_front(), 1);
    let mut list = sorted.into_stable_list();
    same(rt, list.get(second).value, 2);
    list.move_to_front(second);
    let mut other = counted(rt, alloc, &[5, 4], drops).into_stable_list();
    at_most(rt, list.len(), 3);
    at_most(rt, other.len(), 2);
    list.append(&mut other);
    list
}

#[test]
fn a_stable_list_drops_each_element_once(rt: HostRuntime) {
    let drops = made(&rt, Drops::new(rt.alloc()));
    let mut list = joined(&rt, rt.alloc(), &drops);
    let fourth = spot_at(&rt, list.cursor_front(), 3);
    drops_one(&rt, list.remove(fourth), 4, &drops);
    let mut list = list.into_list();
    let first = list.pop_front().expect(&rt, "four elements are left");
    drops_one(&rt, first, 2, &drops);
    same(&rt, (list.len(), drops.count()), (3, 2));
    drop(StableList::from_list(list));
    same(&rt, drops.count(), 5);
}

/// Returns a heap of the elements with these values, which are their numbers too.
fn counted_heap(
    rt: &impl Abort,
    alloc: Global,
    values: &[u64],
    drops: &Drops,
) -> StableHeap<Counted, ByValue> {
    let mut heap = StableHeap::new_with_order(ByValue);
    for value in values {
        at_most(rt, heap.len(), 100);
        heap.push(made(rt, counted_node(alloc, *value, *value, drops)));
    }
    heap
}

#[test]
fn a_heap_drops_each_element_once(rt: HostRuntime) {
    let drops = made(&rt, Drops::new(rt.alloc()));
    let mut heap = counted_heap(&rt, rt.alloc(), &[6, 2, 4, 1, 3, 5], &drops);
    let first = heap.pop_front().expect(&rt, "six elements are there");
    drops_one(&rt, first, 1, &drops);
    at_most(&rt, heap.len(), 5);
    let spot = heap.push(made(&rt, counted_node(rt.alloc(), 9, 9, &drops)));
    drops_one(&rt, heap.remove(spot), 9, &drops);
    at_most(&rt, heap.len(), 5);
    let spot = heap.push(made(&rt, counted_node(rt.alloc(), 8, 8, &drops)));
    same(&rt, (heap.is_empty(), heap.get(spot).value), (false, 8));
    heap.update(spot, |counted| counted.value = 0);
    let last = made(&rt, counted_node(rt.alloc(), 7, 7, &drops));
    made(&rt, heap.try_push(last));
    let mut other = counted_heap(&rt, rt.alloc(), &[2, 1, 4], &drops);
    same(&rt, (heap.len(), other.len(), drops.count()), (7, 3, 2));
    at_most(&rt, heap.len(), 7);
    at_most(&rt, other.len(), 3);
    heap.append(&mut other);
    drop(other);
    same(&rt, (heap.len(), drops.count()), (10, 2));
    let first = heap.pop_front().expect(&rt, "ten elements are there");
    drops_one(&rt, first, 8, &drops);
    drop(heap);
    same(&rt, drops.count(), 12);
}
