//! How often a sorted list with spots, a heap, a sort and a merge ask their order, which counts in a cell.
ghost use Rattle.std.specs.Prelude.{◌≡◌, refl, ⊤};
ghost use Rattle.std.specs.Ordering.{nat_cmp};
ghost use Rattle.std.proofs.Common.{subst, sym};
ghost use Rattle.test_stable_lists.specs.ByNumber.{by_number_lawful};
ghost use Rattle.cordyceps_single.specs.Preorder.{IsPreorder};

use crate::compared::{at_most, made, same};
use crate::heap_calls::push_all;
use crate::keys::{Key, Pair, make, spot_at};
use crate::sorted_calls::{LONGEST, change, insert_all};
use crate::sorting::{drawn, listed};
use cordyceps_base::steps::Steps;
use cordyceps_heap::sorting::{merge_with_order, sort_with_order};
use cordyceps_heap::stable_heap::StableHeap;
use cordyceps_single::sorted_list::Order;
use cordyceps_stable::stable_sorted_list::StableSortedList;
use std::alloc::Global;
use std::cell::Cell;
use std::cmp::Ordering;
use std::process::Abort;
use std::rc::Rc;

/// How often an order was asked.
type Asked = Rc<Cell<u64>, Global>;

/// The order of the keys, which counts each comparison.
#[derive(Drop)]
struct ByKey {
    asked: Asked,
}

impl Order<Key> for ByKey {
    ghost use Rattle.test_stable_lists.specs.declared.keys.Key.{Key};

    ghost compares_by = { λ _ cmp. cmp ≡ (λ x y. nat_cmp x.value y.value) };

    ghost computes = { λ _ _. ((λ x y. nat_cmp x.value y.value), refl) };

    ghost lawful = { λ _ cmp e. subst IsPreorder (sym e) (by_number_lawful (λ (x : Key). x.value)) };

    fn compare(&self, first: &Key, second: &Key) -> Ordering {
        self.asked.set(self.asked.get().wrapping_add(1));
        first.value.cmp(&second.value)
    }
}

/// A call that asks the order. It names an element by its place, from 0 on.
#[derive(Drop)]
enum Asking {
    Insert(u64),
    /// Inserts, and counts in `Steps` too.
    InsertIn(u64),
    /// Changes a key.
    Update(usize, u64),
    /// Appends a list of these elements, which were inserted in their order.
    Append(&'static [Pair]),
}

/// Returns an order that was not asked, and its count.
fn not_asked(rt: &impl Abort, alloc: Global) -> (ByKey, Asked) {
    let asked = made(rt, Rc::new(alloc, Cell::new(0)));
    let order = ByKey {
        asked: made(rt, asked.clone()),
    };
    (order, asked)
}

/// Makes a call, and returns the comparisons that it counts in `Steps`, if it does.
fn ask(
    rt: &impl Abort,
    alloc: Global,
    list: &mut StableSortedList<Key, ByKey>,
    call: &Asking,
) -> Option<u64> {
    at_most(rt, list.len(), LONGEST);
    match call {
        Asking::Insert(key) => {
            list.insert(make(rt, alloc, (0, *key)));
        }
        Asking::InsertIn(key) => {
            let mut steps = Steps::new();
            list.insert_in(make(rt, alloc, (0, *key)), &mut steps);
            return Some(steps.count());
        }
        Asking::Update(at, key) => {
            let spot = spot_at(rt, list.cursor_front(), *at);
            change(list, spot, *key);
        }
        Asking::Append(pairs) => {
            let (order, _) = not_asked(rt, alloc);
            let mut other = StableSortedList::new_with_order(order);
            insert_all(rt, alloc, &mut other, pairs);
            at_most(rt, other.len(), LONGEST);
            list.append(&mut other);
        }
    }
    None
}

/// Calls of a list that is empty at first, and how often each asks its order. The keys after a call are those before
/// the next.
///
/// A key that goes among others is compared with the last, if there is one; if that is greater and not the first, with
/// the first; if that is not greater, with each other that is greater and, if there is another, with one more. A merge
/// compares once for each element that goes before one list is used up.
const CALLS: [(Asking, u64); 17] = [
    (Asking::Append(&[]), 0),
    (Asking::Append(&[(0, 20)]), 0),
    // 20
    (Asking::Update(0, 21), 0),
    // 21
    (Asking::Insert(10), 1),
    // 10 21
    (Asking::InsertIn(30), 1),
    // 10 21 30
    (Asking::Insert(5), 2),
    // 5 10 21 30
    (Asking::InsertIn(25), 3),
    // 5 10 21 25 30
    (Asking::Insert(7), 5),
    // 5 7 10 21 25 30
    (Asking::InsertIn(22), 4),
    // 5 7 10 21 22 25 30
    (Asking::Update(0, 40), 1),
    // 7 10 21 22 25 30 40
    (Asking::Update(6, 1), 2),
    // 1 7 10 21 22 25 30
    (Asking::Update(0, 23), 4),
    // 7 10 21 22 23 25 30
    (Asking::Update(4, 23), 4),
    // 7 10 21 22 23 25 30
    (Asking::Update(6, 8), 6),
    // 7 8 10 21 22 23 25
    (Asking::Append(&[(0, 8), (0, 9), (0, 50)]), 9),
    // 7 8 8 9 10 21 22 23 25 50
    (Asking::Append(&[]), 0),
    (Asking::Append(&[(0, 60)]), 10),
];

#[test]
fn asks_as_often_as_it_says(rt: HostRuntime) {
    let (order, asked) = not_asked(&rt, rt.alloc());
    let mut list = StableSortedList::new_with_order(order);
    for (call, wanted) in &CALLS {
        asked.set(0);
        let counted = ask(&rt, rt.alloc(), &mut list, call);
        same(
            &rt,
            (asked.get(), counted.unwrap_or(*wanted)),
            (*wanted, *wanted),
        );
    }
}

/// A call of a heap that asks the order.
#[derive(Drop)]
enum HeapAsking {
    Push(u64),
    /// Pushes, and removes what was pushed.
    Cancel(u64),
    Front,
    PopFront,
    /// Appends a heap of these elements, which were pushed in their order.
    Append(&'static [Pair]),
}

/// Makes a call of a heap.
fn ask_heap(rt: &impl Abort, alloc: Global, heap: &mut StableHeap<Key, ByKey>, call: &HeapAsking) {
    at_most(rt, heap.len(), LONGEST);
    match call {
        HeapAsking::Push(key) => {
            heap.push(make(rt, alloc, (0, *key)));
        }
        HeapAsking::Cancel(key) => {
            let spot = heap.push(make(rt, alloc, (0, *key)));
            heap.remove(spot);
        }
        HeapAsking::Front => {
            heap.front();
        }
        HeapAsking::PopFront => {
            heap.pop_front();
        }
        HeapAsking::Append(pairs) => {
            let (order, _) = not_asked(rt, alloc);
            let mut other = StableHeap::new_with_order(order);
            push_all(rt, alloc, &mut other, pairs);
            at_most(rt, other.len(), LONGEST);
            heap.append(&mut other);
        }
    }
}

/// Calls of a heap that is empty at first, and how often each asks its order. The lines after a call are those before
/// the next, each with its rank, and the fresh elements behind them.
///
/// A fresh element is sorted in by the next call that needs the order. It is then a line of rank 0, merged with the
/// last lines as long as their rank is not greater. A merge compares once for each element that goes before one line is
/// used up. The first elements of the lines are compared with the least before them.
const HEAP_CALLS: [(HeapAsking, u64); 17] = [
    (HeapAsking::Front, 0),
    (HeapAsking::Push(5), 0),
    (HeapAsking::Push(3), 0),
    (HeapAsking::Push(4), 0),
    (HeapAsking::Push(9), 0),
    // fresh: 5 3 4 9. The 3 makes 3 5 of rank 1 with one comparison; the 9 makes 4 9 with one, and the whole with three
    (HeapAsking::Front, 5),
    // 3 4 5 9: rank 2
    (HeapAsking::Push(1), 0),
    (HeapAsking::Front, 1),
    // 3 4 5 9: rank 2, 1: rank 0
    (HeapAsking::PopFront, 1),
    // 3 4 5 9: rank 2, an empty line: rank 0
    (HeapAsking::PopFront, 0),
    // 4 5 9: rank 2, an empty line: rank 0
    (HeapAsking::Push(7), 0),
    (HeapAsking::Cancel(2), 0),
    (HeapAsking::Push(8), 0),
    // the empty line is dropped; 7 8 of rank 1 take one comparison, and the first elements of both lines another
    (HeapAsking::PopFront, 2),
    // 5 9: rank 2, 7 8: rank 1
    // the elements of the other heap are fresh there, and take one comparison
    (HeapAsking::Append(&[(0, 6), (0, 2)]), 8),
    // 2 5 6 7 8 9: rank 3
    (HeapAsking::Append(&[]), 0),
    // 2 5 6 7 8 9: rank 3, an empty line: rank 0
    (HeapAsking::PopFront, 0),
];

#[test]
fn a_heap_asks_as_often_as_its_lines_need(rt: HostRuntime) {
    let (order, asked) = not_asked(&rt, rt.alloc());
    let mut heap = StableHeap::new_with_order(order);
    for (call, wanted) in &HEAP_CALLS {
        asked.set(0);
        ask_heap(&rt, rt.alloc(), &mut heap, call);
        same(&rt, asked.get(), *wanted);
    }
}

#[test]
fn a_sort_asks_at_most_n_log_n_times(rt: HostRuntime) {
    let (order, asked) = not_asked(&rt, rt.alloc());
    let mut list = drawn(&rt, rt.alloc(), 1000);
    sort_with_order(&mut list, &order);
    // the base 2 logarithm of 1,000 is between 9.965 and 9.966
    same(&rt, asked.get() <= 9965, true);
}

/// Sorted lists, others, and how often a merge of both asks the order.
const MERGES: &[(&[Pair], &[Pair], u64)] = &[
    (&[], &[(1, 1)], 0),
    (&[(1, 1)], &[], 0),
    (&[(1, 1), (2, 2), (3, 3)], &[(4, 4), (5, 5)], 3),
    (&[(1, 4), (2, 5)], &[(3, 1), (4, 2), (5, 3)], 3),
    // once for each element but one
    (&[(1, 1), (2, 3), (3, 5)], &[(4, 2), (5, 4), (6, 6)], 5),
];

#[test]
fn a_merge_asks_at_most_once_for_each_element_but_one(rt: HostRuntime) {
    let (order, asked) = not_asked(&rt, rt.alloc());
    for (pairs, more, wanted) in MERGES {
        let mut list = listed(&rt, rt.alloc(), pairs);
        let mut other = listed(&rt, rt.alloc(), more);
        sort_with_order(&mut list, &order);
        sort_with_order(&mut other, &order);
        asked.set(0);
        at_most(&rt, list.len(), LONGEST);
        at_most(&rt, other.len(), LONGEST);
        merge_with_order(&mut list, &mut other, &order);
        same(&rt, asked.get(), *wanted);
    }
}
