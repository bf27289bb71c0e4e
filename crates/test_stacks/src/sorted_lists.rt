//! Sorted lists of numbers, in their order, the other way round, and in the order of a function.
ghost use Rattle.std.specs.Prelude.{◌≡◌};

use crate::compared::{made, same};
use crate::number::{Number, by_number, make, number_of};
use cordyceps_stack::sorted_list::{Greatest, Least, Order, SortedList};
use cordyceps_stack::stack::Stack;
use std::alloc::Global;
use std::process::Abort;
use test_support::nodes::number;

/// Numbers to insert.
const NUMBERS: [u64; 8] = [20, 10, 30, 25, 35, 1, 2, 3];

/// The numbers from the least.
const RISING: [u64; 8] = [1, 2, 3, 10, 20, 25, 30, 35];

/// The numbers from the greatest.
const FALLING: [u64; 8] = [35, 30, 25, 20, 10, 3, 2, 1];

/// Returns the value that is shown.
fn shown(number: Option<&Number>) -> Option<u64> {
    match number {
        Some(number) => Some(number.value),
        None => None,
    }
}

/// Asserts that the list and a second iterator over it show these numbers, and no more, and that it looks at the first.
fn shows<O: Order<Number>>(rt: &impl Abort, list: &SortedList<Number, O>, numbers: &[u64]) {
    let looks = (list.is_empty(), shown(list.front()));
    same(rt, looks, (numbers.is_empty(), numbers.first().copied()));
    let mut seen = list.iter();
    let mut again = made(rt, seen.clone());
    for number in numbers {
        same(rt, shown(seen.next()), Some(*number));
    }
    same(rt, shown(seen.next()), None);
    for number in numbers {
        same(rt, shown(again.next()), Some(*number));
    }
    same(rt, shown(again.next()), None);
}

/// Asserts that the list pops these numbers, and then nothing.
fn pops<O: Order<Number>>(rt: &impl Abort, list: &mut SortedList<Number, O>, numbers: &[u64])
    ensures { list.new.order ≡ list.old.order }
{
    for wanted in numbers {
        same(rt, number(list.pop_front()), Some(*wanted));
    }
    same(rt, number(list.pop_front()), None);
}

/// Inserts elements with these numbers.
fn insert_all<O: Order<Number>>(
    rt: &impl Abort,
    alloc: Global,
    list: &mut SortedList<Number, O>,
    numbers: &[u64],
)
    requires { O.can_compare list.old.order }
    ensures { list.new.order ≡ list.old.order }
{
    for number in numbers {
        list.insert(make(rt, alloc, *number));
    }
}

/// Asserts that an empty list shows the numbers in this order, twice, and pops them so.
fn sorts<O: Order<Number>>(
    rt: &impl Abort,
    alloc: Global,
    list: &mut SortedList<Number, O>,
    wanted: &[u64],
)
    requires { O.can_compare list.old.order }
    ensures { list.new.order ≡ list.old.order }
{
    shows(rt, list, &[]);
    insert_all(rt, alloc, list, &NUMBERS);
    shows(rt, list, wanted);
    shows(rt, list, wanted);
    pops(rt, list, wanted);
    shows(rt, list, &[]);
}

#[test]
fn builtin_sort_min(rt: HostRuntime) {
    let mut list: SortedList<Number, Least> = SortedList::new_min();
    sorts(&rt, rt.alloc(), &mut list, &RISING);
    let mut more: Stack<Number> = Stack::new();
    more.push(make(&rt, rt.alloc(), 4));
    more.push(make(&rt, rt.alloc(), 5));
    list.extend(more);
    pops(&rt, &mut list, &[4, 5]);
}

#[test]
fn builtin_sort_max(rt: HostRuntime) {
    let mut list: SortedList<Number, Greatest> = SortedList::new_max();
    sorts(&rt, rt.alloc(), &mut list, &FALLING);
}

/// Asserts that an empty list sorts, and takes again what it popped, also the second before the first.
fn takes_back<O: Order<Number> + Drop>(
    rt: &impl Abort,
    alloc: Global,
    mut list: SortedList<Number, O>,
)
    requires { O.can_compare list.order }
{
    sorts(rt, alloc, &mut list, &RISING);
    insert_all(rt, alloc, &mut list, &[20, 10, 30]);
    let first = list.pop_front().expect(rt, "there are three");
    same(rt, first.id(), 10);
    list.insert(first);
    let first = list.pop_front().expect(rt, "there are three");
    let second = list.pop_front().expect(rt, "there are two");
    list.insert(second);
    list.insert(first);
    pops(rt, &mut list, &[10, 20, 30]);
}

#[test]
fn slist_basic(rt: HostRuntime) {
    let list = SortedList::new_with_cmp(by_number);
    takes_back(&rt, rt.alloc(), list);
    let list = SortedList::new_by_key(number_of);
    takes_back(&rt, rt.alloc(), list);
}

/// Returns a stack of these numbers, the last of which is popped first.
fn stack_of(rt: &impl Abort, alloc: Global, numbers: &[u64]) -> Stack<Number> {
    let mut stack = Stack::new();
    for place in 0..numbers.len() {
        let node = make(rt, alloc, numbers[place]);
        same(rt, stack.push_was_empty(node), place == 0);
    }
    stack
}

#[test]
fn sorts_what_a_stack_holds(rt: HostRuntime) {
    let mut least = SortedList::from_stack_min(stack_of(&rt, rt.alloc(), &NUMBERS));
    pops(&rt, &mut least, &RISING);
    let mut greatest = SortedList::from_stack_max(stack_of(&rt, rt.alloc(), &NUMBERS));
    pops(&rt, &mut greatest, &FALLING);
    let stack = stack_of(&rt, rt.alloc(), &NUMBERS);
    let mut by_function = SortedList::from_stack_with_cmp(stack, by_number);
    pops(&rt, &mut by_function, &RISING);
}
