//! Stacks and sorted lists that go to other threads, and that threads share.
//!
//! A generic function says for every type of value what can be sent and shared: it is refused where that is not so.
ghost use Rattle.std.specs.Prelude.{⊤};

use crate::compared::{made, same};
use crate::number::{Number, make};
use cordyceps_stack::sorted_list::{Least, SortedList, SortedListIter};
use cordyceps_stack::stack::Stack;
use std::marker::{Send, Sync};
use std::thread;
use test_support::nodes::number;
use test_support::travels::{sent, shared};

/// A stack can be sent where its values can, and a sorted list where its values and its order can.
fn travel<T: Send, O: Send>(
    stack: Stack<T>,
    list: SortedList<T, O>,
) -> (Stack<T>, SortedList<T, O>) {
    (sent(stack), sent(list))
}

/// A stack can be shared where its values can, and a sorted list where its values and its order can.
fn are_shared<'a, T: Sync, O: Sync>(
    stack: &Stack<T>,
    list: &'a SortedList<T, O>,
) -> &'a SortedList<T, O> {
    let _ = shared(stack);
    shared(list)
}

/// What reads the values of a sorted list can be sent and shared where the values can be shared.
fn a_reader_travels_where_its_values_are_shared<T: Sync>(
    iter: SortedListIter<'_, T>,
) -> SortedListIter<'_, T> {
    let _ = shared(&iter);
    sent(iter)
}

/// Returns the sum of a sorted list's values.
fn sum(list: &SortedList<Number, Least>) -> u64 {
    let mut sum: u64 = 0;
    for number in a_reader_travels_where_its_values_are_shared(list.iter()) {
        sum = sum.wrapping_add(number.value);
    }
    sum
}

/// Pops an element, and returns the stack.
fn popped(mut stack: Stack<Number>) -> Stack<Number> {
    drop(stack.pop());
    stack
}

#[test]
fn threads_read_one_sorted_list_and_pop_from_a_stack_that_was_sent(rt: HostRuntime) {
    let mut stack = Stack::new();
    let mut list: SortedList<Number, Least> = SortedList::new_min();
    for value in [300, 1, 20] {
        stack.push(make(&rt, rt.alloc(), value));
        list.insert(make(&rt, rt.alloc(), value));
    }
    let (stack, mut list) = travel(stack, list);
    let read = are_shared(&stack, &list);
    let stacks = made(&rt, Vec::from_array(rt.alloc(), [Stack::new(), stack]));
    let ran = thread::map_vec(
        &rt,
        stacks,
        &|stack: Stack<Number>| -> (u64, Stack<Number>)
            requires { ⊤ }
            ensures { ⊤ }
        { (sum(read), popped(stack)) },
    );
    let mut left = Stack::new();
    for (sum, stack) in made(&rt, ran) {
        same(&rt, sum, 321);
        left = stack;
    }
    same(&rt, number(list.pop_front()), Some(1));
    for wanted in [Some(1), Some(300), None] {
        same(&rt, number(left.pop()), wanted);
    }
}
