//! Stacks: the order in which they pop what they hold, and drops.
use crate::blocks::sum;
use crate::compared::{made, same};
use crate::number::{Number, make};
use cordyceps_stack::stack::Stack;
use std::alloc::Global;
use std::process::Abort;
use test_support::counted::{Counted, Drops, counted_node};
use test_support::nodes::number;

/// Pushes this many elements.
fn push_many(rt: &impl Abort, alloc: Global, stack: &mut Stack<Counted>, many: u64, drops: &Drops) {
    for id in 0..many {
        stack.push(made(rt, counted_node(alloc, id, 0, drops)));
    }
}

#[test]
fn a_drop_frees_each_element_once(rt: HostRuntime) {
    let drops = made(&rt, Drops::new(rt.alloc()));
    let mut stack: Stack<Counted> = Stack::default();
    push_many(&rt, rt.alloc(), &mut stack, 1000, &drops);
    let taken = stack.take_all();
    push_many(&rt, rt.alloc(), &mut stack, 3, &drops);
    drop(stack.pop());
    same(&rt, drops.count(), 1);
    drop(taken);
    same(&rt, drops.count(), 1001);
    drop(stack);
    same(&rt, drops.count(), 1003);
}

#[test]
fn unsync(rt: HostRuntime) {
    let mut stack: Stack<Number> = Stack::new();
    for value in [1, 2, 3] {
        stack.push(make(&rt, rt.alloc(), value));
    }
    let mut taken = stack.take_all();
    for value in [3u64, 2, 1] {
        same(&rt, number(taken.next()), Some(value));
        stack.push(make(&rt, rt.alloc(), sum(value, 10)));
    }
    same(&rt, number(taken.next()), None);
    let mut wanted = 11u64;
    for entry in stack.take_all() {
        same(&rt, entry.id(), wanted);
        wanted = sum(wanted, 1);
    }
    same(&rt, (wanted, stack.is_empty()), (14, true));
}
