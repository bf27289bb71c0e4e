//! The order in which lists, their iterators and a chain's cursor drop what they hold, and what a cursor that is
//! forgotten leaves.
ghost use Rattle.std.specs.Prelude.{◌≡◌};

use crate::compared::{made, same};
use crate::items::has_place;
use cordyceps_base::linked::Linked;
use cordyceps_base::node::{Kind, Node};
use cordyceps_base::single_chain::SingleChain;
use cordyceps_base::{list, stack};
use cordyceps_list::list::List;
use std::alloc::Global;
use std::cell::Cell;
use std::mem;
use std::process::Abort;
use std::rc::Rc;
use test_support::nodes::node_of;

/// A value whose drop appends its digit to those of the values dropped before it.
struct Noted {
    digit: u64,
    order: Rc<Cell<u64>, Global>,
}

impl Drop for Noted {
    fn drop(self) {
        let Noted { digit, order } = self;
        order.set(order.get().wrapping_mul(10).wrapping_add(digit));
    }
}

impl Linked<list::Links<Noted>> for Noted {
    type Handle = Node<Noted, list::Links<Noted>>;

    ghost element = { λ h. h };

    fn into_ptr(handle: Node<Noted, list::Links<Noted>>) -> Node<Noted, list::Links<Noted>> {
        handle
    }

    fn from_ptr(node: Node<Noted, list::Links<Noted>>) -> Node<Noted, list::Links<Noted>>
        ensures { result ≡ node }
    {
        node
    }
}

/// Returns a node of a digit.
fn digit_node<L: Kind>(
    rt: &impl Abort,
    alloc: Global,
    digit: u64,
    order: &Rc<Cell<u64>, Global>,
) -> Node<Noted, L> {
    let order = made(rt, Rc::clone(order));
    made(rt, node_of(alloc, digit, Noted { digit, order }))
}

/// Returns a list of the digits 1 to 6.
fn noted_list(rt: &impl Abort, alloc: Global, order: &Rc<Cell<u64>, Global>) -> List<Noted> {
    let mut list = List::new();
    for digit in 1..7u64 {
        has_place(rt, list.len());
        list.push_back(digit_node(rt, alloc, digit, order));
    }
    list
}

#[test]
fn a_list_drops_the_first_first(rt: HostRuntime) {
    let order = made(&rt, Rc::new(rt.alloc(), Cell::new(0u64)));
    drop(noted_list(&rt, rt.alloc(), &order));
    same(&rt, order.get(), 123456);
}

#[test]
fn an_iterator_drops_what_is_left_in_order(rt: HostRuntime) {
    let order = made(&rt, Rc::new(rt.alloc(), Cell::new(0u64)));
    let mut nodes = noted_list(&rt, rt.alloc(), &order).into_iter();
    drop(nodes.next());
    let last = nodes.next_back();
    drop(nodes);
    same(&rt, order.get(), 12345);
    drop(last);
    same(&rt, order.get(), 123456);
}

/// A cursor that is forgotten keeps the nodes, which are then never dropped. Its list is empty, and takes nodes again.
#[test]
fn a_forgotten_cursor_leaves_the_list_empty(rt: HostRuntime) {
    let order = made(&rt, Rc::new(rt.alloc(), Cell::new(0u64)));
    let mut list = noted_list(&rt, rt.alloc(), &order);
    mem::forget(list.cursor_front_mut());
    same(&rt, list.len(), 0);
    has_place(&rt, list.len());
    list.push_back(digit_node(&rt, rt.alloc(), 7, &order));
    same(&rt, list.len(), 1);
    drop(list);
    same(&rt, order.get(), 7);
}

/// Moves a cursor over a chain of the digits 1 to 3 this often, and asserts that its drop frees all.
fn frees_after(rt: &impl Abort, alloc: Global, moves: usize) {
    let order = made(rt, Rc::new(alloc, Cell::new(0u64)));
    let mut chain: SingleChain<Noted, stack::Links<Noted>> = SingleChain::empty();
    for digit in 1..4u64 {
        chain.link_back(digit_node(rt, alloc, digit, &order));
    }
    let mut cursor = chain.into_cursor();
    for _ in 0..moves {
        assert!(rt; cursor.current().is_some());
        cursor.advance();
    }
    same(rt, order.get(), 0);
    drop(cursor);
    same(rt, order.get(), 123);
}

#[test]
fn a_dropped_cursor_frees_each_node_in_order(rt: HostRuntime) {
    for moves in 0..4usize {
        frees_after(&rt, rt.alloc(), moves);
    }
}
