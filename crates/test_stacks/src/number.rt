//! Elements that are plain numbers.
ghost use Rattle.std.specs.Prelude.{◌≡◌};
ghost use Rattle.std.specs.Ordering.{nat_cmp};

use crate::compared::made;
use cordyceps_base::linked::Linked;
use cordyceps_base::node::Node;
use cordyceps_stack::stack::Links;
use std::alloc::Global;
use std::cmp::Ordering;
use std::process::Abort;
use test_support::nodes::node_of;

/// A number.
#[derive(Drop, PartialEq, Eq, PartialOrd, Ord)]
pub struct Number {
    pub value: u64,
}

impl Linked<Links<Number>> for Number {
    type Handle = Node<Number, Links<Number>>;

    ghost element = { λ h. h };

    fn into_ptr(handle: Node<Number, Links<Number>>) -> Node<Number, Links<Number>> {
        handle
    }

    fn from_ptr(node: Node<Number, Links<Number>>) -> Node<Number, Links<Number>>
        ensures { result ≡ node }
    {
        node
    }
}

/// Compares the numbers.
pub fn by_number(first: &Number, second: &Number) -> Ordering
    ensures { result ≡ nat_cmp first.now.value second.now.value }
{
    first.value.cmp(&second.value)
}

/// Returns a number.
pub fn number_of(number: &Number) -> u64
    ensures { result ≡ number.now.value }
{
    number.value
}

/// Returns a node with a value of its number.
pub fn make(rt: &impl Abort, alloc: Global, value: u64) -> Node<Number, Links<Number>> {
    made(rt, node_of(alloc, value, Number { value }))
}
