//! What tests make. They end where memory is refused.
ghost use Rattle.std.specs.Prelude.{◌≡◌};

use crate::compared::made;
use cordyceps::{Kind, Node};
use std::alloc::Global;
use std::process::Abort;
use test_support::counted::{Counted, Drops};
use test_support::nodes::node_of;

/// Returns a node with this number and value.
pub fn node<T: Drop, L: Kind>(rt: &impl Abort, alloc: Global, id: u64, value: T) -> Node<T, L>
    ensures { result ≡ record { id = id; value = value } }
{
    made(rt, node_of(alloc, id, value))
}

/// Returns a count of no drops.
pub fn no_drops(rt: &impl Abort, alloc: Global) -> Drops {
    made(rt, Drops::new(alloc))
}

/// Returns a value that adds its drop to a count.
pub fn counted(rt: &impl Abort, value: u64, drops: &Drops) -> Counted
    ensures { result.value ≡ value }
{
    made(rt, Counted::new(value, drops))
}
