//! Lists of items whose number and value are the same.
ghost use Rattle.std.specs.Prelude.{◌<◌};

use crate::compared::{made, same};
use cordyceps_list::list::List;
use std::alloc::Global;
use std::process::Abort;
use test_support::items::{Handle, Item, plain, value};
use test_support::nodes::number;

/// Asserts the value of an item, or that there is none.
pub fn shows(rt: &impl Abort, item: Option<&Item>, wanted: Option<u64>) {
    same(rt, value(item), wanted);
}

/// Adds ten to the value of an item, and asserts the sum, or that there is none.
pub fn raises(rt: &impl Abort, item: Option<&mut Item>, wanted: Option<u64>) {
    let sum = match item {
        Some(item) => {
            item.value = item.value.wrapping_add(10);
            Some(item.value)
        }
        None => None,
    };
    same(rt, sum, wanted);
}

/// Asserts the number of a node that was removed, or that there is none.
pub fn has_number(rt: &impl Abort, node: Option<Handle>, wanted: Option<u64>) {
    same(rt, number(node), wanted);
}

/// Returns a node of the item `v`.
pub fn item(rt: &impl Abort, alloc: Global, v: u64) -> Handle {
    made(rt, plain(alloc, v))
}

/// Appends the item `v` to the list.
pub fn push_back(rt: &impl Abort, alloc: Global, list: &mut List<Item>, v: u64) {
    has_place(rt, list.len());
    list.push_back(item(rt, alloc, v));
}

/// Returns a list of the items.
pub fn list_of(rt: &impl Abort, alloc: Global, items: &[u64]) -> List<Item> {
    let mut list = List::new();
    for v in items {
        push_back(rt, alloc, &mut list, *v);
    }
    list
}

/// Asserts what a list holds.
pub fn holds(rt: &impl Abort, list: &List<Item>, items: &[u64]) {
    same(rt, list.len(), items.len());
    let mut left = list.iter();
    for v in items {
        shows(rt, left.next(), Some(*v));
    }
    shows(rt, left.next(), None);
}

/// Fails where a list of this length has no place for one more.
pub fn has_place(rt: &impl Abort, len: usize)
    ensures { len < usize.MAX }
{
    assert!(rt; len < usize::MAX);
}
