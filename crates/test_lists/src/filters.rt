//! Filters: what they asked, what they removed and what they kept, dropped early or not.
ghost use Rattle.std.specs.Prelude.{◌<◌};
ghost use Rattle.std.specs.List.{All};
ghost use Rattle.cordyceps_base.specs.Element.{values};

use crate::compared::{made, same};
use crate::items::{has_number, holds, list_of};
use cordyceps_list::list::List;
use std::alloc::Global;
use std::cell::Cell;
use std::process::Abort;
use std::rc::Rc;
use test_support::items::Item;
use test_support::nodes::node_of;

/// A filter of the items 1 to 6 before a call of `next`: the items that it was asked of, as digits, what the list holds
/// if the filter is dropped now, and what the call removes.
type Stage = (u64, &'static [u64], Option<u64>);

/// What some filters do: whether each item passes, and the stages.
const FILTERINGS: [([bool; 6], &[Stage]); 5] = [
    (
        [false, false, true, false, false, true],
        &[
            (0, &[1, 2, 3, 4, 5, 6], Some(3)),
            (123, &[1, 2, 4, 5, 6], Some(6)),
            (123456, &[1, 2, 4, 5], None),
            (123456, &[1, 2, 4, 5], None),
        ],
    ),
    (
        [false, true, false, true, false, true],
        &[
            (0, &[1, 2, 3, 4, 5, 6], Some(2)),
            (12, &[1, 3, 4, 5, 6], Some(4)),
            (1234, &[1, 3, 5, 6], Some(6)),
            (123456, &[1, 3, 5], None),
            (123456, &[1, 3, 5], None),
        ],
    ),
    (
        [true, false, false, false, true, false],
        &[
            (0, &[1, 2, 3, 4, 5, 6], Some(1)),
            (1, &[2, 3, 4, 5, 6], Some(5)),
            (12345, &[2, 3, 4, 6], None),
            (123456, &[2, 3, 4, 6], None),
            (123456, &[2, 3, 4, 6], None),
        ],
    ),
    (
        [true; 6],
        &[
            (0, &[1, 2, 3, 4, 5, 6], Some(1)),
            (1, &[2, 3, 4, 5, 6], Some(2)),
            (12, &[3, 4, 5, 6], Some(3)),
            (123, &[4, 5, 6], Some(4)),
            (1234, &[5, 6], Some(5)),
            (12345, &[6], Some(6)),
            (123456, &[], None),
            (123456, &[], None),
        ],
    ),
    (
        [false; 6],
        &[
            (0, &[1, 2, 3, 4, 5, 6], None),
            (123456, &[1, 2, 3, 4, 5, 6], None),
            (123456, &[1, 2, 3, 4, 5, 6], None),
        ],
    ),
];

/// Notes that a filter was asked of an item, and returns whether that passes.
fn passes(asked: &Cell<u64>, passing: &[bool; 6], item: &Item) -> bool {
    asked.set(asked.get().wrapping_mul(10).wrapping_add(item.value));
    let place = item.value.wrapping_sub(1) as usize;
    passing.get(place).copied().unwrap_or(false)
}

/// Calls `next` once for each of these stages, drops the filter before the last, and asserts what it has done.
fn drops_after(rt: &impl Abort, alloc: Global, passing: [bool; 6], called: &[Stage], last: Stage) {
    let asked = made(rt, Rc::new(alloc, Cell::new(0u64)));
    let shared = made(rt, Rc::clone(&asked));
    let mut list = list_of(rt, alloc, &[1, 2, 3, 4, 5, 6]);
    let mut filter = list.drain_filter(move |item: &Item| passes(&shared, &passing, item));
    for (_, _, removed) in called {
        has_number(rt, filter.next(), *removed);
    }
    let (asked_of, kept, _) = last;
    same(rt, filter.size_hint(), (0, Some(kept.len())));
    drop(filter);
    same(rt, (asked.get(), Rc::strong_count(&asked)), (asked_of, 1));
    holds(rt, &list, kept);
}

#[test]
fn a_filter_asks_each_item_once_up_to_its_drop(rt: HostRuntime) {
    for (passing, stages) in FILTERINGS {
        for calls in 0..stages.len() {
            drops_after(&rt, rt.alloc(), passing, &stages[..calls], stages[calls]);
        }
    }
}

/// Returns a list of the items 5 and 4, none of which is zero.
fn divisors(rt: &impl Abort, alloc: Global) -> List<Item>
    ensures { All (λ item. 0 < item.value) (values result) }
{
    let mut list = List::new();
    list.push_back(made(rt, node_of(alloc, 5, Item { value: 5 })));
    list.push_back(made(rt, node_of(alloc, 4, Item { value: 4 })));
    list
}

/// Removes the first item that divides 12 from a list, by a predicate that may not be called on zero.
fn takes_a_divisor(rt: &impl Abort, list: &mut List<Item>, wanted: Option<u64>)
    requires { All (λ item. 0 < item.value) (values list.old) }
{
    let mut filter = list.drain_filter(
        |item: &Item| -> bool
            requires { 0 < item.now.value }
        { 12 % item.value == 0 },
    );
    has_number(rt, filter.next(), wanted);
}

#[test]
fn a_filter_asks_of_what_its_list_holds_alone(rt: HostRuntime) {
    let mut list = divisors(&rt, rt.alloc());
    takes_a_divisor(&rt, &mut list, Some(4));
    holds(&rt, &list, &[5]);
}
