//! Stable lists, sorted ones too, and spots that go to other threads, and that threads share.
//!
//! A generic function says for every type of value what can be sent and shared: it is refused where that is not so.
ghost use Rattle.std.specs.Prelude.{◌≡◌};

use crate::compared::same;
use crate::keys::{ONE, THREE, TWO, spot_at, value};
use crate::sorted_calls::{keys_of, pops};
use crate::stable_calls::{around, list_of};
use cordyceps_stable::stable_list::{Spot, SpotCursor, StableList};
use cordyceps_stable::stable_sorted_list::StableSortedList;
use std::marker::{Send, Sync};
use test_support::travels::{sent, shared};

/// A list can be sent where its values can, and a sorted list where its values and its order can.
fn lists_travel<T: Send, O: Send>(
    list: StableList<T>,
    sorted: StableSortedList<T, O>,
) -> (StableList<T>, StableSortedList<T, O>) {
    (sent(list), sent(sorted))
}

/// A list can be shared where its values can, and a sorted list where its values and its order can. A cursor can be
/// sent where the values can be shared.
fn lists_are_shared<'a, T: Sync, O: Sync>(
    list: &StableList<T>,
    sorted: &StableSortedList<T, O>,
    cursor: SpotCursor<'a, T>,
) -> SpotCursor<'a, T> {
    let _ = shared(list);
    let _ = shared(sorted);
    sent(cursor)
}

/// A spot can always be sent and shared.
fn spots_travel(spot: Spot) -> Spot
    ensures { result ≡ spot }
{
    let _ = shared(&spot);
    sent(spot)
}

#[test]
fn lists_are_sent_with_their_spots(rt: HostRuntime) {
    let list = list_of(&rt, rt.alloc(), &[ONE, TWO, THREE]);
    let sorted = keys_of(&rt, rt.alloc(), &[THREE, ONE, TWO]);
    let (list, sorted) = lists_travel(list, sorted);
    let cursor = lists_are_shared(&list, &sorted, sorted.cursor_front());
    same(&rt, value(cursor.current()), Some(10));
    let second = spots_travel(spot_at(&rt, list.cursor_front(), 1));
    same(&rt, around(&list, second), (Some(10), Some(20), Some(30)));
    pops(&rt, sorted, &[ONE, TWO, THREE]);
}
