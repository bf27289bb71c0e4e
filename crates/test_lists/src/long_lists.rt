//! Steps and looks in long lists, which take few moves each.
use crate::compared::{at_most, same};
use crate::items::{list_of, push_back, raises, shows};
use crate::sights::{Sight, sees};
use cordyceps_list::cursor_mut::CursorMut;
use cordyceps_list::list::List;
use std::alloc::Global;
use std::process::Abort;
use test_support::items::Item;

/// How long the list of the next test is: if a step took as many moves as the list has elements, the test would not end
/// in its time.
const MANY: u64 = 400_000;

/// Goes from the front over a list of the items below `MANY`, and back.
fn goes_forth_and_back(rt: &impl Abort, cursor: &mut CursorMut<'_, Item>) {
    for v in 0..MANY {
        shows(rt, cursor.current(), Some(v));
        same(rt, cursor.peek_prev().is_some(), v > 0);
        cursor.move_next();
    }
    for v in (0..MANY).rev() {
        cursor.move_prev();
        raises(rt, cursor.current_mut(), Some(v + 10));
        same(rt, cursor.peek_next().is_some(), v + 1 < MANY);
    }
}

/// Goes to the middle, and moves each item there by two places as it goes back.
fn turns_over(rt: &impl Abort, cursor: &mut CursorMut<'_, Item>) {
    for _ in 0..MANY / 2 {
        cursor.move_next();
    }
    for _ in 0..MANY / 2 {
        let removed = cursor.remove_current();
        cursor.move_prev();
        if let Some(node) = removed {
            at_most(rt, cursor.len(), 1_000_000);
            cursor.insert_before(node);
        }
    }
}

/// Goes over a list of `MANY` from both ends.
fn goes_from_both_ends(rt: &impl Abort, list: &mut List<Item>) {
    let mut left = list.iter_mut();
    for _ in 0..MANY / 2 {
        same(rt, left.next().is_some(), true);
        same(rt, left.next_back().is_some(), true);
    }
    same(rt, left.next().is_some(), false);
}

/// Returns a list of the items from one number up to another, without the latter.
fn from_to(rt: &impl Abort, alloc: Global, from: u64, to: u64) -> List<Item> {
    let mut list = List::new();
    for v in from..to {
        push_back(rt, alloc, &mut list, v);
    }
    list
}

#[test]
fn steps_take_few_moves(rt: HostRuntime) {
    let mut list = from_to(&rt, rt.alloc(), 0, MANY);
    let mut cursor = list.cursor_front_mut();
    goes_forth_and_back(&rt, &mut cursor);
    turns_over(&rt, &mut cursor);
    drop(cursor);
    goes_from_both_ends(&rt, &mut list);
}

/// How often the next test looks around after a splice, halfway between the ends of a list of twice as many items: if a
/// look took as many moves as were spliced in, the test would not end in its time.
const LOOKS: u64 = 100_000;

/// Splices a list in after the cursor, and looks around there.
fn looks_around(
    rt: &impl Abort,
    cursor: &mut CursorMut<'_, Item>,
    more: List<Item>,
    wanted: Sight,
) {
    at_most(rt, cursor.len(), 1_000_000);
    at_most(rt, more.len(), 1_000_000);
    cursor.splice_after(more);
    for _ in 0..LOOKS {
        sees(rt, cursor, wanted);
    }
}

#[test]
fn looks_after_a_splice_take_few_moves(rt: HostRuntime) {
    let mut list = from_to(&rt, rt.alloc(), 0, 100_001);
    let more = from_to(&rt, rt.alloc(), 100_001, 200_000);
    let halfway = (Some(100_000), Some(100_001), Some(99_999), Some(100_000));
    looks_around(&rt, &mut list.cursor_back_mut(), more, halfway);
    let first = list_of(&rt, rt.alloc(), &[7]);
    let mut cursor = list.cursor_front_mut();
    cursor.move_prev();
    let null = (None, Some(7), Some(199_999), None);
    looks_around(&rt, &mut cursor, first, null);
}
