//! Splits, splices, removals and insertions inside a list.
use crate::compared::{at_most, same};
use crate::items::{has_number, holds, list_of, raises};
use cordyceps_list::cursor_mut::CursorMut;
use cordyceps_list::list::List;
use std::process::Abort;
use test_support::items::Item;

/// Tells whether an item is the first.
fn is_first(item: &Item) -> bool {
    item.value == 1
}

/// Makes the list 4 5 3 2 1 of the items 1 to 5, by a cursor at the front, and asserts what lies beside the item 3.
fn turns(rt: &impl Abort, cursor: &mut CursorMut<'_, Item>) {
    cursor.move_next();
    let second = cursor.remove_current();
    let before = cursor.split_before();
    let after = cursor.split_after();
    at_most(rt, cursor.len(), 1);
    at_most(rt, before.len(), 1);
    at_most(rt, after.len(), 2);
    cursor.splice_before(after);
    cursor.splice_after(before);
    at_most(rt, cursor.len(), 4);
    if let Some(node) = second {
        cursor.insert_after(node);
    }
    raises(rt, cursor.peek_prev_mut(), Some(15));
    raises(rt, cursor.peek_next_mut(), Some(12));
}

#[test]
fn edits_inside_a_list(rt: HostRuntime) {
    let mut list = list_of(&rt, rt.alloc(), &[1, 2, 3, 4, 5]);
    let mut cursor = list.cursor_front_mut();
    turns(&rt, &mut cursor);
    has_number(&rt, cursor.remove_first(is_first), Some(1));
    drop(cursor);
    has_number(&rt, list.remove(4), Some(4));
    has_number(&rt, list.remove(4), None);
    let mut list = List::from_chain(list.into_chain());
    same(&rt, list.try_split_off(4).is_none(), true);
    let Some(rest) = list.try_split_off(1) else {
        panic!(rt; "three items are left");
    };
    holds(&rt, &list, &[15]);
    holds(&rt, &rest, &[3, 12]);
}
