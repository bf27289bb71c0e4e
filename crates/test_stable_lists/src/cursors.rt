//! Cursors by spots, on both kinds of list.
use crate::compared::{made, same};
use crate::keys::{Key, ONE, THREE, TWO, spot_at, value};
use crate::sorted_calls::keys_of;
use crate::stable_calls::list_of;
use cordyceps_stable::stable_list::SpotCursor;
use std::process::Abort;

/// Asserts what a cursor reads forth, from where it is, and what it then reads back. A second one stays meanwhile.
fn reads(rt: &impl Abort, mut cursor: SpotCursor<'_, Key>, wanted: &[Option<u64>]) {
    let stays = made(rt, cursor.clone());
    for want in wanted {
        same(rt, value(cursor.current()), *want);
        same(rt, cursor.spot().is_some(), want.is_some());
        cursor.move_next();
    }
    for want in wanted.iter().rev() {
        cursor.move_prev();
        same(rt, value(cursor.current()), *want);
    }
    same(rt, Some(&value(stays.current())), wanted.first());
}

#[test]
fn cursors_go_round(rt: HostRuntime) {
    let round = [Some(10), Some(20), Some(30), None, Some(10), Some(20)];
    let over_the_end = [Some(30), None, Some(10)];
    let list = list_of(&rt, rt.alloc(), &[ONE, TWO, THREE]);
    reads(&rt, list.cursor_front(), &round);
    let last = spot_at(&rt, list.cursor_front(), 2);
    reads(&rt, list.cursor_at(last), &over_the_end);
    let sorted = keys_of(&rt, rt.alloc(), &[THREE, ONE, TWO]);
    reads(&rt, sorted.cursor_front(), &round);
    let last = spot_at(&rt, sorted.cursor_front(), 2);
    reads(&rt, sorted.cursor_at(last), &over_the_end);
    let none = list_of(&rt, rt.alloc(), &[]);
    reads(&rt, none.cursor_front(), &[None, None]);
    let none = keys_of(&rt, rt.alloc(), &[]);
    reads(&rt, none.cursor_front(), &[None, None]);
}
