//! Cursors that only read.
use crate::compared::{made, same};
use crate::items::{list_of, shows};
use crate::sights::{Sight, reads, sees};
use cordyceps_list::list::List;
use std::process::Abort;
use test_support::items::Item;

/// How often a reader of the items 1 to 6 moves forth from the second, and then back, and what it sees then.
const WAY: [(usize, usize, Sight); 8] = [
    (0, 0, (Some(2), Some(3), Some(1), Some(1))),
    (1, 0, (Some(3), Some(4), Some(2), Some(2))),
    (4, 0, (None, Some(1), Some(6), None)),
    (1, 0, (Some(1), Some(2), None, Some(0))),
    (0, 1, (None, Some(1), Some(6), None)),
    (0, 1, (Some(6), None, Some(5), Some(5))),
    (0, 2, (Some(4), Some(5), Some(3), Some(3))),
    (0, 4, (None, Some(1), Some(6), None)),
];

#[test]
fn a_reader_moves_while_its_cursor_stays(rt: HostRuntime) {
    let mut list = list_of(&rt, rt.alloc(), &[1, 2, 3, 4, 5, 6]);
    let mut cursor = list.cursor_front_mut();
    cursor.go_back(1);
    cursor.go_on(2);
    let mut reader = cursor.as_cursor();
    for (forth, back, sight) in WAY {
        reader.go_on(forth);
        reader.go_back(back);
        reads(&rt, &reader, sight);
    }
    sees(&rt, &cursor, (Some(2), Some(3), Some(1), Some(1)));
}

/// Reads on from the back of the items 1 to 3, over the ends to the front.
fn reads_on(rt: &impl Abort, list: &List<Item>) {
    let mut cursor = list.cursor_back();
    same(rt, (cursor.len(), cursor.is_empty()), (3, false));
    reads(rt, &cursor, (Some(3), None, Some(2), Some(2)));
    cursor.move_prev();
    for wanted in [Some(2u64), Some(3), None, None] {
        shows(rt, cursor.next(), wanted);
    }
    reads(rt, &cursor, (None, Some(1), Some(3), None));
    cursor.move_next();
    reads(rt, &cursor, (Some(1), Some(2), None, Some(0)));
}

/// Reads the items 1 to 3 from the front.
fn reads_all(rt: &impl Abort, list: &List<Item>) {
    let mut wanted = [1u64, 2, 3].iter();
    for item in list.cursor_front() {
        same(rt, Some(&item.value), wanted.next());
    }
    same(rt, wanted.next(), None);
}

#[test]
fn reads_on_from_its_place(rt: HostRuntime) {
    let list = list_of(&rt, rt.alloc(), &[1, 2, 3]);
    for _ in 0..2u8 {
        reads_on(&rt, &list);
        reads_all(&rt, &list);
    }
}

#[test]
fn cursors_begin_at_the_null_place(rt: HostRuntime) {
    let mut list = list_of(&rt, rt.alloc(), &[1, 2, 3]);
    let null = (None, Some(1), Some(3), None);
    reads(&rt, &list.cursor(), null);
    sees(&rt, &list.cursor_mut(), null);
    let none: List<Item> = List::new();
    reads(&rt, &none.cursor(), (None, None, None, None));
}

#[test]
fn a_second_reader_goes_its_own_way(rt: HostRuntime) {
    let list = list_of(&rt, rt.alloc(), &[1, 2, 3]);
    let mut cursor = list.cursor();
    let stays = made(&rt, cursor.clone());
    cursor.move_next();
    reads(&rt, &stays, (None, Some(1), Some(3), None));
    reads(&rt, &cursor, (Some(1), Some(2), None, Some(0)));
    let mut items = list.iter();
    shows(&rt, items.next(), Some(1));
    let mut again = made(&rt, items.clone());
    for wanted in [Some(2u64), Some(3), None] {
        shows(&rt, items.next(), wanted);
    }
    for wanted in [Some(3u64), Some(2), None] {
        shows(&rt, again.next_back(), wanted);
    }
}
