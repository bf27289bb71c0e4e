//! What cursors see.

use crate::compared::same;
use cordyceps_list::cursor::Cursor;
use cordyceps_list::cursor_mut::CursorMut;
use std::process::Abort;
use test_support::items::{Item, value};

/// What a cursor sees: the current value, the next, the one before, and the index.
pub type Sight = (Option<u64>, Option<u64>, Option<u64>, Option<usize>);

/// Asserts what a reader sees.
pub fn reads(rt: &impl Abort, reader: &Cursor<'_, Item>, wanted: Sight) {
    let sight = (
        value(reader.current()),
        value(reader.peek_next()),
        value(reader.peek_prev()),
        reader.index(),
    );
    same(rt, sight, wanted);
}

/// Asserts what a cursor sees, and a reader at its place.
pub fn sees(rt: &impl Abort, cursor: &CursorMut<'_, Item>, wanted: Sight) {
    let sight = (
        value(cursor.current()),
        value(cursor.peek_next()),
        value(cursor.peek_prev()),
        cursor.index(),
    );
    same(rt, sight, wanted);
    reads(rt, &cursor.as_cursor(), wanted);
}
