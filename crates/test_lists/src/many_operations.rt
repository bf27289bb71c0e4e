//! Runs of many operations on a list, beside a queue that should hold the same.
use crate::compared::{at_most, made, same};
use crate::items::{has_number, item, shows};
use crate::sights::{Sight, sees};
use cordyceps_list::cursor_mut::CursorMut;
use cordyceps_list::list::List;
use std::alloc::Global;
use std::collections::VecDeque;
use std::process::Abort;
use test_support::draws::Draws;
use test_support::items::Item;

/// The items' numbers are below this, so that a list mostly has some of them twice and lacks others.
const NUMBERS: u64 = 24;

/// A list, and a queue that should hold the same.
#[derive(Drop)]
struct Both {
    list: List<Item>,
    queue: VecDeque<u64>,
}

impl Both {
    fn empty(alloc: Global) -> Both {
        Both {
            list: List::new(),
            queue: VecDeque::new(alloc),
        }
    }

    fn push_back(&mut self, rt: &impl Abort, alloc: Global, v: u64) {
        at_most(rt, self.list.len(), 1_000_000);
        self.list.push_back(item(rt, alloc, v));
        made(rt, self.queue.push_back(v));
    }

    fn push_front(&mut self, rt: &impl Abort, alloc: Global, v: u64) {
        at_most(rt, self.list.len(), 1_000_000);
        self.list.push_front(item(rt, alloc, v));
        made(rt, self.queue.push_front(v));
    }

    /// Asserts that the list holds what the queue does, from both ends.
    fn agree(&self, rt: &impl Abort) {
        same(rt, self.list.len(), self.queue.len());
        same(rt, self.list.is_empty(), self.queue.is_empty());
        shows(rt, self.list.front(), self.queue.front().copied());
        shows(rt, self.list.back(), self.queue.back().copied());
        let (mut forth, mut back) = (self.list.iter(), self.list.iter());
        let len = self.queue.len();
        for at in 0..len {
            shows(rt, forth.next(), self.queue.get(at).copied());
            shows(rt, back.next_back(), self.queue.get(len - 1 - at).copied());
        }
        shows(rt, forth.next(), None);
        shows(rt, back.next_back(), None);
    }

    /// Appends what the other two hold to what these hold.
    fn join(&mut self, rt: &impl Abort, more: &mut Both) {
        at_most(rt, self.list.len(), 1_000_000);
        at_most(rt, more.list.len(), 1_000_000);
        self.list.append(&mut more.list);
        made(rt, self.queue.append(&mut more.queue));
    }

    /// Appends a second list of 0 to 4 items.
    fn append(&mut self, rt: &impl Abort, alloc: Global, draws: &mut Draws) {
        let mut more = Both::empty(alloc);
        for _ in 0..draws.below(5) {
            more.push_back(rt, alloc, draws.below(NUMBERS));
        }
        self.join(rt, &mut more);
        more.agree(rt);
    }

    /// Splits at a drawn place, and keeps one of the parts, or both the other way round.
    fn split(&mut self, rt: &impl Abort, draws: &mut Draws) {
        at_most(rt, self.list.len(), 1_000_000);
        let at = draws.place(self.list.len());
        at_most(rt, at, self.queue.len());
        let queue = made(rt, self.queue.split_off(at));
        let list = self.list.split_off(at);
        let mut rest = Both { list, queue };
        self.agree(rt);
        rest.agree(rt);
        match draws.below(4) {
            0 => {}
            1 => *self = rest,
            _ => {
                rest.join(rt, self);
                *self = rest;
            }
        }
    }

    /// Removes the first item of the number.
    fn remove(&mut self, rt: &impl Abort, v: u64) {
        let wanted = match self.queue.iter().position(|held| *held == v) {
            Some(at) => self.queue.remove(at),
            None => None,
        };
        has_number(rt, self.list.remove(v), wanted);
    }

    /// Moves a cursor to a drawn place, and inserts there or removes.
    fn edit(&mut self, rt: &impl Abort, alloc: Global, draws: &mut Draws) {
        at_most(rt, self.list.len(), 1_000_000);
        let at = draws.place(self.list.len());
        let mut cursor = moved(&mut self.list, at, draws);
        sees(rt, &cursor, sight_at(&self.queue, at));
        let place = change(rt, alloc, &mut cursor, &mut self.queue, at, draws);
        sees(rt, &cursor, sight_at(&self.queue, place));
    }

    /// Does one drawn operation.
    fn operate(&mut self, rt: &impl Abort, alloc: Global, draws: &mut Draws) {
        let v = draws.below(NUMBERS);
        match draws.below(12) {
            0 | 1 => self.push_front(rt, alloc, v),
            2 | 3 => self.push_back(rt, alloc, v),
            4 => has_number(rt, self.list.pop_front(), self.queue.pop_front()),
            5 => has_number(rt, self.list.pop_back(), self.queue.pop_back()),
            6 => self.append(rt, alloc, draws),
            7 => self.split(rt, draws),
            8 | 9 => self.remove(rt, v),
            _ => self.edit(rt, alloc, draws),
        }
    }
}

/// Returns a cursor that went to a place over the front or over the back, from either end.
fn moved<'a>(list: &'a mut List<Item>, at: usize, draws: &mut Draws) -> CursorMut<'a, Item> {
    match draws.below(3) {
        0 => {
            let mut cursor = list.cursor_front_mut();
            cursor.go_on(at);
            cursor
        }
        1 => {
            let back = list.len().wrapping_sub(at).wrapping_add(1);
            let mut cursor = list.cursor_front_mut();
            cursor.go_back(back);
            cursor
        }
        _ => {
            let mut cursor = list.cursor_back_mut();
            cursor.go_on(at.wrapping_add(2));
            cursor
        }
    }
}

/// Returns what a cursor at a place should see of what a queue holds.
fn sight_at(queue: &VecDeque<u64>, at: usize) -> Sight {
    let (index, next) = if at < queue.len() {
        (Some(at), at + 1)
    } else {
        (None, 0)
    };
    (
        queue.get(at).copied(),
        queue.get(next).copied(),
        queue.get(at.wrapping_sub(1)).copied(),
        index,
    )
}

/// Inserts before or after the cursor at a place, or removes there, and returns the cursor's new place.
fn change(
    rt: &impl Abort,
    alloc: Global,
    cursor: &mut CursorMut<'_, Item>,
    queue: &mut VecDeque<u64>,
    at: usize,
    draws: &mut Draws,
) -> usize {
    let v = draws.below(NUMBERS);
    at_most(rt, cursor.len(), 1_000_000);
    at_most(rt, queue.len(), 1_000_000);
    at_most(rt, at, queue.len());
    match draws.below(3) {
        0 => {
            cursor.insert_before(item(rt, alloc, v));
            made(rt, queue.insert(at, v));
            at + 1
        }
        1 if at < queue.len() => {
            cursor.insert_after(item(rt, alloc, v));
            made(rt, queue.insert(at + 1, v));
            at
        }
        1 => {
            cursor.insert_after(item(rt, alloc, v));
            made(rt, queue.push_front(v));
            at + 1
        }
        _ => {
            has_number(rt, cursor.remove_current(), queue.remove(at));
            at
        }
    }
}

#[test]
fn many_operations_do_what_they_do_to_a_queue(rt: HostRuntime) {
    for start in 0..5u64 {
        let mut draws = Draws::new(start);
        let mut both = Both::empty(rt.alloc());
        for _ in 0..500u64 {
            both.operate(&rt, rt.alloc(), &mut draws);
            both.agree(&rt);
        }
    }
}
