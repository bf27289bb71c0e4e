//! Nodes, lists and their iterators that go to other threads, and that threads share.
//!
//! A generic function says for every type of value what can be sent and shared: it is refused where that is not so.
use crate::compared::{made, same};
use crate::items::{has_number, holds, list_of};
use cordyceps_base::node::Node;
use cordyceps_base::{list, mpsc_queue, stack};
use cordyceps_list::cursor::Cursor;
use cordyceps_list::cursor_mut::CursorMut;
use cordyceps_list::filter::DrainFilter;
use cordyceps_list::iter::{IntoIter, Iter};
use cordyceps_list::iter_mut::IterMut;
use cordyceps_list::list::List;
use std::alloc::Global;
use std::marker::{Send, Sync};
use std::process::Abort;
use std::thread;
use test_support::items::Item;
use test_support::nodes::node_of;
use test_support::travels::{sent, shared};

/// A node of each kind.
type Nodes<T> = (
    Node<T, list::Links<T>>,
    Node<T, stack::Links<T>>,
    Node<T, mpsc_queue::Links<T>>,
);

/// What owns elements, or lends them to be changed.
type Owners<'a, T, F> = (
    Nodes<T>,
    List<T>,
    IntoIter<T>,
    IterMut<'a, T>,
    CursorMut<'a, T>,
    DrainFilter<'a, T, F>,
);

/// What owns elements, or lends them to be changed, can be sent where the values can.
fn owners_travel_where_their_values_do<'a, T: Send + Drop, F: Send>(
    owners: Owners<'a, T, F>,
) -> Owners<'a, T, F> {
    sent(owners)
}

/// What owns elements, or lends them to be changed, can be shared where the values can.
fn owners_are_shared_where_their_values_are<'a, 'b, T: Sync, F: Sync>(
    owners: &'b Owners<'a, T, F>,
) -> &'b Owners<'a, T, F> {
    shared(owners)
}

/// What reads elements can be sent and shared where the values can be shared.
fn readers_travel_where_their_values_are_shared<'a, T: Sync>(
    readers: (&'a List<T>, Iter<'a, T>, Cursor<'a, T>),
) -> (&'a List<T>, Iter<'a, T>, Cursor<'a, T>) {
    let _ = shared(&readers);
    sent(readers)
}

/// Returns the sum of a list's values.
fn sum(list: &List<Item>) -> u64 {
    let mut sum: u64 = 0;
    for item in list {
        sum = sum.wrapping_add(item.value);
    }
    sum
}

#[test]
fn threads_read_one_list_and_change_another(rt: HostRuntime) {
    let read = list_of(&rt, rt.alloc(), &[1, 20, 300]);
    let list = list_of(&rt, rt.alloc(), &[1, 2, 3]);
    let (here, (there, mut changed)) = thread::join(
        &rt,
        || sum(&read),
        || -> (u64, List<Item>) {
            let mut list = list;
            drop(list.pop_front());
            (sum(&read), list)
        },
    );
    same(&rt, (here, there), (321, 321));
    holds(&rt, &changed, &[2, 3]);
    has_number(&rt, changed.pop_back(), Some(3));
}

#[test]
fn what_reads_a_list_goes_on_where_it_was_sent(rt: HostRuntime) {
    let list = list_of(&rt, rt.alloc(), &[1, 2, 3]);
    let readers = (&list, list.iter(), list.cursor_front());
    let (read, iter, cursor) = readers_travel_where_their_values_are_shared(readers);
    same(
        &rt,
        (read.len(), iter.count(), cursor.index()),
        (3, 3, Some(0)),
    );
}

/// Returns a node of each kind.
fn three_nodes(rt: &impl Abort, alloc: Global) -> Nodes<Item> {
    (
        made(rt, node_of(alloc, 1, Item { value: 10 })),
        made(rt, node_of(alloc, 2, Item { value: 20 })),
        made(rt, node_of(alloc, 3, Item { value: 30 })),
    )
}

/// Asserts that what the next test sends has come whole.
fn are_whole<F: FnMut(&Item) -> bool + Drop>(rt: &impl Abort, owners: &Owners<'_, Item, F>) {
    let ((of_list, of_stack, of_queue), list, into_iter, iter_mut, cursor_mut, filter) = owners;
    same(rt, of_list.get().value, 10);
    same(rt, of_stack.get().value, 20);
    same(rt, of_queue.get().value, 30);
    same(rt, list.len(), 1);
    same(rt, into_iter.len(), 3);
    same(rt, iter_mut.len(), 2);
    same(rt, cursor_mut.index(), Some(0));
    same(rt, filter.size_hint(), (0, Some(2)));
}

#[test]
fn what_owns_or_changes_elements_is_sent_and_shared(rt: HostRuntime) {
    let alloc = rt.alloc();
    let owned = list_of(&rt, alloc, &[1, 2, 3]);
    let mut lent = list_of(&rt, alloc, &[4, 5]);
    let mut walked = list_of(&rt, alloc, &[6]);
    let mut drained = list_of(&rt, alloc, &[7, 8]);
    let owners = owners_travel_where_their_values_do((
        three_nodes(&rt, alloc),
        list_of(&rt, alloc, &[9]),
        owned.into_iter(),
        lent.iter_mut(),
        walked.cursor_front_mut(),
        drained.drain_filter(|item: &Item| item.value == 8),
    ));
    are_whole(&rt, owners_are_shared_where_their_values_are(&owners));
}
