//! Calls of lists that share their nodes one after the other, what they reply, and what is dropped.
use crate::calls::Lists;
use crate::compared::{at_most, made, same};
use crate::operations::agree;
use crate::plain::{Call, Plain, Reply};
use cordyceps_many::hooks::{Hooks, One, Three, Two};
use cordyceps_many::iter::Iter;
use cordyceps_many::multi_list::MultiList;
use cordyceps_many::node::MultiNode;
use std::alloc::{AllocError, Global};
use test_support::counted::{Counted, Drops};

/// Calls of three lists that are empty at first, and what they reply.
const CALLS: &[(Call, Reply)] = &[
    (Call::PopFront(0), Reply::Out(None)),
    (Call::UnlinkFront(1), Reply::At(None)),
    (Call::Insert((0, 50)), Reply::Done),
    (Call::Insert((1, 51)), Reply::Done),
    (Call::Insert((2, 52)), Reply::Done),
    (Call::Insert((3, 53)), Reply::Done),
    // list 1 is 1 3 0 2
    (Call::LinkBack(1, 0), Reply::Done),
    (Call::LinkFront(1, 1), Reply::Done),
    (Call::LinkAfter(1, 2, 0), Reply::Done),
    (Call::LinkBefore(1, 3, 0), Reply::Done),
    // a node is in a list once
    (Call::LinkBack(1, 3), Reply::NotMade),
    (Call::LinkFront(0, 3), Reply::NotMade),
    (Call::LinkBefore(2, 3, 0), Reply::NotMade),
    // list 2 is 3 2
    (Call::LinkBack(2, 3), Reply::Done),
    (Call::LinkAfter(2, 2, 3), Reply::Done),
    // the middle of list 1 comes out, and list 2 keeps it
    (Call::Unlink(1, 3), Reply::Done),
    (Call::Unlink(1, 3), Reply::NotMade),
    (Call::EnsureUnlinked(1, 3), Reply::Done),
    (Call::UnlinkFront(2), Reply::At(Some(3))),
    // list 1 is 1 0 2
    (Call::MoveToBack(1, 1), Reply::Done),
    (Call::MoveToFront(1, 2), Reply::Done),
    (Call::Write(2, 99), Reply::Done),
    // list 1 is 2 0 1, and list 2 is 2
    (Call::PopFront(2), Reply::Out(Some((2, 99)))),
    (Call::UnlinkFront(1), Reply::At(Some(0))),
    (Call::UnlinkOthers(1), Reply::Done),
    (Call::UnlinkFront(1), Reply::At(None)),
    (Call::MoveToFront(0, 2), Reply::Done),
    (Call::Remove(0), Reply::Out(Some((3, 53)))),
    (Call::PopFront(0), Reply::Out(Some((0, 50)))),
    (Call::Clear, Reply::Done),
    (Call::PopFront(0), Reply::Out(None)),
    // list 1 is in order, and of two equals the one that was linked first comes first: 5 7 6 4
    (Call::Insert((4, 7)), Reply::Done),
    (Call::Insert((5, 3)), Reply::Done),
    (Call::Insert((6, 7)), Reply::Done),
    (Call::Insert((7, 5)), Reply::Done),
    (Call::LinkInOrder(1, 2), Reply::Done),
    (Call::LinkInOrder(1, 0), Reply::Done),
    (Call::LinkInOrder(1, 1), Reply::Done),
    (Call::LinkInOrder(1, 3), Reply::Done),
    (Call::LinkInOrder(1, 3), Reply::NotMade),
    (Call::UnlinkFront(1), Reply::At(Some(5))),
    (Call::UnlinkFront(1), Reply::At(Some(7))),
    (Call::UnlinkFront(1), Reply::At(Some(6))),
    (Call::UnlinkFront(1), Reply::At(Some(4))),
    (Call::UnlinkFront(1), Reply::At(None)),
    // in a list that is not in order, a node goes after the last that is not greater
    (Call::LinkBack(2, 0), Reply::Done),
    (Call::LinkBack(2, 1), Reply::Done),
    (Call::LinkBack(2, 2), Reply::Done),
    (Call::LinkInOrder(2, 3), Reply::Done),
    (Call::UnlinkFront(2), Reply::At(Some(4))),
    (Call::UnlinkFront(2), Reply::At(Some(5))),
    (Call::UnlinkFront(2), Reply::At(Some(7))),
    (Call::UnlinkFront(2), Reply::At(Some(6))),
];

#[test]
fn calls_reply_and_leave_what_they_should(rt: HostRuntime) {
    let mut lists: Lists<Three> = MultiList::default();
    let mut plain = Plain::new(&rt, rt.alloc(), 3);
    for (call, wanted) in CALLS {
        let came = agree(&rt, rt.alloc(), &mut lists, 2, &mut plain, *call);
        same(&rt, came, *wanted);
    }
}

#[test]
fn a_node_keeps_its_number_and_its_value(rt: HostRuntime) {
    let mut node: MultiNode<u64, Two> = made(&rt, MultiNode::new(rt.alloc(), 4, 40));
    same(&rt, (node.id(), *node.get()), (4, 40));
    node.set_id(5);
    let mut lists = MultiList::new();
    let spot = lists.insert(node);
    lists.link_front(1, spot);
    lists.lists_agree();
    let node = lists.remove(spot);
    same(&rt, (node.id(), *node.get()), (5, 40));
    same(&rt, node.into_value(), 40);
}

/// Returns the value of the next node that is left.
fn next_value(left: &mut Iter<'_, u64, Two>) -> Option<u64> {
    match left.next() {
        Some((_, value)) => Some(*value),
        None => None,
    }
}

#[test]
fn an_iterator_knows_how_many_are_left(rt: HostRuntime) {
    let mut lists: Lists<Two> = MultiList::new();
    for number in 0..3u64 {
        at_most(&rt, lists.len(0), 3);
        let node = made(&rt, MultiNode::new(rt.alloc(), number, number));
        let spot = lists.insert(node);
        at_most(&rt, lists.len(1), 3);
        lists.link_front(1, spot);
    }
    let mut left = lists.iter(1);
    for wanted in [2u64, 1, 0] {
        let count = (wanted as usize).wrapping_add(1);
        same(&rt, left.size_hint(), (count, Some(count)));
        same(&rt, next_value(&mut left), Some(wanted));
    }
    same(&rt, left.size_hint(), (0, Some(0)));
    same(&rt, next_value(&mut left), None);
}

/// Creates a node with a value whose drop is counted.
fn counted<H: Hooks>(
    alloc: Global,
    number: u64,
    drops: &Drops,
) -> Result<MultiNode<Counted, H>, AllocError> {
    match MultiNode::new(alloc, number, Counted::new(number, drops)?) {
        Ok(node) => Ok(node),
        Err(_) => Err(AllocError),
    }
}

#[test]
fn each_value_is_dropped_once(rt: HostRuntime) -> Result<(), AllocError> {
    let drops = Drops::new(rt.alloc())?;
    let mut lists: MultiList<Counted, Two> = MultiList::new();
    for number in 0..4u64 {
        at_most(&rt, lists.len(0), 4);
        let spot = lists.insert(counted(rt.alloc(), number, &drops)?);
        at_most(&rt, lists.len(1), 4);
        lists.link_front(1, spot);
    }
    same(&rt, drops.count(), 0);
    drop(lists.pop_front(1));
    same(&rt, drops.count(), 1);
    lists.clear();
    same(&rt, drops.count(), 4);
    lists.insert(counted(rt.alloc(), 8, &drops)?);
    let alone: MultiNode<Counted, One> = counted(rt.alloc(), 9, &drops)?;
    drop(alone);
    same(&rt, drops.count(), 5);
    drop(lists);
    same(&rt, drops.count(), 6);
    Ok(())
}
