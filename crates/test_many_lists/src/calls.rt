//! Calls of lists that share their nodes, by places, and what they hold beside plain vectors.
ghost use Rattle.std.specs.Prelude.{◌≡◌, ◌≤◌, ◌<◌, true};
ghost use Rattle.cordyceps_base.specs.BySpot.{HasSpot};
ghost use Rattle.cordyceps_many.specs.MultiList.{list_at};
ghost use Rattle.cordyceps_many.specs.Threads.{is_in};

use crate::compared::{at_most, made, same};
use crate::plain::{Call, Plain, Reply};
use cordyceps_many::hooks::Hooks;
use cordyceps_many::multi_list::MultiList;
use cordyceps_many::node::MultiNode;
use cordyceps_single::sorted_list::Least;
use cordyceps_stable::stable_list::Spot;
use std::alloc::Global;
use std::process::Abort;

/// No list of a test is longer.
const LONGEST: usize = 10_000;

/// Lists of numbers.
pub type Lists<H> = MultiList<u64, H>;

/// Returns the spot at a place of list `i`.
pub fn spot_at<H: Hooks>(rt: &impl Abort, lists: &Lists<H>, i: usize, at: usize) -> Spot
    requires { i < H.count }
    ensures there { HasSpot lists.now.nodes result }
    ensures in_list { is_in result (list_at i lists.now.lists) ≡ true }
{
    let mut spot = lists.front(i).expect(rt, "the list has a node");
    for _ in 0..at {
        spot = lists.next(i, spot).expect(rt, "the list has such a place");
    }
    spot
}

/// Asserts what list `i` holds, forth and back.
fn list_holds<H: Hooks>(rt: &impl Abort, lists: &Lists<H>, i: usize, plain: &Plain)
    requires { i < H.count }
{
    let numbers = plain.list(i);
    same(
        rt,
        (lists.len(i), lists.is_empty(i)),
        (numbers.len(), numbers.is_empty()),
    );
    same(
        rt,
        lists.iter(i).size_hint(),
        (numbers.len(), Some(numbers.len())),
    );
    let mut at = lists.front(i);
    for number in numbers {
        let spot = at.expect(rt, "a walk meets each node");
        same(
            rt,
            (lists.id(spot), *lists.get(spot)),
            (*number, plain.value(rt, *number)),
        );
        at = lists.next(i, spot);
    }
    same(rt, at.is_none(), true);
    let mut at = lists.back(i);
    for number in numbers.iter().rev() {
        let spot = at.expect(rt, "a walk back meets each node");
        same(rt, lists.id(spot), *number);
        at = lists.prev(i, spot);
    }
    same(rt, at.is_none(), true);
}

/// Asserts which nodes are in list `i`.
fn marks_hold<H: Hooks>(rt: &impl Abort, lists: &Lists<H>, i: usize, plain: &Plain)
    requires { i < H.count }
{
    let mut at = lists.front(0);
    for number in plain.list(0) {
        let spot = at.expect(rt, "a walk meets each node");
        same(rt, lists.is_linked(i, spot), plain.has(i, *number));
        at = lists.next(0, spot);
    }
}

/// Asserts what all lists hold. The last of them is list `last`.
pub fn holds<H: Hooks>(rt: &impl Abort, lists: &Lists<H>, last: usize, plain: &Plain)
    requires { last < H.count }
{
    for i in 0..plain.lists.len() {
        at_most(rt, i, last);
        list_holds(rt, lists, i, plain);
        marks_hold(rt, lists, i, plain);
    }
}

/// Links the node at `at` at an end of list `i`, unless it is in that.
fn link_end<H: Hooks>(
    rt: &impl Abort,
    lists: &mut Lists<H>,
    i: usize,
    at: usize,
    is_back: bool,
) -> Reply
    requires { i < H.count }
{
    let spot = spot_at(rt, lists, 0, at);
    if lists.is_linked(i, spot) {
        return Reply::NotMade;
    }
    if is_back {
        lists.link_back(i, spot);
    } else {
        lists.link_front(i, spot);
    }
    Reply::Done
}

/// Links the node at `at` beside the one at `other` in list `i`, unless it is in that, or the other is not.
fn link_beside<H: Hooks>(
    rt: &impl Abort,
    lists: &mut Lists<H>,
    i: usize,
    places: (usize, usize),
    is_after: bool,
) -> Reply
    requires { i < H.count }
{
    let spot = spot_at(rt, lists, 0, places.0);
    let other = spot_at(rt, lists, 0, places.1);
    if lists.is_linked(i, spot) || !lists.is_linked(i, other) {
        return Reply::NotMade;
    }
    if is_after {
        lists.link_after(i, spot, other);
    } else {
        lists.link_before(i, spot, other);
    }
    Reply::Done
}

/// Links the node at `at` in list `i` where the order of the values puts it, unless it is in that.
fn link_in_order<H: Hooks>(rt: &impl Abort, lists: &mut Lists<H>, i: usize, at: usize) -> Reply
    requires { i < H.count }
{
    let spot = spot_at(rt, lists, 0, at);
    if lists.is_linked(i, spot) {
        return Reply::NotMade;
    }
    lists.link_in_order(i, spot, &Least);
    Reply::Done
}

/// Moves the node at `at` to an end of list `i`, if it is in that.
fn move_to_end<H: Hooks>(
    rt: &impl Abort,
    lists: &mut Lists<H>,
    i: usize,
    at: usize,
    is_back: bool,
) -> Reply
    requires { i < H.count }
{
    let spot = spot_at(rt, lists, 0, at);
    if !lists.is_linked(i, spot) {
        return Reply::NotMade;
    }
    if is_back {
        lists.move_to_back(i, spot);
    } else {
        lists.move_to_front(i, spot);
    }
    Reply::Done
}

/// Takes the node at `at` out of list `i`, unless that is list 0. `is_sure` requires that it is in the list.
fn unlink<H: Hooks>(
    rt: &impl Abort,
    lists: &mut Lists<H>,
    i: usize,
    at: usize,
    is_sure: bool,
) -> Reply
    requires { i < H.count }
{
    let spot = spot_at(rt, lists, 0, at);
    if i == 0 {
        return Reply::NotMade;
    }
    if !is_sure {
        lists.ensure_unlinked(i, spot);
        return Reply::Done;
    }
    if !lists.is_linked(i, spot) {
        return Reply::NotMade;
    }
    lists.unlink(i, spot);
    Reply::Done
}

/// Takes the first node of list `i` out of that, unless that is list 0.
fn unlink_front<H: Hooks>(lists: &mut Lists<H>, i: usize) -> Reply
    requires { i < H.count }
{
    if i == 0 {
        return Reply::NotMade;
    }
    match lists.unlink_front(i) {
        Some(spot) => Reply::At(Some(lists.id(spot))),
        None => Reply::At(None),
    }
}

/// Returns what came out.
fn out<H: Hooks>(node: MultiNode<u64, H>) -> Reply {
    let number = node.id();
    Reply::Out(Some((number, node.into_value())))
}

/// Makes a call that moves nodes within a list or takes them out of one. The last of the lists is list `last`.
fn relink<H: Hooks>(rt: &impl Abort, lists: &mut Lists<H>, last: usize, call: Call) -> Reply
    requires { last < H.count }
{
    match call {
        Call::MoveToBack(i, at) => {
            at_most(rt, i, last);
            move_to_end(rt, lists, i, at, true)
        }
        Call::MoveToFront(i, at) => {
            at_most(rt, i, last);
            move_to_end(rt, lists, i, at, false)
        }
        Call::Unlink(i, at) => {
            at_most(rt, i, last);
            unlink(rt, lists, i, at, true)
        }
        Call::EnsureUnlinked(i, at) => {
            at_most(rt, i, last);
            unlink(rt, lists, i, at, false)
        }
        Call::UnlinkFront(i) => {
            at_most(rt, i, last);
            unlink_front(lists, i)
        }
        _ => Reply::NotMade,
    }
}

/// Makes a call that links nodes. The last of the lists is list `last`.
fn link<H: Hooks>(rt: &impl Abort, lists: &mut Lists<H>, last: usize, call: Call) -> Reply
    requires { last < H.count }
{
    match call {
        Call::LinkBack(i, at) => {
            at_most(rt, i, last);
            link_end(rt, lists, i, at, true)
        }
        Call::LinkFront(i, at) => {
            at_most(rt, i, last);
            link_end(rt, lists, i, at, false)
        }
        Call::LinkBefore(i, at, other) => {
            at_most(rt, i, last);
            link_beside(rt, lists, i, (at, other), false)
        }
        Call::LinkAfter(i, at, other) => {
            at_most(rt, i, last);
            link_beside(rt, lists, i, (at, other), true)
        }
        Call::LinkInOrder(i, at) => {
            at_most(rt, i, last);
            link_in_order(rt, lists, i, at)
        }
        _ => relink(rt, lists, last, call),
    }
}

/// Makes a call, and returns its reply. The last of the lists is list `last`.
pub fn reply<H: Hooks>(
    rt: &impl Abort,
    alloc: Global,
    lists: &mut Lists<H>,
    last: usize,
    call: Call,
) -> Reply
    requires { last < H.count }
{
    match call {
        Call::Insert((number, value)) => {
            at_most(rt, lists.len(0), LONGEST);
            let node = made(rt, MultiNode::new(alloc, number, value));
            let spot = lists.insert(node);
            same(rt, (lists.id(spot), *lists.get(spot)), (number, value));
            Reply::Done
        }
        Call::Remove(at) => {
            let spot = spot_at(rt, lists, 0, at);
            out(lists.remove(spot))
        }
        Call::PopFront(i) => {
            at_most(rt, i, last);
            match lists.pop_front(i) {
                Some(node) => out(node),
                None => Reply::Out(None),
            }
        }
        Call::Clear => {
            lists.clear();
            Reply::Done
        }
        Call::Write(at, value) => {
            let spot = spot_at(rt, lists, 0, at);
            *lists.get_mut(spot) = value;
            Reply::Done
        }
        Call::UnlinkOthers(at) => {
            let spot = spot_at(rt, lists, 0, at);
            lists.unlink_others(spot);
            Reply::Done
        }
        _ => link(rt, lists, last, call),
    }
}
