//! What the lists hold, what their calls reply, and vectors of what they should hold.
ghost use Rattle.std.specs.Prelude.{◌≡◌, ◌≤◌, length};
ghost use Rattle.cordyceps_base.specs.BySpot.{HasSpot};

use crate::compared::{at_most, made, same};
use cordyceps_base::linked::Linked;
use cordyceps_base::node::Node;
use cordyceps_list::iter::Iter;
use cordyceps_list::list::Links;
use cordyceps_stable::stable_list::{Spot, SpotCursor};
use std::alloc::Global;
use std::process::Abort;
use test_support::nodes::node_of;

/// What a list holds, and what a sorted list is sorted by.
#[derive(Drop, PartialEq, Eq, PartialOrd, Ord)]
pub struct Key {
    pub value: u64,
}

/// What a list takes and returns.
pub type Handle = Node<Key, Links<Key>>;

/// The number and the key of an element.
pub type Pair = (u64, u64);

/// The key before a spot, the one at it, and the one after it.
pub type Sight = (Option<u64>, Option<u64>, Option<u64>);

/// An element that tables of calls name.
pub const ONE: Pair = (1, 10);

/// An element that tables of calls name.
pub const TWO: Pair = (2, 20);

/// An element that tables of calls name.
pub const THREE: Pair = (3, 30);

/// An element that tables of calls name.
pub const FOUR: Pair = (4, 40);

impl Linked<Links<Key>> for Key {
    type Handle = Handle;

    ghost element = { λ h. h };

    fn into_ptr(handle: Handle) -> Handle {
        handle
    }

    fn from_ptr(node: Handle) -> Handle
        ensures { result ≡ node }
    {
        node
    }
}

/// What a call of a list, a heap or a queue of times replies.
#[derive(Clone, Copy, Debug, PartialEq)]
pub enum Reply {
    /// This element came out, or came back, or none.
    Out(Option<Pair>),
    /// The keys around the spot that the call returned or took.
    At(Sight),
    /// The key that was changed, and then the same.
    Changed(u64, Sight),
    /// The key or the time that was read, or that was changed, if there is one.
    Read(Option<u64>),
    /// This time was read, and then this element came out.
    Removed(u64, Option<Pair>),
    /// So many elements were visited, whose keys have this sum.
    Sum(usize, u64),
    /// There is no spot, or nothing to reply.
    Nothing,
}

/// Returns a node of this number and key.
pub fn make(rt: &impl Abort, alloc: Global, pair: Pair) -> Handle {
    made(rt, node_of(alloc, pair.0, Key { value: pair.1 }))
}

/// Drops a node that came out, if one did, and returns its number and its key.
pub fn parts(node: Option<Handle>) -> Option<Pair> {
    let node = node?;
    Some((node.id(), node.into_value().value))
}

/// Returns the value of a key.
pub fn value(key: Option<&Key>) -> Option<u64> {
    match key {
        Some(key) => Some(key.value),
        None => None,
    }
}

/// Returns the spot at this distance from where a cursor is.
pub fn spot_at<T>(rt: &impl Abort, mut cursor: SpotCursor<'_, T>, moves: usize) -> Spot
    ensures { HasSpot cursor.entry.nodes result }
{
    for _ in 0..moves {
        cursor.move_next();
    }
    cursor.spot().expect(rt, "the place has an element")
}

/// Asserts which keys are read forth, and which are read back.
pub fn reads(rt: &impl Abort, mut forth: Iter<'_, Key>, mut back: Iter<'_, Key>, pairs: &[Pair]) {
    for pair in pairs {
        same(rt, value(forth.next()), Some(pair.1));
    }
    same(rt, value(forth.next()), None);
    for pair in pairs.iter().rev() {
        same(rt, value(back.next_back()), Some(pair.1));
    }
    same(rt, value(back.next_back()), None);
}

/// Returns the key at a place of a vector, if there is one.
fn key_at(pairs: &[Pair], at: usize) -> Option<u64> {
    Some(pairs.get(at)?.1)
}

/// Returns what a call replies that leaves a spot at a place of a vector.
pub fn reply_at(pairs: &[Pair], at: usize) -> Reply {
    if at >= pairs.len() {
        return Reply::Nothing;
    }
    Reply::At(keys_around(pairs, at))
}

/// Returns the keys before a place of a vector, at it and after it.
pub fn keys_around(pairs: &[Pair], at: usize) -> Sight {
    (
        key_at(pairs, at.wrapping_sub(1)),
        key_at(pairs, at),
        key_at(pairs, at.wrapping_add(1)),
    )
}

/// Inserts a pair at a place of a vector, and returns the place.
pub fn put(rt: &impl Abort, pairs: &mut Vec<Pair>, at: usize, pair: Pair) -> usize {
    at_most(rt, at, pairs.len());
    made(rt, pairs.insert(at, pair));
    at
}

/// Removes the pair at a place of a vector, if there is one.
pub fn taken(pairs: &mut Vec<Pair>, at: usize) -> Option<Pair> {
    if at < pairs.len() {
        Some(pairs.remove(at))
    } else {
        None
    }
}
