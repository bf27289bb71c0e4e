//! Calls of a tree, and what they reply.
ghost use Rattle.std.specs.Prelude.{◌≡◌, IfSome};
ghost use Rattle.cordyceps_base.specs.BySpot.{HasSpot};

use crate::compared::{at_most, made, same};
use cordyceps_single::sorted_list::{Least, Order};
use cordyceps_stable::stable_list::Spot;
use cordyceps_tree::node::TreeNode;
use cordyceps_tree::stable_tree::StableTree;
use std::alloc::Global;
use std::mem;
use std::process::Abort;

/// No tree of a test is larger.
const LARGEST: usize = 10_000;

/// The number and the key of an element.
pub type Pair = (u64, u64);

/// The key before a spot, the one at it, and the one after it.
pub type Sight = (Option<u64>, Option<u64>, Option<u64>);

/// A tree with the least key first.
pub type Keys = StableTree<u64, Least>;

/// A call of a tree. It names an element by its place, from 0 on.
#[derive(Drop)]
pub enum Call {
    Insert(Pair),
    /// Inserts an element, if there is room for one more.
    TryInsert(Pair),
    PopFront,
    PopBack,
    First,
    Last,
    Remove(usize),
    /// Changes a key.
    Update(usize, u64),
    /// Replaces an element by one of this number and the same key.
    Replace(usize, u64),
    /// Reads the keys around an element.
    Read(usize),
    LowerBound(u64),
    UpperBound(u64),
    Find(u64),
    /// Searches the first key that is not below this one, by a test.
    PartitionPoint(u64),
    Clear,
}

/// What a call replies.
#[derive(Clone, Copy, Debug, PartialEq)]
pub enum Reply {
    /// This element came out, or came back, or none.
    Out(Option<Pair>),
    /// The keys around the spot that the call returned or took.
    At(Sight),
    /// The key that was changed, and then the same.
    Changed(u64, Sight),
    /// There is no spot, or nothing to reply.
    Nothing,
}

/// Returns a node of this number and key.
pub fn make(rt: &impl Abort, alloc: Global, pair: Pair) -> TreeNode<u64>
    ensures { result.value ≡ pair.1 }
{
    made(rt, TreeNode::new(alloc, pair.0, pair.1))
}

/// Drops a node that came out, if one did, and returns its number and its key.
pub fn parts(node: Option<TreeNode<u64>>) -> Option<Pair> {
    let node = node?;
    Some((node.id(), node.into_value()))
}

/// Inserts elements one after the other.
pub fn insert_all<O: Order<u64>>(
    rt: &impl Abort,
    alloc: Global,
    tree: &mut StableTree<u64, O>,
    pairs: &[Pair],
)
    requires { O.can_compare tree.old.order }
    ensures { tree.new.order ≡ tree.old.order }
{
    for pair in pairs {
        at_most(rt, tree.len(), LARGEST);
        tree.insert(make(rt, alloc, *pair));
    }
}

/// Asserts the keys that a tree holds, from both ends.
pub fn holds<O: Order<u64>>(rt: &impl Abort, tree: &StableTree<u64, O>, pairs: &[Pair]) {
    let wanted = (pairs.len(), pairs.is_empty());
    same(rt, (tree.len(), tree.is_empty()), wanted);
    tree.spots_are_distinct();
    let mut walk = tree.iter();
    for pair in pairs {
        let key = match walk.next() {
            Some((_, key)) => Some(*key),
            None => None,
        };
        same(rt, key, Some(pair.1));
    }
    same(rt, walk.next().is_none(), true);
}

/// Returns the spot of the element at a place.
fn spot_at(rt: &impl Abort, tree: &Keys, place: usize) -> Spot
    ensures { HasSpot tree.now.nodes result }
{
    let mut at = tree.first().expect(rt, "the tree has an element");
    for _ in 0..place {
        at = tree.next(at).expect(rt, "the place has an element");
    }
    at
}

/// Returns the keys before a spot, at it and after it.
fn around(tree: &Keys, spot: Spot) -> Sight
    requires { HasSpot tree.now.nodes spot }
{
    let mut keys = (None, Some(*tree.get(spot)), None);
    if let Some(before) = tree.prev(spot) {
        keys.0 = Some(*tree.get(before));
    }
    if let Some(after) = tree.next(spot) {
        keys.2 = Some(*tree.get(after));
    }
    keys
}

/// Returns what a call replies that is at a spot afterwards, or at none.
fn reply_at(tree: &Keys, spot: Option<Spot>) -> Reply
    requires { IfSome spot (λ p. HasSpot tree.now.nodes p) }
{
    match spot {
        Some(spot) => Reply::At(around(tree, spot)),
        None => Reply::Nothing,
    }
}

/// Makes a call that changes nothing, and returns its reply.
fn look(rt: &impl Abort, tree: &Keys, call: &Call) -> Reply {
    match call {
        Call::First => reply_at(tree, tree.first()),
        Call::Last => reply_at(tree, tree.last()),
        Call::Read(at) => Reply::At(around(tree, spot_at(rt, tree, *at))),
        Call::LowerBound(key) => reply_at(tree, tree.lower_bound(key)),
        Call::UpperBound(key) => reply_at(tree, tree.upper_bound(key)),
        Call::Find(key) => reply_at(tree, tree.find(key)),
        Call::PartitionPoint(key) => {
            let key = *key;
            reply_at(tree, tree.partition_point(move |other: &u64| *other < key))
        }
        _ => Reply::Nothing,
    }
}

/// Replaces an element by one of this number and the same key. Returns what came out, and the new spot.
fn exchanged(
    rt: &impl Abort,
    alloc: Global,
    tree: &mut Keys,
    spot: Spot,
    number: u64,
) -> (Pair, Spot)
    requires { HasSpot tree.old.nodes spot }
    ensures { HasSpot tree.new.nodes result.1 }
{
    // for the proof: the spot has one key
    tree.spots_are_distinct();
    let key = *tree.get(spot);
    let (old, new) = tree.replace(spot, make(rt, alloc, (number, key)));
    ((old.id(), old.into_value()), new)
}

/// Makes a call, and returns its reply.
pub fn make_call(rt: &impl Abort, alloc: Global, tree: &mut Keys, call: &Call) -> Reply {
    at_most(rt, tree.len(), LARGEST);
    match call {
        Call::Insert(pair) => {
            let spot = tree.insert(make(rt, alloc, *pair));
            Reply::At(around(tree, spot))
        }
        Call::TryInsert(pair) => match tree.try_insert(make(rt, alloc, *pair)) {
            Ok(spot) => Reply::At(around(tree, spot)),
            Err(back) => Reply::Out(parts(Some(back))),
        },
        Call::PopFront => Reply::Out(parts(tree.pop_front())),
        Call::PopBack => Reply::Out(parts(tree.pop_back())),
        Call::Remove(at) => {
            let spot = spot_at(rt, tree, *at);
            Reply::Out(parts(Some(tree.remove(spot))))
        }
        Call::Update(at, key) => {
            let spot = spot_at(rt, tree, *at);
            let key = *key;
            let old = tree.update(spot, |value| mem::replace(value, key));
            Reply::Changed(old, around(tree, spot))
        }
        Call::Replace(at, number) => {
            let spot = spot_at(rt, tree, *at);
            let (old, new) = exchanged(rt, alloc, tree, spot, *number);
            same(rt, *tree.get(new), old.1);
            Reply::Out(Some(old))
        }
        Call::Clear => {
            tree.clear();
            Reply::Nothing
        }
        _ => look(rt, tree, call),
    }
}
