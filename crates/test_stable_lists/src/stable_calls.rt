//! Calls of a stable list, and what they reply.
ghost use Rattle.std.specs.Prelude.{◌<◌, length, IfSome};
ghost use Rattle.cordyceps_base.specs.BySpot.{HasSpot};

use crate::compared::{at_most, same};
use crate::keys::{Handle, Key, Pair, Reply, Sight, make, parts, reads, spot_at};
use crate::sorting::listed;
use cordyceps_stable::stable_list::{Spot, StableList};
use std::alloc::Global;
use std::process::Abort;

/// No list of a test is longer.
const LONGEST: usize = 10_000;

/// A call of a stable list. It names an element by its place, from 0 on.
#[derive(Drop)]
pub enum Call {
    PushFront(Pair),
    PushBack(Pair),
    TryPushFront(Pair),
    TryPushBack(Pair),
    /// Appends a list of these elements.
    Append(&'static [Pair]),
    PopFront,
    PopBack,
    Front,
    Back,
    Remove(usize),
    /// Replaces the element at this place.
    Replace(usize, Pair),
    /// A call by the spot of the element at this place.
    By(usize, BySpot),
}

/// A call by a spot.
#[derive(Drop)]
pub enum BySpot {
    InsertBefore(Pair),
    InsertAfter(Pair),
    /// Writes a key.
    Write(u64),
    MoveToFront,
    MoveToBack,
    /// Moves the element to right after the next one, if there is one.
    MoveAfterNext,
    /// Pushes an element to the front, and moves the one at the spot to right after it.
    MoveAfterNew(Pair),
    /// Reads the keys around the spot.
    Read,
}

/// Returns a stable list of these elements.
pub fn list_of(rt: &impl Abort, alloc: Global, pairs: &[Pair]) -> StableList<Key> {
    StableList::from_list(listed(rt, alloc, pairs))
}

/// Asserts the keys that a list holds.
pub fn holds(rt: &impl Abort, list: &StableList<Key>, pairs: &[Pair]) {
    let wanted = (pairs.len(), pairs.is_empty());
    same(rt, (list.len(), list.is_empty()), wanted);
    reads(rt, list.iter(), list.iter(), pairs);
}

/// Returns the keys before a spot, at it and after it.
pub fn around(list: &StableList<Key>, spot: Spot) -> Sight
    requires { HasSpot list.now spot }
{
    let mut keys = (None, Some(list.get(spot).value), None);
    if let Some(before) = list.prev(spot) {
        keys.0 = Some(list.get(before).value);
    }
    if let Some(after) = list.next(spot) {
        keys.2 = Some(list.get(after).value);
    }
    keys
}

/// Moves an element to right after the next one, if there is one.
fn move_after_next(list: &mut StableList<Key>, spot: Spot)
    requires { HasSpot list.old spot }
    ensures { HasSpot list.new spot }
{
    list.spots_are_distinct();
    if let Some(next) = list.next(spot) {
        list.move_after(spot, next);
    }
}

/// Pushes an element to the front, and moves the one at a spot to right after it.
fn move_after_new(list: &mut StableList<Key>, spot: Spot, handle: Handle)
    requires there { HasSpot list.old spot }
    requires fits { length list.old < usize.MAX }
    ensures { HasSpot list.new spot }
{
    let first = list.push_front(handle);
    list.move_after(spot, first);
}

/// Makes a call by a spot, and returns the spot of the new element, or else the same spot.
fn by_spot(
    rt: &impl Abort,
    alloc: Global,
    list: &mut StableList<Key>,
    spot: Spot,
    call: &BySpot,
) -> Spot
    requires there { HasSpot list.old spot }
    requires fits { length list.old < usize.MAX }
    ensures { HasSpot list.new result }
{
    match call {
        BySpot::InsertBefore(pair) => list.insert_before(spot, make(rt, alloc, *pair)),
        BySpot::InsertAfter(pair) => list.insert_after(spot, make(rt, alloc, *pair)),
        BySpot::Write(key) => {
            list.get_mut(spot).value = *key;
            spot
        }
        BySpot::MoveToFront => {
            list.move_to_front(spot);
            spot
        }
        BySpot::MoveToBack => {
            list.move_to_back(spot);
            spot
        }
        BySpot::MoveAfterNext => {
            move_after_next(list, spot);
            spot
        }
        BySpot::MoveAfterNew(pair) => {
            move_after_new(list, spot, make(rt, alloc, *pair));
            spot
        }
        BySpot::Read => spot,
    }
}

/// Makes a call, and returns the spot that it is at afterwards, if it is at one.
fn spot_after(
    rt: &impl Abort,
    alloc: Global,
    list: &mut StableList<Key>,
    call: &Call,
) -> Option<Spot>
    ensures { IfSome result (λ p. HasSpot list.new p) }
{
    at_most(rt, list.len(), LONGEST);
    match call {
        Call::PushFront(pair) => Some(list.push_front(make(rt, alloc, *pair))),
        Call::PushBack(pair) => Some(list.push_back(make(rt, alloc, *pair))),
        Call::TryPushFront(pair) => list.try_push_front(make(rt, alloc, *pair)).ok(),
        Call::TryPushBack(pair) => list.try_push_back(make(rt, alloc, *pair)).ok(),
        Call::Append(pairs) => {
            let mut other = list_of(rt, alloc, pairs);
            at_most(rt, other.len(), LONGEST);
            let first = other.front();
            list.append(&mut other);
            holds(rt, &other, &[]);
            first
        }
        Call::Front => list.front(),
        Call::Back => list.back(),
        Call::By(at, call) => {
            let spot = spot_at(rt, list.cursor_front(), *at);
            Some(by_spot(rt, alloc, list, spot, call))
        }
        Call::PopFront | Call::PopBack | Call::Remove(_) | Call::Replace(_, _) => None,
    }
}

/// Makes a call, and returns its reply.
pub fn reply(rt: &impl Abort, alloc: Global, list: &mut StableList<Key>, call: &Call) -> Reply {
    match call {
        Call::PopFront => Reply::Out(parts(list.pop_front())),
        Call::PopBack => Reply::Out(parts(list.pop_back())),
        Call::Remove(at) => {
            let spot = spot_at(rt, list.cursor_front(), *at);
            Reply::Out(parts(Some(list.remove(spot))))
        }
        Call::Replace(at, pair) => {
            let spot = spot_at(rt, list.cursor_front(), *at);
            let (old, new) = list.replace(spot, make(rt, alloc, *pair));
            same(rt, list.get(new).value, pair.1);
            Reply::Out(parts(Some(old)))
        }
        _ => match spot_after(rt, alloc, list, call) {
            Some(spot) => Reply::At(around(list, spot)),
            None => Reply::Nothing,
        },
    }
}
