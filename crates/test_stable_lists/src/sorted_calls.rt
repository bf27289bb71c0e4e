//! Calls of a sorted list with spots, and what they reply.
ghost use Rattle.std.specs.Prelude.{◌≡◌, IfSome};
ghost use Rattle.cordyceps_base.specs.BySpot.{HasSpot};

use crate::compared::{at_most, same};
use crate::keys::{Key, Pair, Reply, Sight, make, parts, reads, spot_at};
use cordyceps_single::sorted_list::{Least, Order};
use cordyceps_stable::stable_list::Spot;
use cordyceps_stable::stable_sorted_list::StableSortedList;
use std::alloc::Global;
use std::mem;
use std::process::Abort;

/// No list of a test is longer.
pub const LONGEST: usize = 10_000;

/// A list with the least key first.
pub type Keys = StableSortedList<Key, Least>;

/// A call of a sorted list. It names an element by its place, from 0 on.
#[derive(Drop)]
pub enum Call {
    Insert(Pair),
    /// Inserts an element, if there is room for one more.
    TryInsert(Pair),
    /// Appends a list of these elements, in their order.
    Append(&'static [Pair]),
    PopFront,
    Front,
    Back,
    Remove(usize),
    /// Changes a key.
    Update(usize, u64),
    /// Reads the keys around an element.
    Read(usize),
}

/// Inserts elements one after the other.
pub fn insert_all<O: Order<Key>>(
    rt: &impl Abort,
    alloc: Global,
    list: &mut StableSortedList<Key, O>,
    pairs: &[Pair],
)
    requires { O.can_compare list.old.order }
    ensures { list.new.order ≡ list.old.order }
{
    for pair in pairs {
        at_most(rt, list.len(), LONGEST);
        list.insert(make(rt, alloc, *pair));
    }
}

/// Returns a list of these elements, which are inserted one after the other.
pub fn keys_of(rt: &impl Abort, alloc: Global, pairs: &[Pair]) -> Keys {
    let mut list = StableSortedList::new_min();
    insert_all(rt, alloc, &mut list, pairs);
    list
}

/// Asserts the keys that a list holds.
pub fn holds<O: Order<Key>>(rt: &impl Abort, list: &StableSortedList<Key, O>, pairs: &[Pair]) {
    let wanted = (pairs.len(), pairs.is_empty());
    same(rt, (list.len(), list.is_empty()), wanted);
    reads(rt, list.iter(), list.iter(), pairs);
}

/// Asserts the elements that a list pops, and that it pops no more.
pub fn pops<O: Order<Key>>(rt: &impl Abort, mut list: StableSortedList<Key, O>, pairs: &[Pair])
where
    O: Drop,
{
    for pair in pairs {
        same(rt, parts(list.pop_front()), Some(*pair));
    }
    same(rt, parts(list.pop_front()), None);
}

/// Changes the key at a spot, and returns the old one.
pub fn change<O: Order<Key>>(list: &mut StableSortedList<Key, O>, spot: Spot, key: u64) -> u64
    requires order { O.can_compare list.old.order }
    requires there { HasSpot list.old.nodes spot }
    ensures there { HasSpot list.new.nodes spot }
    ensures order { list.new.order ≡ list.old.order }
{
    list.update(spot, |element| mem::replace(&mut element.value, key))
}

/// Returns the keys before a spot, at it and after it.
fn around(list: &Keys, spot: Spot) -> Sight
    requires { HasSpot list.now.nodes spot }
{
    let mut keys = (None, Some(list.get(spot).value), None);
    if let Some(before) = list.prev(spot) {
        keys.0 = Some(list.get(before).value);
    }
    if let Some(after) = list.next(spot) {
        keys.2 = Some(list.get(after).value);
    }
    keys
}

/// Returns what a call replies that is at a spot afterwards, or at none.
fn reply_at(list: &Keys, spot: Option<Spot>) -> Reply
    requires { IfSome spot (λ p. HasSpot list.now.nodes p) }
{
    match spot {
        Some(spot) => Reply::At(around(list, spot)),
        None => Reply::Nothing,
    }
}

/// Makes a call, and returns its reply.
pub fn reply(rt: &impl Abort, alloc: Global, list: &mut Keys, call: &Call) -> Reply {
    at_most(rt, list.len(), LONGEST);
    match call {
        Call::Insert(pair) => {
            let spot = list.insert(make(rt, alloc, *pair));
            Reply::At(around(list, spot))
        }
        Call::TryInsert(pair) => match list.try_insert(make(rt, alloc, *pair)) {
            Ok(spot) => Reply::At(around(list, spot)),
            Err(back) => Reply::Out(parts(Some(back))),
        },
        Call::Append(pairs) => {
            let mut other = keys_of(rt, alloc, pairs);
            at_most(rt, other.len(), LONGEST);
            list.append(&mut other);
            holds(rt, &other, &[]);
            Reply::Nothing
        }
        Call::PopFront => Reply::Out(parts(list.pop_front())),
        Call::Front => reply_at(list, list.front()),
        Call::Back => reply_at(list, list.back()),
        Call::Remove(at) => {
            let spot = spot_at(rt, list.cursor_front(), *at);
            Reply::Out(parts(Some(list.remove(spot))))
        }
        Call::Update(at, key) => {
            let spot = spot_at(rt, list.cursor_front(), *at);
            let old = change(list, spot, *key);
            Reply::Changed(old, around(list, spot))
        }
        Call::Read(at) => {
            let spot = spot_at(rt, list.cursor_front(), *at);
            Reply::At(around(list, spot))
        }
    }
}
