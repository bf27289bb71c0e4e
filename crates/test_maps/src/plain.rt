//! Calls of a map, and what they do to a plain vector of nodes and to plain vectors of keys.
use crate::compared::{at_most, made};
use std::alloc::Global;
use std::process::Abort;

/// The number, the key and the value of a node.
pub type Triple = (u64, u64, u64);

/// A call. It names a list by its index, and a node by its key.
#[derive(Clone, Copy, Debug)]
pub enum Call {
    /// Inserts a node of this number, key and value.
    Insert(Triple),
    Remove(u64),
    /// Removes the node at the spot of this key.
    RemoveAt(u64),
    Find(u64),
    Get(u64),
    ContainsKey(u64),
    /// Writes the value of this key, at its spot.
    Write(u64, u64),
    /// Writes the value of this key, which the call finds.
    GetMut(u64, u64),
    /// Makes a table of at least so many buckets.
    Rehash(usize),
    LinkBack(usize, u64),
    LinkFront(usize, u64),
    /// Links the first of two nodes before the second.
    LinkBefore(usize, u64, u64),
    /// Links the first of two nodes after the second.
    LinkAfter(usize, u64, u64),
    /// Links a node where the order of the values puts it.
    LinkInOrder(usize, u64),
    Unlink(usize, u64),
    EnsureUnlinked(usize, u64),
    UnlinkOthers(u64),
    MoveToBack(usize, u64),
    MoveToFront(usize, u64),
    UnlinkFront(usize),
}

/// What a call replies.
#[derive(Clone, Copy, Debug, PartialEq)]
pub enum Reply {
    Done,
    /// The call requires what does not hold, so it was not made.
    NotMade,
    /// This node came out, or none.
    Out(Option<Triple>),
    /// This key is of the node whose spot came back, or there was none.
    At(Option<u64>),
    /// This value came back, or none.
    Value(Option<u64>),
    Has(bool),
}

/// What a map should hold: its nodes in the order in which they came, and of each list the keys, in order.
#[derive(Drop)]
pub struct Plain {
    pub nodes: Vec<Triple>,
    pub lists: Vec<Vec<u64>>,
}

/// Returns where a list has a key.
fn place(list: &[u64], key: u64) -> Option<usize> {
    list.iter().position(|it| *it == key)
}

/// Inserts a key at a place.
fn put(rt: &impl Abort, list: &mut Vec<u64>, at: usize, key: u64) {
    at_most(rt, at, list.len());
    made(rt, list.insert(at, key));
}

/// Removes a key, if a list has it.
fn drop_key(list: &mut Vec<u64>, key: u64) {
    if let Some(at) = place(list.as_slice(), key) {
        if at < list.len() {
            list.remove(at);
        }
    }
}

impl Plain {
    /// Creates so many empty lists, and no node.
    pub fn new(rt: &impl Abort, alloc: Global, count: usize) -> Plain {
        let mut lists = Vec::new(alloc);
        for _ in 0..count {
            made(rt, lists.push(Vec::new(alloc)));
        }
        Plain {
            nodes: Vec::new(alloc),
            lists,
        }
    }

    /// Returns the keys of a list.
    pub fn list(&self, i: usize) -> &[u64] {
        match self.lists.get(i) {
            Some(list) => list.as_slice(),
            None => &[],
        }
    }

    /// Returns a list.
    fn list_mut(&mut self, rt: &impl Abort, i: usize) -> &mut Vec<u64> {
        self.lists.get_mut(i).expect(rt, "there is such a list")
    }

    /// Returns where the node of a key is among the nodes.
    fn place(&self, key: u64) -> Option<usize> {
        self.nodes.as_slice().iter().position(|it| it.1 == key)
    }

    /// Returns the value of a key.
    pub fn value(&self, key: u64) -> Option<u64> {
        let node = self.nodes.get(self.place(key)?)?;
        Some(node.2)
    }

    /// Returns `true` if a node has the key.
    fn has_key(&self, key: u64) -> bool {
        self.place(key).is_some()
    }

    /// Returns `true` if a list has a key.
    pub fn has(&self, i: usize, key: u64) -> bool {
        place(self.list(i), key).is_some()
    }

    /// Removes a key from each list, from `from` on.
    fn unlink(&mut self, key: u64, from: usize) {
        for list in self.lists.iter_mut().skip(from) {
            drop_key(list, key);
        }
    }

    /// Removes the node of a key, also from each list, and returns it.
    fn remove(&mut self, key: u64) -> Option<Triple> {
        let at = self.place(key)?;
        self.unlink(key, 0);
        if at < self.nodes.len() {
            Some(self.nodes.remove(at))
        } else {
            None
        }
    }

    /// Writes the value of a key. It is not made if no node has the key.
    fn write(&mut self, key: u64, value: u64) -> Reply {
        let Some(at) = self.place(key) else {
            return Reply::NotMade;
        };
        if let Some(node) = self.nodes.get_mut(at) {
            node.2 = value;
        }
        Reply::Done
    }

    /// Returns where the order of the values puts a key in a list: after the last whose value is not greater.
    fn place_in_order(&self, i: usize, key: u64) -> usize {
        let value = self.value(key);
        let mut at = 0usize;
        for (before, other) in self.list(i).iter().enumerate() {
            if self.value(*other) <= value {
                at = before.wrapping_add(1);
            }
        }
        at
    }

    /// Inserts a key into a list, at `to`. It is not made if no node has the key, if the list has it, or if the list
    /// has not the other.
    fn link(&mut self, rt: &impl Abort, i: usize, key: u64, to: To) -> Reply {
        if !self.has_key(key) || self.has(i, key) {
            return Reply::NotMade;
        }
        let list = self.list(i);
        let at = match to {
            To::Front => Some(0),
            To::Back => Some(list.len()),
            To::Before(other) => place(list, other),
            To::After(other) => place(list, other).map(|it| it.wrapping_add(1)),
            To::InOrder => Some(self.place_in_order(i, key)),
        };
        match at {
            Some(at) => put(rt, self.list_mut(rt, i), at, key),
            None => return Reply::NotMade,
        }
        Reply::Done
    }

    /// Moves a key to an end of a list. It is not made if the list does not have it.
    fn moved(&mut self, rt: &impl Abort, i: usize, key: u64, to: To) -> Reply {
        if !self.has(i, key) {
            return Reply::NotMade;
        }
        drop_key(self.list_mut(rt, i), key);
        self.link(rt, i, key, to)
    }

    /// Does what a call does, and returns what it should reply.
    pub fn call(&mut self, rt: &impl Abort, call: Call) -> Reply {
        match call {
            Call::Insert(node) => {
                let replaced = self.remove(node.1);
                made(rt, self.nodes.push(node));
                self.link(rt, 0, node.1, To::Back);
                Reply::Out(replaced)
            }
            Call::Remove(key) => Reply::Out(self.remove(key)),
            Call::RemoveAt(key) => match self.remove(key) {
                None => Reply::NotMade,
                out => Reply::Out(out),
            },
            Call::Find(key) if self.has_key(key) => Reply::At(Some(key)),
            Call::Find(_) => Reply::At(None),
            Call::Get(key) => Reply::Value(self.value(key)),
            Call::ContainsKey(key) => Reply::Has(self.has_key(key)),
            Call::Write(key, value) => self.write(key, value),
            Call::GetMut(key, value) => {
                let old = self.value(key);
                self.write(key, value);
                Reply::Value(old)
            }
            Call::Rehash(_) => Reply::Done,
            _ => self.call_of_links(rt, call),
        }
    }

    /// Does what a call does that links nodes.
    fn call_of_links(&mut self, rt: &impl Abort, call: Call) -> Reply {
        match call {
            Call::LinkBack(i, key) => self.link(rt, i, key, To::Back),
            Call::LinkFront(i, key) => self.link(rt, i, key, To::Front),
            Call::LinkBefore(i, key, other) => self.link(rt, i, key, To::Before(other)),
            Call::LinkAfter(i, key, other) => self.link(rt, i, key, To::After(other)),
            Call::LinkInOrder(i, key) => self.link(rt, i, key, To::InOrder),
            Call::MoveToBack(i, key) => self.moved(rt, i, key, To::Back),
            Call::MoveToFront(i, key) => self.moved(rt, i, key, To::Front),
            _ => self.call_of_unlinks(rt, call),
        }
    }

    /// Does what a call does that takes nodes out of lists.
    fn call_of_unlinks(&mut self, rt: &impl Abort, call: Call) -> Reply {
        match call {
            Call::Unlink(i, key) if i > 0 && self.has(i, key) => {
                drop_key(self.list_mut(rt, i), key);
                Reply::Done
            }
            Call::EnsureUnlinked(i, key) if i > 0 && self.has_key(key) => {
                drop_key(self.list_mut(rt, i), key);
                Reply::Done
            }
            Call::UnlinkOthers(key) if self.has_key(key) => {
                self.unlink(key, 1);
                Reply::Done
            }
            Call::UnlinkFront(i) if i > 0 => {
                let key = self.list(i).first().copied();
                if let Some(key) = key {
                    drop_key(self.list_mut(rt, i), key);
                }
                Reply::At(key)
            }
            _ => Reply::NotMade,
        }
    }
}

/// Where a key goes in a list.
#[derive(Clone, Copy)]
enum To {
    Front,
    Back,
    Before(u64),
    After(u64),
    InOrder,
}
