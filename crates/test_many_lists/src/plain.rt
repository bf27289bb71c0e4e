//! Calls of lists that share their nodes, and what they do to plain vectors of numbers.
use crate::compared::{at_most, made};
use std::alloc::Global;
use std::process::Abort;

/// The number and the value of a node.
pub type Pair = (u64, u64);

/// A call. It names a list by its index, and a node by its place in list 0.
#[derive(Clone, Copy, Debug)]
pub enum Call {
    /// Inserts a node of this number and value.
    Insert(Pair),
    /// Removes the node at this place.
    Remove(usize),
    /// Removes the first node of this list.
    PopFront(usize),
    Clear,
    /// Writes the value of the node at this place.
    Write(usize, u64),
    LinkBack(usize, usize),
    LinkFront(usize, usize),
    /// Links the first of two nodes before the second.
    LinkBefore(usize, usize, usize),
    /// Links the first of two nodes after the second.
    LinkAfter(usize, usize, usize),
    /// Links the node at this place where the order of the values puts it.
    LinkInOrder(usize, usize),
    Unlink(usize, usize),
    EnsureUnlinked(usize, usize),
    UnlinkOthers(usize),
    MoveToBack(usize, usize),
    MoveToFront(usize, usize),
    UnlinkFront(usize),
}

/// What a call replies.
#[derive(Clone, Copy, Debug, PartialEq)]
pub enum Reply {
    Done,
    /// The call requires what does not hold, so it was not made.
    NotMade,
    /// This node came out, or none.
    Out(Option<Pair>),
    /// This number is of the node whose spot came back, or there was none.
    At(Option<u64>),
}

/// What lists should hold: of each list the numbers of its nodes, in order, and the value of each number.
#[derive(Drop)]
pub struct Plain {
    pub lists: Vec<Vec<u64>>,
    pub values: Vec<u64>,
}

/// Returns where a list has a number.
fn place(list: &[u64], number: u64) -> Option<usize> {
    list.iter().position(|it| *it == number)
}

/// Inserts a number at a place.
fn put(rt: &impl Abort, list: &mut Vec<u64>, at: usize, number: u64) {
    at_most(rt, at, list.len());
    made(rt, list.insert(at, number));
}

/// Removes a number, if a list has it.
fn drop_number(list: &mut Vec<u64>, number: u64) {
    if let Some(at) = place(list.as_slice(), number) {
        if at < list.len() {
            list.remove(at);
        }
    }
}

impl Plain {
    /// Creates so many empty lists.
    pub fn new(rt: &impl Abort, alloc: Global, count: usize) -> Plain {
        let mut lists = Vec::new(alloc);
        for _ in 0..count {
            made(rt, lists.push(Vec::new(alloc)));
        }
        Plain {
            lists,
            values: Vec::new(alloc),
        }
    }

    /// Returns the numbers of a list.
    pub fn list(&self, i: usize) -> &[u64] {
        match self.lists.get(i) {
            Some(list) => list.as_slice(),
            None => &[],
        }
    }

    /// Returns a list.
    fn list_mut(&mut self, rt: &impl Abort, i: usize) -> &mut Vec<u64> {
        self.lists.get_mut(i).expect(rt, "there is such a list")
    }

    /// Returns the number at a place of list 0.
    fn number(&self, rt: &impl Abort, at: usize) -> u64 {
        *self.list(0).get(at).expect(rt, "there is such a place")
    }

    /// Returns the value of a number.
    pub fn value(&self, rt: &impl Abort, number: u64) -> u64 {
        *self
            .values
            .get(number as usize)
            .expect(rt, "the number was inserted")
    }

    /// Returns the node of a number.
    fn pair(&self, rt: &impl Abort, number: u64) -> Pair {
        (number, self.value(rt, number))
    }

    /// Returns `true` if a list has a number.
    pub fn has(&self, i: usize, number: u64) -> bool {
        place(self.list(i), number).is_some()
    }

    /// Removes a number from each list, from `from` on.
    fn remove(&mut self, number: u64, from: usize) {
        for list in self.lists.iter_mut().skip(from) {
            drop_number(list, number);
        }
    }

    /// Returns where the order of the values puts a number in a list: after the last whose value is not greater.
    fn place_in_order(&self, rt: &impl Abort, i: usize, number: u64) -> usize {
        let value = self.value(rt, number);
        let mut at = 0usize;
        for (before, other) in self.list(i).iter().enumerate() {
            if self.value(rt, *other) <= value {
                at = before.wrapping_add(1);
            }
        }
        at
    }

    /// Inserts a number into a list, at `place`, and there before or after another number. It is not made if the list
    /// has the number, or has not the other.
    fn link(&mut self, rt: &impl Abort, i: usize, number: u64, to: To) -> Reply {
        if self.has(i, number) {
            return Reply::NotMade;
        }
        let list = self.list(i);
        let at = match to {
            To::Front => Some(0),
            To::Back => Some(list.len()),
            To::Before(other) => place(list, other),
            To::After(other) => place(list, other).map(|it| it.wrapping_add(1)),
            To::InOrder => Some(self.place_in_order(rt, i, number)),
        };
        match at {
            Some(at) => put(rt, self.list_mut(rt, i), at, number),
            None => return Reply::NotMade,
        }
        Reply::Done
    }

    /// Moves a number to an end of a list. It is not made if the list does not have it.
    fn moved(&mut self, rt: &impl Abort, i: usize, number: u64, to: To) -> Reply {
        if !self.has(i, number) {
            return Reply::NotMade;
        }
        drop_number(self.list_mut(rt, i), number);
        self.link(rt, i, number, to)
    }

    /// Does what a call does, and returns what it should reply.
    pub fn call(&mut self, rt: &impl Abort, call: Call) -> Reply {
        match call {
            Call::Insert((number, value)) => {
                put(rt, &mut self.values, number as usize, value);
                self.link(rt, 0, number, To::Back)
            }
            Call::Remove(at) => {
                let pair = self.pair(rt, self.number(rt, at));
                self.remove(pair.0, 0);
                Reply::Out(Some(pair))
            }
            Call::PopFront(i) => {
                let Some(number) = self.list(i).first() else {
                    return Reply::Out(None);
                };
                let pair = self.pair(rt, *number);
                self.remove(pair.0, 0);
                Reply::Out(Some(pair))
            }
            Call::Clear => {
                for list in self.lists.iter_mut() {
                    list.clear();
                }
                Reply::Done
            }
            Call::Write(at, value) => {
                let number = self.number(rt, at);
                if let Some(it) = self.values.get_mut(number as usize) {
                    *it = value;
                }
                Reply::Done
            }
            _ => self.call_of_links(rt, call),
        }
    }

    /// Does what a call does that links nodes.
    fn call_of_links(&mut self, rt: &impl Abort, call: Call) -> Reply {
        match call {
            Call::LinkBack(i, at) => self.link(rt, i, self.number(rt, at), To::Back),
            Call::LinkFront(i, at) => self.link(rt, i, self.number(rt, at), To::Front),
            Call::LinkBefore(i, at, other) => {
                self.link(
                    rt,
                    i,
                    self.number(rt, at),
                    To::Before(self.number(rt, other)),
                )
            }
            Call::LinkAfter(i, at, other) => {
                self.link(
                    rt,
                    i,
                    self.number(rt, at),
                    To::After(self.number(rt, other)),
                )
            }
            Call::LinkInOrder(i, at) => self.link(rt, i, self.number(rt, at), To::InOrder),
            _ => self.call_of_moves(rt, call),
        }
    }

    /// Does what a call does that moves numbers within a list or takes them out of one.
    fn call_of_moves(&mut self, rt: &impl Abort, call: Call) -> Reply {
        match call {
            Call::MoveToBack(i, at) => self.moved(rt, i, self.number(rt, at), To::Back),
            Call::MoveToFront(i, at) => self.moved(rt, i, self.number(rt, at), To::Front),
            Call::Unlink(i, at) => {
                let number = self.number(rt, at);
                if i == 0 || !self.has(i, number) {
                    return Reply::NotMade;
                }
                drop_number(self.list_mut(rt, i), number);
                Reply::Done
            }
            Call::EnsureUnlinked(i, at) => {
                if i == 0 {
                    return Reply::NotMade;
                }
                let number = self.number(rt, at);
                drop_number(self.list_mut(rt, i), number);
                Reply::Done
            }
            Call::UnlinkOthers(at) => {
                self.remove(self.number(rt, at), 1);
                Reply::Done
            }
            Call::UnlinkFront(i) => {
                if i == 0 {
                    return Reply::NotMade;
                }
                let number = self.list(i).first().copied();
                if let Some(number) = number {
                    drop_number(self.list_mut(rt, i), number);
                }
                Reply::At(number)
            }
            _ => Reply::NotMade,
        }
    }
}

/// Where a number goes in a list.
#[derive(Clone, Copy)]
enum To {
    Front,
    Back,
    Before(u64),
    After(u64),
    InOrder,
}
