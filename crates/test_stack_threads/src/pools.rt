//! Rooms that a party gives back, and that any party takes.
ghost use Rattle.std.specs.Prelude.{◌≡◌, ⊤};

use crate::compared::{made, same};
use crate::items::{dropped, falls, no_drops, pops, stock, sum};
use crate::seats::{Call, Seat, make, new_stack};
use cordyceps_stack::stack::{MAX_ROOMS, Party, Stack, TransferStack};
use std::alloc::Global;
use std::process::Abort;
use std::thread;
use std::thread::Threads;
use test_support::counted::Counted;

/// Which party makes a call.
#[derive(Clone, Copy)]
enum By {
    First,
    Second,
}

/// Two parties of a stack.
#[derive(Drop)]
struct Pair<'s> {
    stack: &'s TransferStack<Counted>,
    first: Party<Counted>,
    second: Party<Counted>,
    ghost seated: { (first.table ≡ stack.now) × (second.table ≡ stack.now) },
}

impl Pair<'_> {
    /// Makes a call of one of the parties.
    fn turn(&mut self, rt: &impl Abort, stock: &mut Stack<Counted>, by: By, call: Call) {
        match by {
            By::First => make(rt, self.stack, &mut self.first, stock, call),
            By::Second => make(rt, self.stack, &mut self.second, stock, call),
        }
    }

    /// Asserts that no room is lost, where nothing is held.
    fn has_all(self, rt: &impl Abort, rooms: usize) {
        let Pair {
            stack,
            mut first,
            second,
        } = self;
        stack.absorb(&mut first, second);
        stack.refill(&mut first);
        pops(rt, stack.take_all(&mut first), &[]);
        same(rt, first.rooms(), rooms);
    }
}

/// Makes calls of two parties of a stack, of which the first has all rooms at first, and asserts in the end that no
/// room is lost.
fn calls_return(rt: &impl Abort, alloc: Global, rooms: usize, calls: &[(By, Call)]) {
    let drops = no_drops(rt, alloc);
    let mut stock = stock(rt, alloc, (1, 4), &drops);
    let (stack, mut first) = new_stack(rt, alloc, rooms);
    let second = stack.split(&mut first, 0);
    let mut pair = Pair {
        stack: &stack,
        first,
        second,
    };
    for (by, call) in calls {
        pair.turn(rt, &mut stock, *by, *call);
    }
    pair.has_all(rt, rooms);
}

/// Some rooms go to and fro between the parties, and those that are given back find others there.
const FOUR_ROOMS: [(By, Call); 21] = [
    (By::First, Call::GiveBack(3, true)),
    (By::First, Call::Rooms(1)),
    (By::First, Call::GiveBack(1, false)),
    (By::First, Call::Rooms(1)),
    (By::Second, Call::Refill(3)),
    (By::Second, Call::Refill(0)),
    (By::Second, Call::Rooms(3)),
    (By::Second, Call::Push(true)),
    (By::First, Call::Push(false)),
    (By::First, Call::Rooms(0)),
    (By::Second, Call::GiveBack(1, true)),
    (By::First, Call::Refill(1)),
    (By::First, Call::Push(false)),
    (By::First, Call::Take(3, 3)),
    (By::First, Call::Rooms(3)),
    (By::First, Call::GiveBack(3, true)),
    (By::Second, Call::Refill(3)),
    (By::Second, Call::Rooms(4)),
    (By::Second, Call::Push(true)),
    (By::Second, Call::Take(4, 1)),
    (By::Second, Call::GiveBack(2, true)),
];

/// A push takes the rooms that were given back only if its party has none.
const REFILLS: [(By, Call); 17] = [
    (By::Second, Call::RefillAndPush(None)),
    (By::Second, Call::Rooms(0)),
    (By::First, Call::GiveBack(3, true)),
    (By::First, Call::RefillAndPush(Some(true))),
    (By::First, Call::Rooms(0)),
    (By::Second, Call::RefillAndPush(Some(false))),
    (By::Second, Call::Rooms(2)),
    (By::First, Call::RefillAndPush(None)),
    (By::First, Call::Rooms(0)),
    (By::Second, Call::GiveBack(1, true)),
    (By::Second, Call::RefillAndPush(Some(false))),
    (By::Second, Call::Rooms(0)),
    (By::First, Call::RefillAndPush(Some(false))),
    (By::First, Call::Rooms(0)),
    (By::First, Call::Refill(0)),
    (By::Second, Call::Take(4, 4)),
    (By::Second, Call::Rooms(4)),
];

/// All rooms are given back, also where others were before.
const ALL_BACK: [(By, Call); 9] = [
    (By::First, Call::GiveBack(1, true)),
    (By::First, Call::GiveBack(1, false)),
    (By::First, Call::GiveAllBack(true)),
    (By::First, Call::Rooms(0)),
    (By::First, Call::GiveAllBack(true)),
    (By::Second, Call::RefillAtMost(2, 2)),
    (By::Second, Call::GiveAllBack(true)),
    (By::Second, Call::Rooms(0)),
    (By::First, Call::Refill(3)),
];

/// A party takes a part of what was given back, and the other finds the rest.
const A_PART: [(By, Call); 15] = [
    (By::First, Call::GiveBack(5, true)),
    (By::Second, Call::RefillAtMost(2, 2)),
    (By::First, Call::RefillAtMost(0, 0)),
    (By::Second, Call::RefillAtMost(1, 1)),
    (By::Second, Call::Rooms(3)),
    (By::First, Call::RefillAtMost(9, 2)),
    (By::First, Call::RefillAtMost(1, 0)),
    (By::Second, Call::Push(true)),
    (By::First, Call::Push(false)),
    (By::First, Call::Take(2, 2)),
    (By::First, Call::Rooms(3)),
    (By::First, Call::GiveBack(3, true)),
    (By::Second, Call::RefillAtMost(2, 2)),
    (By::Second, Call::Rooms(4)),
    (By::First, Call::Refill(1)),
];

/// A push takes 64 of the rooms that were given back, and the other party finds the rest.
const A_QUANTUM: [(By, Call); 6] = [
    (By::First, Call::GiveBack(100, true)),
    (By::Second, Call::RefillAndPush(Some(true))),
    (By::Second, Call::Rooms(63)),
    (By::First, Call::RefillAndPush(Some(false))),
    (By::First, Call::Rooms(35)),
    (By::Second, Call::Take(2, 2)),
];

/// A stack without rooms has none that is given back.
const NO_ROOM: [(By, Call); 5] = [
    (By::First, Call::GiveBack(0, true)),
    (By::Second, Call::GiveBack(0, true)),
    (By::Second, Call::Refill(0)),
    (By::First, Call::RefillAndPush(None)),
    (By::First, Call::Rooms(0)),
];

/// The only room goes to and fro.
const ONE_ROOM: [(By, Call); 9] = [
    (By::First, Call::GiveBack(1, true)),
    (By::Second, Call::Refill(1)),
    (By::Second, Call::Push(true)),
    (By::First, Call::Take(1, 1)),
    (By::First, Call::GiveBack(1, true)),
    (By::First, Call::Refill(1)),
    (By::First, Call::Push(true)),
    (By::First, Call::Take(2, 1)),
    (By::First, Call::GiveBack(1, true)),
];

/// As many rooms as a stack can have come back at once.
const ALL_ROOMS: [(By, Call); 7] = [
    (By::First, Call::GiveBack(MAX_ROOMS, true)),
    (By::First, Call::Rooms(0)),
    (By::Second, Call::Refill(MAX_ROOMS)),
    (By::Second, Call::Push(true)),
    (By::First, Call::Take(1, 1)),
    (By::First, Call::GiveBack(1, true)),
    (By::Second, Call::GiveBack(1, false)),
];

#[test]
fn rooms_come_back(rt: HostRuntime) {
    calls_return(&rt, rt.alloc(), 4, &FOUR_ROOMS);
    calls_return(&rt, rt.alloc(), 4, &REFILLS);
    calls_return(&rt, rt.alloc(), 3, &ALL_BACK);
    calls_return(&rt, rt.alloc(), 5, &A_PART);
    calls_return(&rt, rt.alloc(), 100, &A_QUANTUM);
    calls_return(&rt, rt.alloc(), 1, &ONE_ROOM);
    calls_return(&rt, rt.alloc(), MAX_ROOMS, &ALL_ROOMS);
}

#[test]
fn no_room_comes_back_as_none(rt: HostRuntime) {
    calls_return(&rt, rt.alloc(), 0, &NO_ROOM);
}

/// How many elements each of two threads pushes, and how many rooms there are for them.
const ELEMENTS: u64 = 2_000;

const ROOMS: usize = 4;

/// How many turns a thread has at most.
const TURNS: u64 = 20_000_000;

/// A thread's party at its stack, and what it has to push, or has taken.
#[derive(Drop)]
struct Member<'s> {
    seat: Seat<'s>,
    elements: Stack<Counted>,
    /// How many elements it has yet to take, if it takes.
    takes: Option<u64>,
}

/// Puts these elements onto others. Returns how many are still to come of `left`.
fn keep(elements: &mut Stack<Counted>, taken: Stack<Counted>, left: u64) -> u64 {
    let mut left = left;
    for node in taken {
        elements.push(node);
        left = left.wrapping_sub(1);
    }
    left
}

impl<'s> Member<'s> {
    /// Tries once to push an element, for which it takes the rooms that were given back if it has none.
    fn push(&mut self) {
        if let Some(handle) = self.elements.pop() {
            if let Err(back) = self.seat.refill_and_try_push(handle) {
                self.elements.push(back);
                thread::yield_now();
            }
        }
    }

    /// Takes all that is held, and gives the rooms back. Returns how many elements are still to come.
    fn take(&mut self, left: u64) -> u64 {
        let taken = self.seat.take_all();
        self.seat.give_all_back();
        thread::yield_now();
        keep(&mut self.elements, taken, left)
    }

    /// Takes turns until it has pushed or taken all.
    fn work(&mut self, rt: &impl Abort) {
        for _ in 0..TURNS {
            match self.takes {
                Some(0) => return,
                Some(left) => self.takes = Some(self.take(left)),
                None if self.elements.is_empty() => return,
                None => self.push(),
            }
        }
        panic!(rt; "the rooms have not come back");
    }

    /// Does what it has to do, and returns what it has then.
    fn run(mut self, rt: &impl Abort) -> Member<'s> {
        self.work(rt);
        self
    }
}

/// Lets each act on a thread of its own, and returns all. The clauses say nothing of what they do, which keeps the proof
/// short.
fn run_all<'s, R: Threads + Abort + Sync>(rt: &R, members: Vec<Member<'s>>) -> Vec<Member<'s>> {
    let ended = thread::map_vec(
        rt,
        members,
        &|member: Member<'_>| -> Member<'_>
            requires { ⊤ }
            ensures { ⊤ }
        { member.run(rt) },
    );
    made(rt, ended)
}

/// Returns how many elements threads have, and the sum of their numbers.
fn count(members: Vec<Member<'_>>) -> (u64, u64) {
    let mut count: u64 = 0;
    let mut numbers: u64 = 0;
    for member in members {
        for node in member.elements {
            count = sum(count, 1);
            numbers = sum(numbers, node.id());
        }
    }
    (count, numbers)
}

/// Two threads push 4,000 elements through four rooms, which a third gives back.
fn pass_through<R: Threads + Abort + Sync>(rt: &R, alloc: Global) {
    let drops = no_drops(rt, alloc);
    let (stack, party) = new_stack(rt, alloc, ROOMS);
    let mut all = Seat::new(&stack, party);
    let mut members = Vec::new(alloc);
    for (first, takes) in [(1, None), (ELEMENTS + 1, None), (0, Some(2 * ELEMENTS))] {
        let pushes = if takes.is_none() { ELEMENTS } else { 0 };
        let member = Member {
            seat: all.split(rt, 0),
            elements: stock(rt, alloc, (first, pushes), &drops),
            takes,
        };
        made(rt, members.push(member));
    }
    falls(rt, all.take_all(), 0, 0);
    all.give_all_back();
    let counted = count(run_all(rt, members));
    same(rt, counted, (2 * ELEMENTS, ELEMENTS * (2 * ELEMENTS + 1)));
    dropped(rt, &drops, 2 * ELEMENTS);
}

#[test]
fn many_pass_through_four_rooms(rt: HostRuntime) {
    for _ in 0..10 {
        pass_through(&rt, rt.alloc());
    }
}
