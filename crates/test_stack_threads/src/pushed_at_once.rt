//! Elements that are pushed all at one step, alone and beside a thread that takes.
ghost use Rattle.std.specs.Prelude.{◌≡◌, ◌≤◌, length, ⊤};

use crate::compared::{at_most, made, same};
use crate::items::{batch, dropped, element, no_drops, sum};
use crate::seats::{Seat, new_stack, pushes};
use crate::workers::Meeting;
use cordyceps_stack::stack::{Party, Stack, TransferStack};
use std::alloc::Global;
use std::process::Abort;
use std::sync::Wait;
use std::thread;
use std::thread::Threads;
use test_support::counted::{Counted, Drops};
use test_support::nodes::number;

/// By which call all elements of a batch are pushed.
#[derive(Clone, Copy)]
enum Way {
    PushAll,
    TryPushAll,
}

/// Pushes all elements of a batch by one try, which nobody overtakes, and compares whether nothing was held before with
/// what is wanted.
fn tries_all(
    rt: &impl Abort,
    stack: &TransferStack<Counted>,
    party: &mut Party<Counted>,
    batch: Stack<Counted>,
    first: bool,
)
    requires table { party.old.table ≡ stack.now }
    requires rooms { length batch ≤ party.old.rooms }
    ensures { party.new.table ≡ stack.now }
{
    match stack.try_push_all(party, batch) {
        Ok(was_empty) => same(rt, was_empty, first),
        Err(_) => panic!(rt; "nobody else pushes or takes"),
    }
}

/// Pushes all elements of a batch, which nobody overtakes, and compares whether nothing was held before with what is
/// wanted.
fn pushes_all<R: Wait + Abort>(
    rt: &R,
    stack: &TransferStack<Counted>,
    party: &mut Party<Counted>,
    way: Way,
    batch: Stack<Counted>,
    first: bool,
)
    requires table { party.old.table ≡ stack.now }
    requires rooms { length batch ≤ party.old.rooms }
    ensures { party.new.table ≡ stack.now }
{
    match way {
        Way::PushAll => same(rt, stack.push_all(rt, party, batch), first),
        Way::TryPushAll => tries_all(rt, stack, party, batch, first),
    }
}

/// Takes all that is held, and pushes it again into the rooms that came with it.
fn turns_over<R: Wait + Abort>(
    rt: &R,
    stack: &TransferStack<Counted>,
    party: &mut Party<Counted>,
    way: Way,
)
    requires { party.old.table ≡ stack.now }
    ensures { party.new.table ≡ stack.now }
{
    let taken = stack.take_all(party);
    pushes_all(rt, stack, party, way, taken, true);
}

/// How many rooms a stack has, how many elements are pushed, each by one try, and how many then at one step.
type Row = (usize, u64, usize);

/// Pushes elements of a row. Takes all, pushes it again at one step, and asserts in which order it comes out.
fn come_in_order<R: Wait + Abort>(rt: &R, alloc: Global, way: Way, row: Row) {
    let (rooms, below, count) = row;
    let drops = no_drops(rt, alloc);
    let (stack, mut party) = new_stack(rt, alloc, rooms);
    for number in 0..below {
        let handle = element(rt, alloc, number, &drops);
        pushes(rt, &stack, &mut party, handle, number == 0);
    }
    let above = batch(rt, alloc, below, count, &drops);
    at_most(rt, count, party.rooms());
    pushes_all(rt, &stack, &mut party, way, above, below == 0);
    let end = sum(below, count as u64);
    same(rt, sum(party.rooms() as u64, end), rooms as u64);
    turns_over(rt, &stack, &mut party, way);
    let mut held = stack.take_all(&mut party);
    for wanted in below..end {
        same(rt, number(held.pop()), Some(wanted));
    }
    for wanted in (0..below).rev() {
        same(rt, number(held.pop()), Some(wanted));
    }
    same(rt, (held.is_empty(), party.rooms()), (true, rooms));
    dropped(rt, &drops, end);
}

#[test]
fn all_come_in_order_before_what_was_held(rt: HostRuntime) {
    let rows: [Row; 9] = [
        (3, 0, 0),
        (3, 3, 0),
        (1, 0, 1),
        (4, 3, 1),
        (2, 0, 2),
        (9, 3, 2),
        (64, 0, 64),
        (67, 3, 64),
        (100, 3, 64),
    ];
    for row in rows {
        come_in_order(&rt, rt.alloc(), Way::PushAll, row);
        come_in_order(&rt, rt.alloc(), Way::TryPushAll, row);
    }
}

/// How many elements a thread pushes at one step.
const BATCH: u64 = 8;

/// How many batches a thread pushes.
const BATCHES: u64 = 200;

/// How many threads push.
const PUSHERS: u64 = 3;

/// From which number on the elements of each thread are, and how many rooms it has. The first one takes.
const PARTS: [(Option<u64>, usize); 4] = [
    (None, 0),
    (Some(0), 1600),
    (Some(1600), 1600),
    (Some(3200), 1600),
];

/// How often the thread that takes looks at most.
const TURNS: u64 = 20_000_000;

/// A thread's party at its stack, and the numbers that it takes, or from which on those of its elements are.
#[derive(Drop)]
struct Member<'s> {
    seat: Seat<'s>,
    /// `None` if the thread takes.
    first: Option<u64>,
    taken: Vec<u64>,
}

/// Pushes batches, each at one step, and every other one first by one try.
fn push_batches<R: Wait + Abort>(
    rt: &R,
    alloc: Global,
    seat: &mut Seat<'_>,
    first: u64,
    drops: &Drops,
) {
    for number in 0..BATCHES {
        let first = sum(first, number.wrapping_mul(BATCH));
        let batch = batch(rt, alloc, first, BATCH as usize, drops);
        if number % 2 == 0 {
            seat.try_and_push_all(rt, BATCH as usize, batch);
        } else {
            seat.push_all(rt, BATCH as usize, batch);
        }
    }
}

impl<'s> Member<'s> {
    /// Takes all that is held, and asserts that each batch is whole and in order.
    fn take(&mut self, rt: &impl Abort) {
        let mut next = 0;
        for node in self.seat.take_all() {
            let number = node.id();
            if next % BATCH == 0 {
                next = number;
                same(rt, number % BATCH, 0);
            }
            same(rt, number, next);
            next = sum(next, 1);
            made(rt, self.taken.push(number));
        }
        same(rt, next % BATCH, 0);
    }

    /// Does what it has to do, and returns what it has then.
    fn run<R: Wait + Abort>(
        mut self,
        rt: &R,
        alloc: Global,
        meeting: &Meeting,
        drops: &Drops,
    ) -> Member<'s> {
        if let Some(first) = self.first {
            push_batches(rt, alloc, &mut self.seat, first, drops);
            meeting.end();
            return self;
        }
        for _ in 0..TURNS {
            self.take(rt);
            if self.taken.len() as u64 == PUSHERS * BATCHES * BATCH {
                break;
            }
            thread::yield_now();
        }
        self
    }
}

/// Lets each act on a thread of its own, and returns all. The clauses say nothing of what they do, which keeps the proof
/// short.
fn run_all<'s, R: Threads + Wait + Abort + Sync>(
    rt: &R,
    alloc: Global,
    members: Vec<Member<'s>>,
    meeting: &Meeting,
    drops: &Drops,
) -> Vec<Member<'s>> {
    let ended = thread::map_vec(
        rt,
        members,
        &|member: Member<'_>| -> Member<'_>
            requires { ⊤ }
            ensures { ⊤ }
        { member.run(rt, alloc, meeting, drops) },
    );
    made(rt, ended)
}

/// Asserts that threads have taken each number below an end once.
fn took_each_once(rt: &impl Abort, alloc: Global, members: Vec<Member<'_>>, end: u64) {
    let mut taken = Vec::new(alloc);
    for member in members {
        for number in member.taken {
            made(rt, taken.push(number));
        }
    }
    made(rt, taken.sort());
    same(rt, taken.len() as u64, end);
    for (place, number) in taken.iter().enumerate() {
        same(rt, *number, place as u64);
    }
}

/// Lets threads push batches while one takes, and asserts that each element came out once.
fn batches_stay_together<R: Threads + Wait + Abort + Sync>(rt: &R, alloc: Global) {
    let drops = no_drops(rt, alloc);
    let all = PUSHERS * BATCHES * BATCH;
    let (stack, party) = new_stack(rt, alloc, all as usize);
    let mut whole = Seat::new(&stack, party);
    let meeting = Meeting::new(PUSHERS, 0);
    let mut members = Vec::new(alloc);
    for (first, rooms) in PARTS {
        let member = Member {
            seat: whole.split(rt, rooms),
            first,
            taken: Vec::new(alloc),
        };
        made(rt, members.push(member));
    }
    let ended = run_all(rt, alloc, members, &meeting, &drops);
    took_each_once(rt, alloc, ended, all);
    dropped(rt, &drops, all);
}

#[test]
fn batches_of_threads_stay_together(rt: HostRuntime) {
    batches_stay_together(&rt, rt.alloc());
}
