//! Threads that enqueue elements, and threads that dequeue them meanwhile.
ghost use Rattle.std.specs.Prelude.{◌≤◌};

use crate::compared::same;
use crate::items::{Handle, append, number, sum, times};
use crate::seats::{Claim, Seat};
use cordyceps_queue::mpsc_queue::TryDequeueError;
use std::process::Abort;
use std::sync::Wait;
use std::sync::atomic::{AtomicU64, Ordering};
use std::thread;

/// How often a thread tries at most, before it fails.
const TRIES: u64 = 100_000_000;

/// How a thread dequeues.
#[derive(Clone, Copy)]
pub enum Way {
    Try,
    /// By one try, and then through another queue.
    Cross,
    Batches,
    /// By calls that may wait.
    Wait,
}

/// What threads there are.
#[derive(Clone, Copy)]
pub struct Crowd {
    pub producers: u64,
    /// How many elements each of these enqueues.
    pub each: u64,
    /// Whether they yield after each, so that who takes comes to the end again and again.
    pub yields: bool,
    pub takers: u64,
    /// By which call these have taken the right to dequeue, if they have.
    pub claim: Option<Claim>,
    pub way: Way,
}

/// What the threads of a crowd share.
#[derive(Drop)]
pub struct Meeting {
    pub crowd: Crowd,
    /// How often each number came out.
    pub times: Vec<AtomicU64>,
    /// How many elements came out.
    pub out: AtomicU64,
    /// How many of those that take have ended.
    pub ended: AtomicU64,
}

impl Meeting {
    /// Counts an element of this number that came out.
    fn count(&self, rt: &impl Abort, number: u64) {
        match self.times.get(number as usize) {
            Some(times) => times.fetch_add(1, Ordering::SeqCst),
            None => panic!(rt; "no such number was put in"),
        };
        self.out.fetch_add(1, Ordering::SeqCst);
    }
}

/// A thread that enqueues elements.
#[derive(Drop)]
pub struct Producer<'q> {
    pub seat: Seat<'q>,
    pub elements: Vec<Handle>,
    pub yields: bool,
}

impl Producer<'_> {
    /// Enqueues all, the first of them first.
    pub fn put_all(self, rt: &impl Abort) {
        let Producer {
            mut seat,
            elements,
            yields,
        } = self;
        for node in elements {
            seat.put(rt, node);
            if yields {
                thread::yield_now();
            }
        }
    }
}

/// A thread that dequeues elements.
#[derive(Drop)]
pub struct Taker<'q> {
    pub meeting: &'q Meeting,
    pub seat: Seat<'q>,
    /// A party of another queue, through which elements may have to go.
    pub other: Seat<'q>,
    /// The numbers that came out, in this order.
    pub numbers: Vec<u64>,
}

/// Returns how many elements a batch has at most. To the proof of a call it is any such number: at a numeral as great
/// as this the call's clauses are many steps long.
fn most() -> usize
    ensures { 1 ≤ result }
{
    64
}

impl Taker<'_> {
    /// Counts an element that came out.
    fn count(&mut self, rt: &impl Abort, node: Handle) {
        let number = number(rt, &node);
        append(rt, &mut self.numbers, number);
        self.meeting.count(rt, number);
    }

    /// Puts an element into the other queue, and counts what comes out there.
    fn cross(&mut self, rt: &impl Abort, node: Handle) {
        self.other.put(rt, node);
        match self.other.try_take(rt) {
            Ok(node) => self.count(rt, node),
            Err(_) => panic!(rt; "the element is in the other queue"),
        }
    }

    /// Dequeues by one try. The only thread that dequeues meets no `Busy`.
    fn try_once(&mut self, rt: &impl Abort, crosses: bool) {
        match self.seat.try_take(rt) {
            Ok(node) if crosses => self.cross(rt, node),
            Ok(node) => self.count(rt, node),
            Err(TryDequeueError::Busy) => same(rt, self.meeting.crowd.takers > 1, true),
            Err(_) => {}
        }
    }

    /// Dequeues by one call.
    fn turn<R: Wait + Abort>(&mut self, rt: &R) {
        match self.meeting.crowd.way {
            Way::Try => self.try_once(rt, false),
            Way::Cross => self.try_once(rt, true),
            Way::Batches => {
                if let Ok(batch) = self.seat.take_linked(rt, most()) {
                    for node in batch {
                        self.count(rt, node);
                    }
                }
            }
            Way::Wait => {
                if let Some(node) = self.seat.take(rt) {
                    self.count(rt, node);
                }
            }
        }
    }

    /// Dequeues, until all threads together have dequeued all. It yields seldom, so that it finds elements that are not
    /// linked yet.
    pub fn take_all<R: Wait + Abort>(mut self, rt: &R) {
        let meeting = self.meeting;
        let all = meeting.crowd.all();
        for tries in 0..TRIES {
            let before = self.numbers.len();
            self.turn(rt);
            if meeting.out.load(Ordering::SeqCst) == all {
                break;
            }
            if self.numbers.len() == before && tries % 16 == 0 {
                thread::yield_now();
            }
        }
        same(rt, meeting.out.load(Ordering::SeqCst), all);
        meeting.crowd.in_order(rt, &self.numbers);
        meeting.ended.fetch_add(1, Ordering::SeqCst);
    }
}

impl Crowd {
    /// Returns how many elements are enqueued.
    pub fn all(self) -> u64 {
        times(self.producers, self.each)
    }

    /// Returns the first number of a producer.
    pub fn first_of(self, producer: u64) -> u64 {
        times(producer, self.each)
    }

    /// Asserts that each producer's numbers among these rise.
    fn in_order(self, rt: &impl Abort, numbers: &[u64]) {
        for producer in 0..self.producers {
            let first = self.first_of(producer);
            let end = sum(first, self.each);
            let mut least = first;
            for number in numbers {
                if first <= *number && *number < end {
                    same(rt, least <= *number, true);
                    least = sum(*number, 1);
                }
            }
        }
    }
}
