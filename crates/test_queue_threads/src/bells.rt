//! The bell: what its calls return, and threads that hand elements over by it.
ghost use Rattle.std.specs.Prelude.{◌≡◌};

use crate::compared::{at_most, made, same};
use crate::items::{Handle, element, number};
use crate::seats::queue_of;
use cordyceps_queue::mpsc_queue::{MpscQueue, Party, TryDequeueError};
use std::alloc::Global;
use std::process::Abort;
use std::sync::Wait;
use std::thread;
use std::thread::Threads;
use test_support::counted::{Counted, Drops};

/// How many elements one thread puts in, and another takes out.
const ROUNDS: u64 = 20_000;

/// How often a thread that takes elements out tries at most, before it fails.
const TRIES: u64 = 10_000_000;

/// Returns whether a party of this queue goes on at once where it would sleep until a ring.
fn goes_on<R: Wait>(rt: &R, queue: &MpscQueue<Counted>, party: &mut Party<Counted>) -> bool
    requires { party.old.table ≡ queue.now.table }
    ensures { party.new.table ≡ party.old.table }
{
    !queue.sleep(rt, party)
}

#[test]
fn a_bell_that_was_rung_lets_nobody_sleep(rt: HostRuntime) {
    let (queue, mut party) = queue_of(&rt, rt.alloc(), None, 1);
    queue.ring(&mut party);
    let first = goes_on(&rt, &queue, &mut party);
    queue.clear_bell(&mut party);
    queue.ring(&mut party);
    queue.ring(&mut party);
    let again = goes_on(&rt, &queue, &mut party);
    let tried = queue.try_dequeue(&mut party).err();
    same(
        &rt,
        (
            first,
            again,
            goes_on(&rt, &queue, &mut party),
            party.rooms(),
        ),
        (true, true, true, 1),
    );
    same(&rt, tried, Some(TryDequeueError::Empty));
}

/// A party that puts elements in, or takes them out.
#[derive(Drop)]
struct Seated<'q> {
    queue: &'q MpscQueue<Counted>,
    party: Party<Counted>,
    ghost here: { party.table ≡ queue.now.table },
}

impl Seated<'_> {
    /// Puts an element into a room that must be there, and rings.
    fn put(&mut self, rt: &impl Abort, handle: Handle) {
        at_most(rt, 1, self.party.rooms());
        self.queue.enqueue(&mut self.party, handle);
        self.queue.ring(&mut self.party);
    }

    /// Puts all elements in, and rings after each.
    fn put_all(self, rt: &impl Abort, alloc: Global, drops: &Drops) {
        let mut putter = self;
        for count in 0..ROUNDS {
            putter.put(rt, element(rt, alloc, count, drops));
        }
    }

    /// Tries to take an element out, and sleeps if there is none.
    fn try_take<R: Wait>(&mut self, rt: &R) -> Option<Handle> {
        self.queue.clear_bell(&mut self.party);
        if let Ok(handle) = self.queue.try_dequeue(&mut self.party) {
            return Some(handle);
        }
        self.queue.sleep(rt, &mut self.party);
        None
    }

    /// Takes an element out, and returns its number.
    fn take<R: Wait + Abort>(&mut self, rt: &R) -> u64 {
        for _ in 0..TRIES {
            if let Some(handle) = self.try_take(rt) {
                return number(rt, &handle);
            }
        }
        panic!(rt; "no element has come");
    }

    /// Takes all elements out, in the order in which they were put in.
    fn take_all<R: Wait + Abort>(self, rt: &R) {
        let mut taker = self;
        for count in 0..ROUNDS {
            same(rt, taker.take(rt), count);
        }
    }
}

/// Lets one thread put elements in, and another take them out.
fn hand_over<R: Threads + Wait + Abort + Sync>(
    rt: &R,
    alloc: Global,
    queue: &MpscQueue<Counted>,
    party: Party<Counted>,
    drops: &Drops,
)
    requires { party.table ≡ queue.now.table }
{
    let mut putter = party;
    let taker = queue.split(&mut putter, 0);
    let putter = Seated {
        queue,
        party: putter,
    };
    let taker = Seated {
        queue,
        party: taker,
    };
    thread::join(
        rt,
        || putter.put_all(rt, alloc, drops),
        || taker.take_all(rt),
    );
}

#[test]
fn who_sleeps_is_woken_for_each_element(rt: HostRuntime) {
    let drops = made(&rt, Drops::new(rt.alloc()));
    let (queue, party) = queue_of(&rt, rt.alloc(), None, ROUNDS as usize);
    hand_over(&rt, rt.alloc(), &queue, party, &drops);
    same(&rt, drops.count(), ROUNDS);
}
