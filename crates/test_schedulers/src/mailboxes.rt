//! Messages that threads send and one receives.
ghost use Rattle.std.specs.Prelude.{◌≤◌};

use crate::compared::{made, same};
use cordyceps::mpsc_queue::MAX_ROOMS;
use cordyceps_shared_uses::mailbox::deliver;
use std::alloc::{AllocError, Global};
use std::process::Abort;
use std::sync::Wait;
use std::thread::Threads;

/// How often the threads run with one number of rooms. All are a thousand runs.
const ROUNDS: u64 = 250;

/// Returns three messages of each of four senders.
fn four_lists(rt: &impl Abort, alloc: Global) -> Vec<Vec<u64>> {
    let first = made(rt, Vec::from_array(alloc, [10, 11, 12]));
    let second = made(rt, Vec::from_array(alloc, [22, 21, 20]));
    let third = made(rt, Vec::from_array(alloc, [30, 30, 30]));
    let fourth = made(rt, Vec::from_array(alloc, [40, 42, 41]));
    made(rt, Vec::from_array(alloc, [first, second, third, fourth]))
}

/// Delivers twelve messages of four senders by a queue of this many rooms, and compares what comes of each. Where
/// memory or a thread was refused, it delivers them again.
fn deliver_twelve<R: Abort + Threads + Wait + Sync>(rt: &R, alloc: Global, rooms: usize)
    requires { (1 ≤ rooms) × (rooms ≤ MAX_ROOMS) }
{
    let lists = four_lists(rt, alloc);
    let all = match deliver(rt, alloc, lists.as_slice(), rooms) {
        Ok(all) => all.messages,
        Err(AllocError) => made(rt, deliver(rt, alloc, lists.as_slice(), rooms)).messages,
    };
    same(rt, all.len(), 12);
    for list in lists.iter() {
        let mut left = list.iter();
        for message in all.iter() {
            if list.contains(message) {
                same(rt, Some(message), left.next());
            }
        }
        same(rt, left.next(), None);
    }
}

#[test]
fn each_senders_messages_come_in_order_and_no_wakeup_is_lost(rt: HostRuntime) {
    for rooms in 1..5usize {
        for _round in 0..ROUNDS {
            deliver_twelve(&rt, rt.alloc(), rooms);
        }
    }
}

#[test]
fn no_list_and_one_list_are_delivered(rt: HostRuntime) {
    let mut lists = Vec::new(rt.alloc());
    let none = made(&rt, deliver(&rt, rt.alloc(), lists.as_slice(), 1));
    same(&rt, none.messages.len(), 0);
    let values = [5, 3, 4];
    made(
        &rt,
        lists.push(made(&rt, Vec::from_array(rt.alloc(), values))),
    );
    let all = made(&rt, deliver(&rt, rt.alloc(), lists.as_slice(), 1));
    same(&rt, all.messages.as_slice(), values.as_slice());
}

#[test]
fn messages_are_delivered_where_memory_is_refused(rt: HostRuntime) {
    deliver_twelve(&rt, rt.alloc(), 4);
}
