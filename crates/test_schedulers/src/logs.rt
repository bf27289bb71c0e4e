//! Records that threads send, and one stores in batches.
ghost use Rattle.std.specs.Prelude.{◌≤◌};

use crate::compared::{made, same};
use crate::made::node;
use cordyceps::List;
use cordyceps::mpsc_queue::MAX_ROOMS;
use cordyceps_shared_uses::logger::{Producer, Record, log_all};
use std::alloc::Global;
use std::process::Abort;
use std::sync::Wait;
use std::thread::Threads;

/// How often the threads run with one number of rooms and batches of one size. All are a thousand runs.
const ROUNDS: u64 = 63;

/// Returns a producer of three records with this code, of the times 0 to 2.
fn producer(rt: &impl Abort, alloc: Global, code: u64) -> Producer {
    let mut records = List::new();
    records.push_back(node(rt, alloc, 0, Record { time: 0, code }));
    records.push_back(node(rt, alloc, 0, Record { time: 1, code }));
    records.push_back(node(rt, alloc, 0, Record { time: 2, code }));
    Producer { records }
}

/// Returns a producer for each of the codes 0 to 3.
fn four_producers(rt: &impl Abort, alloc: Global) -> List<Producer> {
    let mut producers = List::new();
    producers.push_back(node(rt, alloc, 0, producer(rt, alloc, 0)));
    producers.push_back(node(rt, alloc, 0, producer(rt, alloc, 1)));
    producers.push_back(node(rt, alloc, 0, producer(rt, alloc, 2)));
    producers.push_back(node(rt, alloc, 0, producer(rt, alloc, 3)));
    producers
}

/// Logs twelve records of four producers, and compares what comes of each.
fn log_twelve<R: Abort + Threads + Wait + Sync>(rt: &R, alloc: Global, rooms: usize, max: usize)
    requires { (1 ≤ rooms) × (rooms ≤ MAX_ROOMS) × (1 ≤ max) }
{
    let producers = four_producers(rt, alloc);
    let log = made(rt, log_all(rt, alloc, producers, rooms, max));
    // how many records of each code came
    let mut came = [0u64; 4];
    for record in log.iter() {
        if let Some(time) = came.get_mut(record.code as usize) {
            same(rt, record.time, *time);
            *time = time.wrapping_add(1);
        }
    }
    same(rt, (log.len(), came), (12, [3, 3, 3, 3]));
}

#[test]
fn no_producer_and_one_producer_are_logged(rt: HostRuntime) {
    let none = made(&rt, log_all(&rt, rt.alloc(), List::new(), 1, 1));
    same(&rt, none.len(), 0);
    let mut producers = List::new();
    producers.push_back(node(&rt, rt.alloc(), 0, producer(&rt, rt.alloc(), 7)));
    let log = made(&rt, log_all(&rt, rt.alloc(), producers, 1, 1));
    let mut time = 0u64;
    for record in log.iter() {
        same(&rt, (record.time, record.code), (time, 7));
        time = time.wrapping_add(1);
    }
    same(&rt, time, 3);
}

#[test]
fn each_producers_records_come_in_order_and_no_wakeup_is_lost(rt: HostRuntime) {
    for rooms in 1..5usize {
        for max in 1..5usize {
            for _round in 0..ROUNDS {
                log_twelve(&rt, rt.alloc(), rooms, max);
            }
        }
    }
}
