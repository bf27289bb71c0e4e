//! Logs a million records of four senders through a queue of 16,384 rooms, by the logger of `cordyceps_shared_uses`.
//! Prints how many records of each sender were stored, and how many of these were out of order.
//!
//! The output does not depend on the order in which the threads run.
#![tactic(auto)]

use cordyceps::{List, Node};
use cordyceps_shared_uses::logger::{Producer, Record, log_all};
use std::alloc::{AllocError, Global};
use std::process::ExitCode;

/// The number of senders.
const SENDERS: u64 = 4;

/// The number of records that each sender sends.
const RECORDS: u64 = 250_000;

/// The number of rooms of the queue, which bounds how many records wait to be stored: 4,096 for each sender.
const ROOMS: usize = 16_384;

/// The number of records that are stored at once, at most: a quarter of a sender's rooms, which then go back.
const BATCH: usize = 1_024;

/// Returns a producer of records with this code, whose times count up from 0, or `None` if memory is refused.
fn producer(alloc: Global, code: u64) -> Option<Producer> {
    let mut records = List::new();
    for time in 0..RECORDS {
        records.push_back(Node::new(alloc, 0, Record { time, code }).ok()?);
    }
    Some(Producer { records })
}

/// Returns a producer for each sender, or `None` if memory is refused.
fn producers(alloc: Global) -> Option<List<Producer>> {
    let mut producers = List::new();
    for code in 0..SENDERS {
        producers.push_back(Node::new(alloc, 0, producer(alloc, code)?).ok()?);
    }
    Some(producers)
}

/// The number of stored records of one sender, and how many of these were out of order.
#[derive(Clone, Copy)]
struct Stored {
    records: u64,
    out_of_order: u64,
}

/// Counts the stored records of the sender with this code.
fn count(log: &[Record], code: u64) -> Stored {
    let mut stored = Stored {
        records: 0,
        out_of_order: 0,
    };
    for record in log.iter().filter(|record| record.code == code) {
        if record.time != stored.records {
            stored.out_of_order = stored.out_of_order.wrapping_add(1);
        }
        stored.records = stored.records.wrapping_add(1);
    }
    stored
}

/// Exits with 0, with 2 if the output cannot be written, or with 4 if memory is refused.
fn main(rt: HostRuntime) -> ExitCode {
    let Some(producers) = producers(rt.alloc()) else {
        return out_of_memory(&rt);
    };
    let Ok(log) = log_all(&rt, rt.alloc(), producers, ROOMS, BATCH) else {
        return out_of_memory(&rt);
    };
    for code in 0..SENDERS {
        let Stored {
            records,
            out_of_order,
        } = count(&log, code);
        if println!(rt; "sender {code}: {records} records, {out_of_order} out of order").is_err() {
            return ExitCode::from(2);
        }
    }
    ExitCode::SUCCESS
}

/// Reports that memory was refused, and returns the exit code for that.
fn out_of_memory(rt: &HostRuntime) -> ExitCode {
    let _ = rt.eprintln("out of memory");
    ExitCode::from(4)
}
