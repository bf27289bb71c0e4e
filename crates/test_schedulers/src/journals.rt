//! Records that are noted by handles and written to sinks: what each call answers on one thread, and what comes of
//! threads that note while one writes.
ghost use Rattle.std.specs.Prelude.{◌≡◌, ◌≤◌};
ghost use Rattle.cordyceps_shared_uses.specs.declared.logger.Record.{Record};

use crate::compared::{at_most, made, same};
use cordyceps::mpsc_queue::MAX_ROOMS;
use cordyceps_shared_uses::journal::{
    Journal, Memory, Report, Sink, SinkError, Writer, close_and_write,
};
use cordyceps_shared_uses::logger::Record;
use std::alloc::Global;
use std::process::Abort;
use std::sync::Wait;
use std::sync::atomic::{AtomicBool, AtomicU64, Ordering};
use std::thread;
use std::thread::Threads;
use test_support::flags::is_set_in_time;

/// How many records each thread notes.
const EACH: u64 = 20;

/// How many records a sink that has a handle notes at once.
const BATCH: usize = 4;

/// How often the threads run with one number of rooms, batches of one size and one way to note.
const ROUNDS: u64 = 30;

/// A sink that refuses each third record, and counts its flushes, which all fail or all succeed.
#[derive(Drop)]
struct Picky {
    memory: Memory,
    offered: u64,
    flushed: u64,
    fails: bool,
}

impl Sink for Picky {
    ghost written = { λ p. p.memory.records.items };

    ghost lasting = { λ p. p.memory.records.items };

    ghost answers = { λ _ _ _. Unit {0} };

    fn write(&mut self, event: Record) -> Result<(), SinkError> {
        self.offered = self.offered.wrapping_add(1);
        if self.offered % 3 == 0 {
            return Err(SinkError);
        }
        self.memory.write(event)
    }

    fn flush(&mut self) -> Result<(), SinkError> {
        self.flushed = self.flushed.wrapping_add(1);
        if self.fails { Err(SinkError) } else { Ok(()) }
    }
}

/// A sink that counts its flushes, and tells of them.
#[derive(Drop)]
struct Telling<'a> {
    memory: Memory,
    is_flushed: &'a AtomicBool,
    flushed: u64,
}

impl<'a> Sink for Telling<'a> {
    ghost written = { λ t. t.memory.records.items };

    ghost lasting = { λ t. t.memory.records.items };

    ghost answers = { λ _ _ _. Unit {0} };

    fn write(&mut self, event: Record) -> Result<(), SinkError> {
        self.memory.write(event)
    }

    fn flush(&mut self) -> Result<(), SinkError> {
        self.flushed = self.flushed.wrapping_add(1);
        self.is_flushed.store(true, Ordering::SeqCst);
        Ok(())
    }
}

/// A sink that has a handle of the journal. Its first flush notes `BATCH` records, if these are not noted yet. Its first
/// write tries to note as many once more, counts how many of these found a room, and ends the handle.
#[derive(Drop)]
struct Refilling {
    memory: Memory,
    handle: Option<Journal>,
    is_filled: bool,
    refilled: usize,
}

impl Sink for Refilling {
    ghost written = { λ r. r.memory.records.items };

    ghost lasting = { λ r. r.memory.records.items };

    ghost answers = { λ _ _ _. Unit {0} };

    fn write(&mut self, event: Record) -> Result<(), SinkError> {
        if let Some(mut handle) = self.handle.take() {
            self.refilled = noted(&mut handle);
        }
        self.memory.write(event)
    }

    fn flush(&mut self) -> Result<(), SinkError> {
        match &mut self.handle {
            Some(handle) if !self.is_filled => {
                self.is_filled = noted(handle) == BATCH;
                Ok(())
            }
            _ => Ok(()),
        }
    }
}

/// Tries to note `BATCH` records, and returns how many found a room.
fn noted(handle: &mut Journal) -> usize {
    let mut count = 0usize;
    for time in 0..BATCH as u64 {
        if handle.try_note(Record { time, code: 9 }) {
            count = count.wrapping_add(1);
        }
    }
    count
}

/// Returns a sink in memory with no record.
fn empty_memory(alloc: Global) -> Memory {
    Memory {
        records: Vec::new(alloc),
    }
}

/// Returns a picky sink with no record.
fn picky_sink(alloc: Global, fails: bool) -> Picky {
    Picky {
        memory: empty_memory(alloc),
        offered: 0,
        flushed: 0,
        fails,
    }
}

/// Returns a journal with this many rooms.
fn journal_of(rt: &impl Abort, alloc: Global, rooms: usize) -> (Journal, Writer)
    ensures { result.1.table ≡ result.0.party.table }
{
    at_most(rt, rooms, MAX_ROOMS);
    made(rt, Journal::with_rooms(alloc, rooms))
}

/// Returns the times of the records with this code, in order.
fn times_of(rt: &impl Abort, alloc: Global, memory: &Memory, code: u64) -> Vec<u64> {
    let mut times = Vec::new(alloc);
    for record in memory.records.iter() {
        if record.code == code {
            made(rt, times.push(record.time));
        }
    }
    times
}

/// Returns what a writer reports that wrote this many records and dropped that many.
fn reported(written: u64, dropped: u64) -> Report {
    Report {
        written,
        dropped,
        is_flushed: true,
    }
}

#[test]
fn a_full_journal_drops_records_and_counts_them(rt: HostRuntime) {
    let (mut handle, mut writer) = journal_of(&rt, rt.alloc(), 2);
    let mut noted = [false; 4];
    for (time, is_noted) in noted.iter_mut().enumerate() {
        *is_noted = handle.try_note(Record {
            time: time as u64,
            code: 7,
        });
    }
    same(&rt, noted, [true, true, false, false]);
    same(&rt, handle.dropped(), 2);
    same(&rt, handle.close().dropped, 2);
    let mut sink = empty_memory(rt.alloc());
    same(&rt, writer.run(&rt, &mut sink, 8), reported(2, 0));
    let times = times_of(&rt, rt.alloc(), &sink, 7);
    same(&rt, times.as_slice(), [0, 1].as_slice());
}

#[test]
fn a_sink_that_refuses_records_has_the_others(rt: HostRuntime) {
    let (mut handle, mut writer) = journal_of(&rt, rt.alloc(), 9);
    for time in 0..9 {
        same(&rt, handle.note(&rt, Record { time, code: 1 }), true);
    }
    let mut sink = picky_sink(rt.alloc(), false);
    let came = close_and_write(&rt, handle, &mut writer, &mut sink, 2);
    same(&rt, came, reported(6, 3));
    same(&rt, (sink.offered, sink.flushed), (9, 1));
    let times = times_of(&rt, rt.alloc(), &sink.memory, 1);
    same(&rt, times.as_slice(), [0, 1, 3, 4, 6, 7].as_slice());
}

/// Ends the handle as soon as the sink was flushed, or after a limit of looks, and returns whether it was flushed.
fn end_after_a_flush(handle: Journal, is_flushed: &AtomicBool) -> bool {
    let is_in_time = is_set_in_time(is_flushed);
    drop(handle);
    is_in_time
}

/// Writes one record, whose handle ends after a flush. Returns whether that came in time, how often the sink was
/// flushed, and how many records it has.
fn write_until_flushed<R: Abort + Threads + Wait + Sync>(
    rt: &R,
    alloc: Global,
    is_flushed: &AtomicBool,
) -> (bool, u64, usize) {
    let (first, writer) = journal_of(rt, alloc, 4);
    let mut handle = first;
    let mut writer = writer;
    same(rt, handle.try_note(Record { time: 5, code: 1 }), true);
    let mut sink = Telling {
        memory: empty_memory(alloc),
        is_flushed,
        flushed: 0,
    };
    thread::scope(
        thread::scope_env(),
        rt,
        move |scope| -> (bool, u64, usize) {
            let ending = made(
                rt,
                scope.spawn(move || end_after_a_flush(handle, is_flushed)),
            );
            same(rt, writer.run(rt, &mut sink, 1), reported(1, 0));
            (ending.join(rt), sink.flushed, sink.memory.records.len())
        },
    )
}

#[test]
fn a_writer_flushes_before_it_waits(rt: HostRuntime) {
    let is_flushed = AtomicBool::new(false);
    let came = write_until_flushed(&rt, rt.alloc(), &is_flushed);
    same(&rt, came, (true, 2, 1));
}

/// Writes `BATCH` records to a sink that notes as many once more where the first one is written, and returns how many
/// of these found a room. Those before are noted at the first flush, or before the writer begins.
fn refilled<R: Abort + Wait>(rt: &R, alloc: Global, max: usize, at_flush: bool) -> usize
    requires { 1 ≤ max }
{
    let (first, writer) = journal_of(rt, alloc, BATCH);
    let mut handle = first;
    let mut writer = writer;
    if !at_flush {
        same(rt, noted(&mut handle), BATCH);
    }
    let mut sink = Refilling {
        memory: empty_memory(alloc),
        handle: Some(handle),
        is_filled: !at_flush,
        refilled: 0,
    };
    let report = writer.run(rt, &mut sink, max);
    let all = BATCH.wrapping_add(sink.refilled) as u64;
    same(rt, report, reported(all, 0));
    sink.refilled
}

#[test]
fn the_rooms_of_a_batch_are_free_when_it_is_written(rt: HostRuntime) {
    for max in 1..=BATCH {
        same(&rt, refilled(&rt, rt.alloc(), max, false), max);
        same(&rt, refilled(&rt, rt.alloc(), max, true), max);
    }
}

#[test]
fn a_flush_that_fails_is_reported(rt: HostRuntime) {
    let (handle, mut writer) = journal_of(&rt, rt.alloc(), 1);
    drop(handle);
    let mut sink = picky_sink(rt.alloc(), true);
    let came = writer.run(&rt, &mut sink, 1);
    same(&rt, (came.written, came.dropped), (0, 0));
    same(&rt, (came.is_flushed, sink.flushed), (false, 1));
}

#[test]
fn a_handle_whose_writer_has_ended_drops_records(rt: HostRuntime) {
    let (mut handle, writer) = journal_of(&rt, rt.alloc(), 4);
    same(&rt, handle.try_note(Record { time: 1, code: 1 }), true);
    drop(writer);
    same(&rt, handle.try_note(Record { time: 2, code: 1 }), false);
    same(&rt, handle.note(&rt, Record { time: 3, code: 1 }), false);
    same(&rt, handle.dropped(), 2);
}

#[test]
fn a_clone_counts_its_own_drops(rt: HostRuntime) {
    let (mut first, mut writer) = journal_of(&rt, rt.alloc(), 1);
    same(&rt, first.try_note(Record { time: 1, code: 1 }), true);
    same(&rt, first.try_note(Record { time: 2, code: 1 }), false);
    let mut second = made(&rt, first.try_clone(&rt));
    same(&rt, second.dropped(), 0);
    for time in 3..6 {
        same(&rt, second.try_note(Record { time, code: 2 }), false);
    }
    writer.learn(first.close().receipt);
    same(&rt, second.close().dropped, 3);
    let mut sink = empty_memory(rt.alloc());
    same(&rt, writer.run(&rt, &mut sink, 3), reported(1, 0));
}

/// What threads that note count.
#[derive(Drop)]
struct Counts {
    noted: AtomicU64,
    dropped: AtomicU64,
}

/// Notes records of a code at the times from 0 on, and counts them and what the handle dropped.
fn note_all<R: Wait>(rt: &R, handle: Journal, code: u64, waits: bool, counts: &Counts) {
    let mut handle = handle;
    for time in 0..EACH {
        let event = Record { time, code };
        let is_noted = if waits {
            handle.note(rt, event)
        } else {
            handle.try_note(event)
        };
        if is_noted {
            counts.noted.fetch_add(1, Ordering::SeqCst);
        }
    }
    counts
        .dropped
        .fetch_add(handle.close().dropped, Ordering::SeqCst);
}

/// Writes what four threads note, and returns the sink and the report.
fn write_four<R: Abort + Threads + Wait + Sync>(
    rt: &R,
    alloc: Global,
    rooms: usize,
    max: usize,
    waits: bool,
    counts: &Counts,
) -> (Picky, Report)
    requires { 1 ≤ max }
{
    let (first, writer) = journal_of(rt, alloc, rooms);
    let mut handle = first;
    let mut writer = writer;
    thread::scope(
        thread::scope_env(),
        rt,
        move |scope| -> (Picky, Report)
            requires { 1 ≤ max }
        {
            for code in 1..4 {
                let other = made(rt, handle.try_clone(rt));
                made(
                    rt,
                    scope.spawn(move || note_all(rt, other, code, waits, counts)),
                );
            }
            made(
                rt,
                scope.spawn(move || note_all(rt, handle, 0, waits, counts)),
            );
            let mut sink = picky_sink(alloc, false);
            let report = writer.run(rt, &mut sink, max);
            (sink, report)
        },
    )
}

/// Returns whether the times of each code go up.
fn are_in_order(memory: &Memory) -> bool {
    let mut next = [0u64; 4];
    for record in memory.records.iter() {
        let Some(least) = next.get_mut(record.code as usize) else {
            return false;
        };
        if record.time < *least {
            return false;
        }
        *least = record.time.wrapping_add(1);
    }
    true
}

/// Writes what four threads note. Asserts that each record was written, refused or dropped, that a thread that waits
/// dropped none, and that the records of each thread came in its order.
fn meet<R: Abort + Threads + Wait + Sync>(
    rt: &R,
    alloc: Global,
    rooms: usize,
    max: usize,
    waits: bool,
)
    requires { 1 ≤ max }
{
    let counts = Counts {
        noted: AtomicU64::new(0),
        dropped: AtomicU64::new(0),
    };
    let (sink, came) = write_four(rt, alloc, rooms, max, waits, &counts);
    let noted = counts.noted.load(Ordering::SeqCst);
    let dropped = counts.dropped.load(Ordering::SeqCst);
    let all = EACH.wrapping_mul(4);
    same(rt, noted.wrapping_add(dropped), all);
    same(rt, !waits || dropped == 0, true);
    same(rt, came, reported(noted.wrapping_sub(noted / 3), noted / 3));
    same(rt, sink.memory.records.len() as u64, came.written);
    same(rt, are_in_order(&sink.memory), true);
}

#[test]
fn what_four_threads_note_is_written_refused_or_dropped(rt: HostRuntime) {
    for rooms in 1..5usize {
        for max in 1..5usize {
            for _round in 0..ROUNDS {
                meet(&rt, rt.alloc(), rooms, max, true);
                meet(&rt, rt.alloc(), rooms, max, false);
            }
        }
    }
}
