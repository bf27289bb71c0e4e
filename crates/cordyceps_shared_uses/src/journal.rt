//! A journal: threads note records while the program runs, and one thread writes them to a sink.
//!
//! Each thread has a handle, a [`Journal`], and the thread that writes has the [`Writer`]. Between them is a channel,
//! whose rooms bound how many records wait to be written. A handle that may not wait drops a record for which no room
//! is free, and counts it. The writer flushes the sink before it waits, so that what was noted becomes lasting while
//! nobody notes more.
ghost use Rattle.std.specs.Prelude.{◌≡◌, ◌≤◌, ◌++◌, ◌∷◌, [], List, map, Bool, true, false, is_ok};
ghost use Rattle.std.specs.Prelude.{IfOk, OnErr, OnOk, MatchResult};
ghost use Rattle.cordyceps.specs.Channels.Channels.{
  AreAmong,
  IsChannel,
  IsOver,
  Receives,
  ReceivesBatch,
  received,
  sent,
};
ghost use Rattle.cordyceps.specs.Parties.Histories.{plain};
ghost use Rattle.cordyceps.specs.Parties.Knowing.{IsPrefixOf};
ghost use Rattle.cordyceps_shared_uses.specs.Journal.{Asked, Write, Flush, InMemory, IsAsked, Asks};
ghost use Rattle.cordyceps_shared_uses.specs.Journal.{Drops, Notes, Runs, Writes, counted};
ghost use Rattle.cordyceps_shared_uses.specs.Logger.{record_of};
ghost use Rattle.cordyceps_shared_uses.specs.declared.logger.Record.{Record};

use crate::logger::Record;
use cordyceps::channel::{Batch, Disconnected, Receipt, Receiver, Sender, TryRecvError, channel};
use cordyceps::mpsc_queue::{Links, MAX_ROOMS};
use cordyceps::{Node, Refused};
use std::alloc::{AllocError, Global};
use std::marker::Model;
use std::sync::Wait;

/// The sink wrote nothing, or could not make lasting what it had written.
#[derive(Drop, Clone, Copy, PartialEq, Eq, Debug)]
pub struct SinkError;

/// Where the records of a journal are written.
pub trait Sink {
    // The records that were written, and those of them that are lasting.
    ghost written: { Self → List Record };

    ghost lasting: { Self → List Record };

    // What being asked makes of the sink. By the clauses below, what it was asked is known where `write` or `flush` was
    // called, and nowhere else.
    ghost answers: { Asked → Self → Self → Type 0 };

    /// Writes a record after those that were written.
    ///
    /// # Errors
    /// If the record was not written, it returns `SinkError`. The next one may be written again.
    fn write(&mut self, event: Record) -> Result<(), SinkError>
        ensures ok { OnOk result (written self.new ≡ written self.old ++ event ∷ []) }
        ensures err { OnErr result (written self.new ≡ written self.old) }
        ensures asked { answers (Write event (is_ok result)) self.old self.new };

    /// Makes lasting what was written.
    ///
    /// # Errors
    /// If it could not, it returns `SinkError`. A later flush may succeed.
    fn flush(&mut self) -> Result<(), SinkError>
        ensures same { written self.new ≡ written self.old }
        ensures ok { OnOk result (lasting self.new ≡ written self.new) }
        ensures asked { answers (Flush (is_ok result)) self.old self.new };
}

/// A sink in memory, which refuses a record if memory is refused. Its flush always succeeds.
#[derive(Drop)]
pub struct Memory {
    /// The records, in the order in which they were written.
    pub records: Vec<Record>,
}

impl Sink for Memory {
    ghost written = { λ m. m.records.items };

    ghost lasting = { λ m. m.records.items };

    ghost answers = { λ a m after. InMemory a m.records.items after.records.items };

    fn write(&mut self, event: Record) -> Result<(), SinkError> {
        match self.records.push(event) {
            Ok(()) => Ok(()),
            Err(_) => Err(SinkError),
        }
    }

    fn flush(&mut self) -> Result<(), SinkError> {
        Ok(())
    }
}

/// A record in the node in which it is sent.
type Entry = Node<Record, Links<Record>>;

/// Creates an entry of a record. Allocates one node.
fn entry(alloc: Global, event: Record) -> Result<Entry, AllocError>
    ensures { IfOk result (λ e. record_of e ≡ event) }
{
    match Node::new(alloc, 0, event) {
        Ok(node) => Ok(node),
        Err(Refused { value: _ }) => Err(AllocError),
    }
}

/// A handle by which one thread notes records. It can be sent to a thread.
///
/// Dropping a handle ends it, which the writer is told. The writer waits for each handle to end.
///
/// A contract sees the party of its sender, and how many records it dropped.
#[derive(Drop)]
pub struct Journal {
    sender: Sender<Record>,
    dropped: u64,
    alloc: Global,
}

impl Model for Journal {
    ghost use Rattle.cordyceps_shared_uses.specs.Journal.{Noting};

    ghost Value = { Noting };

    ghost view = { λ j. record { party = j.sender; dropped = j.dropped } };
}

/// What a handle tells where it ends.
#[derive(Drop)]
pub struct Closed {
    /// Its last receipt. A writer that learns it knows all that the handle sent.
    pub receipt: Receipt<Record>,
    /// How many records it dropped.
    pub dropped: u64,
}

impl Journal {
    /// Creates a journal in which `rooms` records can wait to be written, and returns its first handle and its writer.
    /// Requires that `rooms` is at most `MAX_ROOMS`.
    ///
    /// # Errors
    /// If memory is refused, it returns `AllocError`, and nothing is kept.
    ///
    /// # Complexity
    /// O(`rooms`).
    pub fn with_rooms(alloc: Global, rooms: usize) -> Result<(Journal, Writer), AllocError>
        requires { rooms ≤ MAX_ROOMS }
        ensures channel { IfOk result (λ ends. IsChannel rooms ends.0.party ends.1) }
        ensures dropped { IfOk result (λ ends. ends.0.dropped ≡ 0) }
    {
        let (sender, receiver) = channel(alloc, rooms)?;
        Ok((Journal::of(sender, alloc), Writer { receiver }))
    }

    /// Makes a handle of a sender, which has dropped nothing.
    fn of(sender: Sender<Record>, alloc: Global) -> Journal
        ensures { result ≡ record { party = sender; dropped = 0 } }
    {
        Journal {
            sender,
            dropped: 0,
            alloc,
        }
    }

    /// Counts a record that is dropped, and returns `false`.
    fn drop_one(&mut self) -> bool
        ensures counts { self.new ≡ record self.old { dropped = counted self.old.dropped 1 } }
        ensures is { result ≡ false }
    {
        self.dropped = self.dropped.saturating_add(1);
        false
    }

    /// Notes a record if that needs no wait, and returns whether it did. If no room is free, memory is refused, or the
    /// writer has ended, it drops the record and counts it. Allocates one node.
    ///
    /// A record that is noted while the writer ends may not be written: it is dropped with the journal.
    ///
    /// # Complexity
    /// O(1), and O(q) where the handle takes a quantum of q rooms, at most 64.
    ///
    /// # Waits
    /// Never.
    pub fn try_note(&mut self, event: Record) -> bool
        ensures noted { result ≡ true → Notes event self.old self.new }
        ensures dropped { result ≡ false → Drops self.old self.new }
        ensures table { self.new.party.table ≡ self.old.party.table }
    {
        let Ok(entry) = entry(self.alloc, event) else {
            return self.drop_one();
        };
        match self.sender.try_send(entry) {
            Ok(()) => true,
            Err(_) => self.drop_one(),
        }
    }

    /// Notes a record, and waits while no room is free. Returns whether it did. If memory is refused, or the writer has
    /// ended, it drops the record and counts it. Allocates one node.
    ///
    /// # Complexity
    /// That of `try_note` for each try.
    ///
    /// # Waits
    /// For the writer to free a room, or to end.
    pub fn note<R: Wait>(&mut self, rt: &R, event: Record) -> bool
        ensures noted { result ≡ true → Notes event self.old self.new }
        ensures dropped { result ≡ false → Drops self.old self.new }
        ensures table { self.new.party.table ≡ self.old.party.table }
    {
        let Ok(entry) = entry(self.alloc, event) else {
            return self.drop_one();
        };
        match self.sender.send(rt, entry) {
            Ok(()) => true,
            Err(Disconnected { value: _ }) => self.drop_one(),
        }
    }

    /// Returns how many records this handle dropped. A count of `u64::MAX` may stand for more.
    ///
    /// # Complexity
    /// O(1).
    pub fn dropped(&self) -> u64
        ensures { result ≡ self.now.dropped }
    {
        let Journal { dropped, .. } = self;
        *dropped
    }

    /// Returns another handle of the same journal, which has dropped nothing.
    ///
    /// # Errors
    /// If memory is refused, it returns `AllocError`, and the journal is as before.
    ///
    /// # Complexity
    /// That of `Sender::try_clone`.
    ///
    /// # Waits
    /// While another thread clones a handle of this journal.
    pub fn try_clone<R: Wait>(&mut self, rt: &R) -> Result<Journal, AllocError>
        ensures same { self.new ≡ self.old }
        ensures made { IfOk result (λ other.
            (other.party.table ≡ self.old.party.table) × (other.dropped ≡ 0)) }
    {
        Ok(Journal::of(self.sender.try_clone(rt)?, self.alloc))
    }

    /// Ends the handle, as its drop does, and returns its last receipt and its count.
    ///
    /// # Complexity
    /// That of `Sender::close`.
    ///
    /// # Waits
    /// Never.
    pub fn close(self) -> Closed
        ensures receipt { (result.receipt.table ≡ self.party.table) × (result.receipt.told ≡ plain self.party.seen) }
        ensures dropped { result.dropped ≡ self.dropped }
    {
        let dropped = self.dropped;
        let Journal { sender, .. } = self;
        Closed {
            receipt: sender.close(),
            dropped,
        }
    }
}

/// What a writer did.
#[derive(Drop, Clone, Copy, PartialEq, Eq, Debug)]
pub struct Report {
    /// How many records the sink wrote. A count of `u64::MAX` may stand for more, here and below.
    pub written: u64,
    /// How many records the sink refused, which were dropped.
    pub dropped: u64,
    /// Whether the last flush succeeded, so that all that was written is lasting.
    pub is_flushed: bool,
}

/// What writes the records of a journal. It can be sent to a thread.
///
/// Dropping a writer ends it, which the handles are told. Records that it has not written are dropped with the journal.
///
/// A contract sees the party of its receiver.
#[derive(Drop)]
pub struct Writer {
    receiver: Receiver<Record>,
}

impl Model for Writer {
    ghost use Rattle.cordyceps.specs.Elements.Element.{Element};
    ghost use Rattle.cordyceps.specs.Queues.Calls.{PartyOf};
    ghost use Rattle.cordyceps_shared_uses.specs.declared.logger.Record.{Record};

    ghost Value = { PartyOf (Element Record) };

    ghost view = { λ w. w.receiver };
}

/// Writes a record, and adds it to a report.
fn write_one<S: Sink>(sink: &mut S, event: Record, report: Report) -> Report
    ensures writes { Writes (event ∷ []) (S.written sink.old) (S.written sink.new) report result }
    ensures asks { Asks S.answers (event ∷ []) sink.old sink.new report result }
{
    let mut report = report;
    match sink.write(event) {
        Ok(()) => report.written = report.written.saturating_add(1),
        Err(_) => report.dropped = report.dropped.saturating_add(1),
    }
    report
}

/// Writes the records of a batch, and adds them to a report.
fn write_batch<S: Sink>(sink: &mut S, batch: Batch<Record>, report: Report) -> Report
    ensures writes { Writes (map record_of batch) (S.written sink.old) (S.written sink.new) report result }
    ensures asks { Asks S.answers (map record_of batch) sink.old sink.new report result }
{
    let mut report = report;
    for entry in batch {
        report = write_one(sink, *entry.get(), report);
    }
    report
}

impl Writer {
    /// Receives a batch of entries, and waits while none is there. It flushes the sink before it waits.
    fn receive<S: Sink, R: Wait>(
        &mut self,
        rt: &R,
        sink: &mut S,
        max: usize,
    ) -> Result<Batch<Record>, Disconnected>
        requires { 1 ≤ max }
        ensures received { MatchResult result (λ batch. ReceivesBatch (λ e. e) max batch self.old self.new)
            (λ _. Receives [] self.old self.new × IsOver self.new) }
        ensures written { S.written sink.new ≡ S.written sink.old }
        ensures flushes { (flushed : List Bool) × IsAsked S.answers (map Flush flushed) sink.old sink.new }
    {
        match self.receiver.try_recv_batch(max) {
            Ok(batch) => Ok(batch),
            Err(TryRecvError::Disconnected) => Err(Disconnected { value: () }),
            Err(TryRecvError::Empty) => {
                // If this flush fails, the next one makes lasting what it left.
                let _flushed = sink.flush();
                self.receiver.recv_batch(rt, max)
            }
        }
    }

    /// Writes records to a sink until all handles have ended and each record that was noted has come, and reports what
    /// it did. It takes up to `max` records at a time. Requires that `max` is at least 1. Allocates nothing.
    ///
    /// It flushes the sink before it waits, and at the end. A record that the sink refuses is dropped and counted.
    ///
    /// # Complexity
    /// O(n), for n records, besides what the sink does and the tries of a thread that waits.
    ///
    /// # Waits
    /// Until all handles have ended.
    pub fn run<S: Sink, R: Wait>(&mut self, rt: &R, sink: &mut S, max: usize) -> Report
        requires { 1 ≤ max }
        ensures runs { Runs S.written S.answers sink.old sink.new result self.old self.new }
        ensures flushed { result.is_flushed ≡ true → S.lasting sink.new ≡ S.written sink.new }
    {
        let mut report = Report {
            written: 0,
            dropped: 0,
            is_flushed: false,
        };
        for _ in rt.forever() {
            match self.receive(rt, sink, max) {
                Ok(batch) => report = write_batch(sink, batch, report),
                Err(Disconnected { value: () }) => {
                    report.is_flushed = sink.flush().is_ok();
                    return report;
                }
            }
        }
        unreachable!()
    }

    /// Learns the receipt of a handle that ended. The writer then knows all that the handle sent. Requires that the
    /// receipt is of this journal.
    ///
    /// # Complexity
    /// O(1).
    ///
    /// # Waits
    /// Never.
    pub fn learn(&mut self, receipt: Receipt<Record>)
        requires { receipt.table ≡ self.old.table }
        ensures received { Receives [] self.old self.new }
        ensures told { IsPrefixOf receipt.told (plain self.new.seen) }
    {
        self.receiver.learn(receipt);
    }
}

/// Ends a handle, and writes records until all others have ended too. What this handle sent is then among what the
/// writer received, in the order in which it was sent. If the writer had received nothing before, and the sink refuses
/// nothing, the records of this handle are among those that were written, in that order.
///
/// # Complexity
/// As `Writer::run`.
///
/// # Waits
/// Until all handles have ended.
pub fn close_and_write<S: Sink, R: Wait>(
    rt: &R,
    journal: Journal,
    writer: &mut Writer,
    sink: &mut S,
    max: usize,
) -> Report
    requires table { journal.party.table ≡ writer.old.table }
    requires some { 1 ≤ max }
    ensures runs { Runs S.written S.answers sink.old sink.new result writer.old writer.new }
    ensures order { AreAmong (sent journal.party) (received writer.new) }
    ensures written { received writer.old ≡ [] → result.dropped ≡ 0
        → AreAmong (map record_of (sent journal.party)) (S.written sink.new) }
{
    writer.learn(journal.close().receipt);
    writer.run(rt, sink, max)
}
