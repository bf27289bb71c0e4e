//! A log: many threads send records, and one thread stores them in batches until all senders have ended.
ghost use Rattle.std.specs.Prelude.{◌≡◌, ◌≤◌, [], ◌∷◌, ◌++◌, map, None, IfOk, IfSome};
ghost use Rattle.std.specs.Thread.{IsSync};
ghost use Rattle.cordyceps.specs.Parties.Sending.{Delivers};
ghost use Rattle.cordyceps.specs.Parties.Shares.{IsShare};
ghost use Rattle.cordyceps.specs.Queues.Moves.{Moves};
ghost use Rattle.cordyceps.specs.Queues.Sending.{Sends};
ghost use Rattle.cordyceps_shared_uses.specs.Logger.{record_of, records};

use crate::idle::{make_parker, pause};
use cordyceps::mpsc_queue::{Batch, Links, MAX_ROOMS, Party};
use cordyceps::{Kind, Linked, List, MpscQueue, Node};
use crossbeam_utils::sync::{Parker, Unparker};
use std::alloc::{AllocError, Global};
use std::snapshot::Snapshot;
use std::sync::Wait;
use std::sync::atomic::{AtomicBool, Ordering};
use std::thread;
use std::thread::{Promise, PromisedHandle, Scope, Threads};

/// A record of the log.
#[derive(Clone, Copy)]
pub struct Record {
    /// The time of the event, in any unit.
    pub time: u64,
    /// The code of the event.
    pub code: u64,
}

impl<L: Kind> Linked<L> for Record {
    type Handle = Node<Record, L>;

    ghost element = { λ h. h };

    fn into_ptr(handle: Node<Record, L>) -> Node<Record, L> {
        handle
    }

    fn from_ptr(node: Node<Record, L>) -> Node<Record, L>
        ensures { result ≡ node }
    {
        node
    }
}

/// What one thread sends. The nodes of its records are allocated before it starts, so sending allocates nothing.
#[derive(Drop)]
pub struct Producer {
    /// The records, in the order in which they are sent.
    pub records: List<Record>,
}

impl<L: Kind> Linked<L> for Producer {
    type Handle = Node<Producer, L>;

    ghost element = { λ h. h };

    fn into_ptr(handle: Node<Producer, L>) -> Node<Producer, L> {
        handle
    }

    fn from_ptr(node: Node<Producer, L>) -> Node<Producer, L>
        ensures { result ≡ node }
    {
        node
    }
}

/// Sends all records of a list, in order, and then gives the rooms that the party has left to the pool.
fn send_all<R: Wait>(
    rt: &R,
    queue: &MpscQueue<Record>,
    storer: &Unparker,
    mut party: Party<Record>,
    mut records: List<Record>,
) -> Party<Record>
    requires { party.table ≡ queue.now.table }
    ensures { Moves record_of (map record_of records) [] party result }
{
    while let Some(record) = records.pop_front() {
        queue.enqueue_waiting(rt, &mut party, record.into_kind());
        storer.unpark();
    }
    queue.give_all_back_waiting(rt, &mut party);
    party
}

/// Sends the records of each producer on a thread of its own.
fn send_each<R: Threads + Wait + Sync>(
    rt: &R,
    queue: &MpscQueue<Record>,
    storer: &Unparker,
    mut party: Party<Record>,
    mut producers: List<Producer>,
) -> Party<Record>
    requires { (party.table ≡ queue.now.table) × IsShare party.share }
    ensures { Sends record_of (records producers) party result }
{
    let Some(node) = producers.pop_front() else {
        return party;
    };
    let first = node.into_value().records;
    let mine = queue.split(&mut party, 0);
    let (sent, mut back) = thread::join(
        rt,
        || -> Party<Record>
            requires { IsSync R.row × (mine.table ≡ queue.now.table) }
            ensures { Moves record_of (map record_of first) [] mine result }
        { send_all(rt, queue, storer, mine, first) },
        || -> Party<Record>
            requires { IsSync R.row × (party.table ≡ queue.now.table) × IsShare party.share }
            ensures { Sends record_of (records producers) party result }
        { send_each(rt, queue, storer, party, producers) },
    );
    queue.absorb(&mut back, sent);
    back
}

/// Appends the records of a batch to the log. If memory is refused, it returns `AllocError`, and the rest of the batch
/// is dropped.
fn store(log: &mut Vec<Record>, batch: Batch<Record>) -> Result<(), AllocError>
    ensures { IfOk result (λ _. log.new.items ≡ log.old.items ++ map record_of batch) }
{
    for record in batch {
        log.push(*record.get())?;
    }
    Ok(())
}

/// Appends the records of a batch to the log and returns it. If memory is refused or was refused before, it returns
/// `None`, and the batch is dropped.
fn store_more(log: Option<Vec<Record>>, batch: Batch<Record>) -> Option<Vec<Record>>
    ensures none { log ≡ None → result ≡ None }
    ensures stored { IfSome result (λ after. IfSome log (λ before.
        after.items ≡ before.items ++ map record_of batch)) }
{
    let mut log = log?;
    store(&mut log, batch).ok()?;
    Some(log)
}

/// What the thread that stores returns: its party and its log. The log is `None` if memory was refused.
#[derive(Drop)]
struct Stored {
    party: Party<Record>,
    log: Option<Vec<Record>>,
}

/// The promise of a thread that stores and starts with a party.
#[derive(Drop)]
struct Stores {
    party: Snapshot<Party<Record>>,
}

impl Promise<Stored> for Stores {
    ghost kept_by = { λ stores stored.
        IfSome stored.log (λ log. Moves record_of [] log.items stores.party.value stored.party) };
}

/// Stores the records that arrive, in batches of at most `max`, until all senders have ended and no record is left. It
/// gives the rooms of the records that it has stored to the pool at once, and sleeps while the queue is empty.
fn store_until_end<R: Wait>(
    rt: &R,
    alloc: Global,
    queue: &MpscQueue<Record>,
    party: Party<Record>,
    parker: Parker,
    have_ended: &AtomicBool,
    max: usize,
) -> Stored
    requires table { party.table ≡ queue.now.table }
    requires some { 1 ≤ max }
    ensures table { result.party.table ≡ queue.now.table }
    ensures stored { IfSome result.log (λ log. Moves record_of [] log.items party result.party) }
{
    let mut log = Some(Vec::new(alloc));
    let mut consumer = queue.consume(rt, party);
    for _ in rt.forever() {
        // The flag is read before the take. If all senders have ended by now, no record comes after those that the take
        // finds.
        let is_end = have_ended.load(Ordering::SeqCst);
        match consumer.take_linked(max) {
            Ok(batch) => {
                log = store_more(log, batch);
                let rooms = consumer.rooms();
                consumer.give_back(rooms);
            }
            Err(why) => {
                if is_end {
                    return Stored {
                        party: consumer.release(),
                        log,
                    };
                }
                pause(rt, &parker, why);
            }
        }
    }
    unreachable!()
}

/// Starts a thread of a scope that stores. If it cannot be started, it returns `AllocError`.
fn start_storing<'s, E, R: Wait + Sync>(
    scope: &Scope<'s, E>,
    rt: &'s R,
    alloc: Global,
    queue: &'s MpscQueue<Record>,
    storer: Party<Record>,
    parker: Parker,
    have_ended: &'s AtomicBool,
    max: usize,
) -> Result<PromisedHandle<Stored, Stores>, AllocError>
    requires table { storer.table ≡ queue.now.table }
    requires some { 1 ≤ max }
    ensures { IfOk result (λ h. h.promise.party.value ≡ storer) }
{
    let promise = Stores {
        party: Snapshot::of(&storer),
    };
    let store_on = move || -> Stored
        requires { IsSync R.row × (storer.table ≡ queue.now.table) × (1 ≤ max) }
        ensures { IfSome result.log (λ log. Moves record_of [] log.items storer result.party) }
    { store_until_end(rt, alloc, queue, storer, parker, have_ended, max) };
    Ok(scope.spawn_with(promise, store_on)?)
}

/// Sends the records of each producer on a thread of its own, while one thread stores them. If no thread can be started
/// to store, nothing is sent.
fn exchange<R: Threads + Wait + Sync>(
    rt: &R,
    alloc: Global,
    queue: &MpscQueue<Record>,
    storer: Party<Record>,
    sender: Party<Record>,
    producers: List<Producer>,
    max: usize,
) -> Result<(Stored, Party<Record>), AllocError>
    requires storer { storer.table ≡ queue.now.table }
    requires sender { (sender.table ≡ queue.now.table) × IsShare sender.share }
    requires some { 1 ≤ max }
    ensures stored { IfOk result (λ both.
        IfSome both.0.log (λ log. Moves record_of [] log.items storer both.0.party)) }
    ensures sent { IfOk result (λ both. Sends record_of (records producers) sender both.1) }
{
    let (parker, wake) = make_parker(alloc)?;
    let flag = AtomicBool::new(false);
    let have_ended = &flag;
    thread::scope(
        thread::scope_env(),
        rt,
        move |scope| -> Result<(Stored, Party<Record>), AllocError>
            requires { IsSync R.row × (storer.table ≡ queue.now.table) × (sender.table ≡ queue.now.table)
                × IsShare sender.share × (1 ≤ max) }
            ensures stored { IfOk result (λ both.
                IfSome both.0.log (λ log. Moves record_of [] log.items storer both.0.party)) }
            ensures sent { IfOk result (λ both. Sends record_of (records producers) sender both.1) }
        {
            let stored = start_storing(scope, rt, alloc, queue, storer, parker, have_ended, max)?;
            let sent = send_each(rt, queue, &wake, sender, producers);
            have_ended.store(true, Ordering::SeqCst);
            wake.unpark();
            Ok((stored.join(rt), sent))
        },
    )
}

/// Logs the records of all producers and returns the log. Each producer sends on a thread of its own, and one thread
/// stores the records, in batches of at most `max`, until all senders have ended. No record is lost or duplicated, and
/// the records of each producer come in order.
///
/// The queue has `rooms` rooms, which bound the number of records that wait to be stored. The room of a stored record
/// is used again, so the number of records has no bound. Requires that `rooms` is at least 1 and at most `MAX_ROOMS`,
/// and that `max` is at least 1.
///
/// # Errors
/// If memory is refused, or no thread can be started to store, it returns `AllocError`, and all records are dropped.
///
/// # Complexity
/// O(`rooms` + n + p), for n records of p producers, in all threads together, besides the tries of threads that wait.
///
/// # Waits
/// For the threads that it starts. A sender that finds the queue full tries again until a room is free. The thread that
/// stores sleeps while the queue is empty. If no thread can be started for a producer, its records are sent after
/// others.
pub fn log_all<R: Threads + Wait + Sync>(
    rt: &R,
    alloc: Global,
    producers: List<Producer>,
    rooms: usize,
    max: usize,
) -> Result<Vec<Record>, AllocError>
    requires room { 1 ≤ rooms }
    requires few { rooms ≤ MAX_ROOMS }
    requires some { 1 ≤ max }
    ensures { IfOk result (λ log. Delivers (records producers) log.items) }
{
    let (queue, mut storer) = MpscQueue::new(alloc, rooms)?;
    queue.give_back(&mut storer, rooms);
    let sender = queue.split(&mut storer, 0);
    let both = exchange(rt, alloc, &queue, storer, sender, producers, max)?;
    let (stored, sent) = both;
    let Stored { mut party, log } = stored;
    let Some(mut log) = log else {
        return Err(AllocError);
    };
    queue.absorb(&mut party, sent);
    store(&mut log, queue.close(party).elements)?;
    Ok(log)
}
