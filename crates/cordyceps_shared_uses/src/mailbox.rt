//! A mailbox: many threads send messages, and one thread receives them.
ghost use Rattle.std.specs.Prelude.{◌≡◌, ◌≤◌, ◌⊎◌, [], ◌∷◌, ◌++◌, map, Bool, true, false, None, IfOk, IfSome};
ghost use Rattle.std.specs.Thread.{IsSync};
ghost use Rattle.cordyceps.specs.Parties.Sending.{Delivers};
ghost use Rattle.cordyceps.specs.Parties.Shares.{IsShare};
ghost use Rattle.cordyceps.specs.Queues.Bell.{ClearsBell, Sleeps};
ghost use Rattle.cordyceps.specs.Queues.Moves.{Moves};
ghost use Rattle.cordyceps.specs.Queues.Sending.{Sends};
ghost use Rattle.cordyceps_shared_uses.specs.Mailbox.{contents, value_of};

use cordyceps::mpsc_queue::{Batch, Links, MAX_ROOMS, Party, TryDequeueError};
use cordyceps::{Linked, MpscQueue, Node, Refused};
use std::alloc::{AllocError, Global};
use std::snapshot::Snapshot;
use std::sync::Wait;
use std::sync::atomic::{AtomicBool, Ordering};
use std::thread;
use std::thread::{Promise, PromisedHandle, Scope, Threads};

/// A message, which is a number.
#[derive(Drop)]
pub struct Message {
    pub value: u64,
}

/// A message in the node in which it is sent.
type Letter = Node<Message, Links<Message>>;

impl Linked<Links<Message>> for Message {
    type Handle = Letter;

    ghost element = { λ h. h };

    fn into_ptr(handle: Letter) -> Letter {
        handle
    }

    fn from_ptr(node: Letter) -> Letter
        ensures { result ≡ node }
    {
        node
    }
}

/// Creates a letter with this value. Allocates one node.
fn letter(alloc: Global, value: u64) -> Result<Letter, AllocError>
    ensures { IfOk result (λ l. l.value.value ≡ value) }
{
    match Node::new(alloc, 0, Message { value }) {
        Ok(node) => Ok(node),
        Err(Refused { value: _ }) => Err(AllocError),
    }
}

/// Sends the values of a list, in order. Allocates one node for each. If memory is refused, it sends no more.
fn send_values<R: Wait>(
    rt: &R,
    alloc: Global,
    queue: &MpscQueue<Message>,
    party: &mut Party<Message>,
    values: &[u64],
) -> Result<(), AllocError>
    requires { party.old.table ≡ queue.now.table }
    ensures table { party.new.table ≡ queue.now.table }
    ensures sent { IfOk result (λ _. Moves value_of values.now [] party.old party.new) }
{
    for value in values {
        queue.enqueue_waiting(rt, party, letter(alloc, *value)?);
        queue.ring(party);
    }
    Ok(())
}

/// What a sender returns: its party, and `AllocError` if memory was refused.
#[derive(Drop)]
struct Sent {
    party: Party<Message>,
    result: Result<(), AllocError>,
}

/// Sends the values of a list, in order, and then gives the rooms that the party has left to the pool, also if memory
/// is refused.
fn send_all<R: Wait>(
    rt: &R,
    alloc: Global,
    queue: &MpscQueue<Message>,
    mut party: Party<Message>,
    values: &[u64],
) -> Sent
    requires { party.table ≡ queue.now.table }
    ensures table { result.party.table ≡ queue.now.table }
    ensures sent { IfOk result.result (λ _. Moves value_of values.now [] party result.party) }
{
    let result = send_values(rt, alloc, queue, &mut party, values);
    queue.give_all_back_waiting(rt, &mut party);
    Sent { party, result }
}

/// Sends each list on a thread of its own.
fn send_each<R: Threads + Wait + Sync>(
    rt: &R,
    alloc: Global,
    queue: &MpscQueue<Message>,
    mut party: Party<Message>,
    lists: &[Vec<u64>],
) -> Sent
    requires { (party.table ≡ queue.now.table) × IsShare party.share }
    ensures table { result.party.table ≡ queue.now.table }
    ensures sent { IfOk result.result (λ _. Sends value_of (contents lists.now) party result.party) }
{
    let Some((first, rest)) = lists.split_first() else {
        return Sent {
            party,
            result: Ok(()),
        };
    };
    let mine = queue.split(&mut party, 0);
    let (sent, others) = thread::join(
        rt,
        || -> Sent
            requires { IsSync R.row × (mine.table ≡ queue.now.table) }
            ensures table { result.party.table ≡ queue.entry.now.table }
            ensures sent { IfOk result.result (λ _. Moves value_of first.entry.now.items [] mine result.party) }
        { send_all(rt, alloc, queue, mine, first.as_slice()) },
        || -> Sent
            requires { IsSync R.row × (party.table ≡ queue.now.table) × IsShare party.share }
            ensures table { result.party.table ≡ queue.entry.now.table }
            ensures sent { IfOk result.result (λ _. Sends value_of (contents rest.entry.now) party result.party) }
        { send_each(rt, alloc, queue, party, rest) },
    );
    let Sent {
        party: mut back,
        result,
    } = others;
    queue.absorb(&mut back, sent.party);
    match sent.result {
        Ok(()) => Sent {
            party: back,
            result,
        },
        Err(refused) => Sent {
            party: back,
            result: Err(refused),
        },
    }
}

/// Appends a message to those that were received and returns them. If memory is refused or was refused before, it
/// returns `None`.
fn note(received: Option<Vec<u64>>, letter: Letter) -> Option<Vec<u64>>
    ensures none { received ≡ None → result ≡ None }
    ensures noted { IfSome result (λ after. IfSome received (λ before.
        after.items ≡ before.items ++ letter.value.value ∷ [])) }
{
    let mut received = received?;
    received.push(letter.get().value).ok()?;
    Some(received)
}

/// Appends messages to those that were received. If memory is refused, it returns `AllocError`, and the rest of the
/// messages is dropped.
fn note_all(received: &mut Vec<u64>, letters: Batch<Message>) -> Result<(), AllocError>
    ensures { IfOk result (λ _. received.new.items ≡ received.old.items ++ map value_of letters) }
{
    for letter in letters {
        received.push(letter.get().value)?;
    }
    Ok(())
}

/// What the receiver returns: its party, and the messages that it received, or `None` if memory was refused.
#[derive(Drop)]
struct Inbox {
    party: Party<Message>,
    received: Option<Vec<u64>>,
}

/// The promise of a receiver that starts with a party.
#[derive(Drop)]
struct Receives {
    party: Snapshot<Party<Message>>,
}

impl Promise<Inbox> for Receives {
    ghost kept_by = { λ receives inbox.
        IfSome inbox.received (λ all. Moves value_of [] all.items receives.party.value inbox.party) };
}

/// Receives messages until all senders have ended and no message is left. It gives the room of each message to the pool
/// at once. If memory is refused, it goes on, and drops what it receives, so that no sender waits for a room for good.
///
/// While the queue is empty it sleeps, if it was empty also after the bell was cleared. So a sender whose message it
/// missed has yet to ring the bell, by the law `sleeper_is_owed` of `cordyceps_queue`.
fn receive<R: Wait>(
    rt: &R,
    alloc: Global,
    queue: &MpscQueue<Message>,
    mut party: Party<Message>,
    have_ended: &AtomicBool,
) -> Inbox
    requires { party.table ≡ queue.now.table }
    ensures { IfSome result.received (λ all. Moves value_of [] all.items party result.party) }
{
    let mut received = Some(Vec::new(alloc));
    let mut is_cleared = false;
    for _ in rt.forever() {
        // The flag is read before the try. If all senders have ended by now, no message comes after those that the
        // tries find from here on.
        let is_end = have_ended.load(Ordering::SeqCst);
        match queue.try_dequeue(&mut party) {
            Ok(letter) => {
                received = note(received, letter);
                let rooms = party.rooms();
                queue.give_back(&mut party, rooms);
            }
            Err(why) => {
                if is_end {
                    return Inbox { party, received };
                }
                pause(rt, queue, &mut party, is_cleared, why);
                is_cleared = !is_cleared;
            }
        }
    }
    unreachable!()
}

/// Clears the bell, or, if it was cleared before the last try, sleeps until a sender rings it. Yields to other threads
/// instead if that try did not find the queue empty. It never clears the bell between a try and the sleep.
fn pause<R: Wait>(
    rt: &R,
    queue: &MpscQueue<Message>,
    party: &mut Party<Message>,
    is_cleared: bool,
    why: TryDequeueError,
)
    requires { party.old.table ≡ queue.now.table }
    ensures moves { Moves value_of [] [] party.old party.new }
    ensures clears { is_cleared ≡ false → ClearsBell party.old party.new }
    ensures sleeps { is_cleared ≡ true
        → (party.new ≡ party.old) ⊎ ((slept : Bool) × Sleeps slept party.old party.new) }
{
    if !is_cleared {
        queue.clear_bell(party);
    } else if let TryDequeueError::Empty = why {
        queue.sleep(rt, party);
    } else {
        thread::yield_now();
    }
}

/// Starts a thread of a scope that receives. If it cannot be started, it returns `AllocError`.
fn start_receiving<'s, E, R: Wait + Sync>(
    scope: &Scope<'s, E>,
    rt: &'s R,
    alloc: Global,
    queue: &'s MpscQueue<Message>,
    receiver: Party<Message>,
    have_ended: &'s AtomicBool,
) -> Result<PromisedHandle<Inbox, Receives>, AllocError>
    requires { receiver.table ≡ queue.now.table }
    ensures { IfOk result (λ h. h.promise.party.value ≡ receiver) }
{
    let promise = Receives {
        party: Snapshot::of(&receiver),
    };
    let receive_on = move || -> Inbox
        requires { IsSync R.row × (receiver.table ≡ queue.now.table) }
        ensures { IfSome result.received (λ all. Moves value_of [] all.items receiver result.party) }
    { receive(rt, alloc, queue, receiver, have_ended) };
    Ok(scope.spawn_with(promise, receive_on)?)
}

/// Sends each list on a thread of its own, while one thread receives. If no thread can be started to receive, nothing
/// is sent.
fn exchange<R: Threads + Wait + Sync>(
    rt: &R,
    alloc: Global,
    queue: &MpscQueue<Message>,
    receiver: Party<Message>,
    sender: Party<Message>,
    lists: &[Vec<u64>],
) -> Result<(Inbox, Party<Message>), AllocError>
    requires receiver { receiver.table ≡ queue.now.table }
    requires sender { (sender.table ≡ queue.now.table) × IsShare sender.share }
    ensures received { IfOk result (λ both.
        IfSome both.0.received (λ all. Moves value_of [] all.items receiver both.0.party)) }
    ensures sent { IfOk result (λ both. Sends value_of (contents lists.now) sender both.1) }
{
    let flag = AtomicBool::new(false);
    let have_ended = &flag;
    thread::scope(
        thread::scope_env(),
        rt,
        move |scope| -> Result<(Inbox, Party<Message>), AllocError>
            requires { IsSync R.row × (receiver.table ≡ queue.now.table) × (sender.table ≡ queue.now.table)
                × IsShare sender.share }
            ensures received { IfOk result (λ both.
                IfSome both.0.received (λ all. Moves value_of [] all.items receiver both.0.party)) }
            ensures sent { IfOk result (λ both. Sends value_of (contents lists.entry.now) sender both.1) }
        {
            let inbox = start_receiving(scope, rt, alloc, queue, receiver, have_ended)?;
            let Sent { mut party, result } = send_each(rt, alloc, queue, sender, lists);
            have_ended.store(true, Ordering::SeqCst);
            queue.ring(&mut party);
            let inbox = inbox.join(rt);
            result?;
            Ok((inbox, party))
        },
    )
}

/// The messages that were delivered.
#[derive(Drop)]
pub struct Delivered {
    /// The messages, in the order in which they were received.
    pub messages: Vec<u64>,
}

/// Delivers messages and returns them in the order in which they were received. Each list is sent by a thread of its
/// own, and one thread receives until all senders have ended and no message is left. The messages of each list come in
/// order, and none is lost or duplicated.
///
/// The queue has `rooms` rooms, which bound the number of messages that wait to be received. The room of a message that
/// was received is used again, so the number of messages has no bound. Requires that `rooms` is at least 1 and at most
/// `MAX_ROOMS`. Allocates the queue, a node for each message, and the vector of the messages.
///
/// # Errors
/// If memory is refused, or no thread can be started to receive, it returns `AllocError`, and all messages are dropped.
///
/// # Complexity
/// O(`rooms` + n + l), for n messages in l lists, in all threads together, besides the tries of threads that wait.
///
/// # Waits
/// For the threads that it starts. A sender that finds the queue full tries again until a room is free. The receiver
/// sleeps while the queue is empty. If no thread can be started for a list, it is sent after others.
///
/// Since any number of messages pass through as little as one room, senders and receiver wait for each other. So no
/// contract states that the call returns, which is tested. If there is a room for each message, nobody has to wait for
/// another thread: each sender's party gets its rooms by `MpscQueue::split` and calls `enqueue`, which never waits.
pub fn deliver<R: Threads + Wait + Sync>(
    rt: &R,
    alloc: Global,
    lists: &[Vec<u64>],
    rooms: usize,
) -> Result<Delivered, AllocError>
    requires room { 1 ≤ rooms }
    requires few { rooms ≤ MAX_ROOMS }
    ensures delivers { IfOk result (λ all. Delivers (contents lists.now) all.messages.items) }
{
    let (queue, mut receiver) = MpscQueue::new(alloc, rooms)?;
    queue.give_back(&mut receiver, rooms);
    let sender = queue.split(&mut receiver, 0);
    let both = exchange(rt, alloc, &queue, receiver, sender, lists)?;
    let (inbox, sent) = both;
    let Inbox {
        mut party,
        received,
    } = inbox;
    let Some(mut messages) = received else {
        return Err(AllocError);
    };
    queue.absorb(&mut party, sent);
    note_all(&mut messages, queue.close(party).elements)?;
    Ok(Delivered { messages })
}
