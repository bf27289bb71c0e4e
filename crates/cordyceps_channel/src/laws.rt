//! Calls of a channel in a row, whose contracts are laws.
ghost use Rattle.std.specs.Prelude.{◌≡◌, ◌≤◌, [], ◌∷◌, ◌++◌, length, map, All, IfOk};
ghost use Rattle.cordyceps_shared.specs.Sending.{Delivers, how_many};
ghost use Rattle.cordyceps_channel.specs.Channels.{IsOver, Receives, ReceivesAs, AreAmong, TellsReceiver, sent, received};
ghost use Rattle.cordyceps_channel.specs.Channels.{AllAmong, AreApart};
ghost use Rattle.cordyceps_channel.specs.Selects.{At, AreOver, Selects};

use crate::closed::Closed;
use crate::errors::Disconnected;
use crate::receiver::Receiver;
use crate::select::{Select, Selected};
use crate::sender::Sender;
use crate::wake::Wake;
use cordyceps_base::linked::Linked;
use cordyceps_base::mpsc_queue::Links;
use cordyceps_queue::mpsc_queue::{Batch, Receipt};
use std::alloc::{AllocError, Global};
use std::sync::Wait;

/// Receives until all senders have ended, and returns the elements in the order in which they came. By then each
/// element that was ever sent has been received.
///
/// # Errors
/// If memory for the vector is refused, it returns `AllocError`, and what it had received is dropped.
///
/// # Complexity
/// O(n), for n elements, besides the tries of a thread that waits.
///
/// # Waits
/// Until all senders have ended.
pub fn receive_all<T: Linked<Links<T>>, W: Wake + Drop, R: Wait>(
    rt: &R,
    alloc: Global,
    receiver: &mut Receiver<T, W>,
) -> Result<Vec<T::Handle>, AllocError>
    ensures { IfOk result (λ all. Receives all.items receiver.old receiver.new × IsOver receiver.new) }
{
    let mut all = Vec::new(alloc);
    for _ in rt.forever() {
        match receiver.recv(rt) {
            Ok(element) => all.push(element)?,
            Err(Disconnected { value: () }) => return Ok(all),
        }
    }
    unreachable!()
}

/// Ends a sender, and receives until all others have ended too. What this sender sent is then among what the receiver
/// received, in the order in which it was sent.
///
/// # Errors
/// As `receive_all`.
///
/// # Complexity
/// As `receive_all`.
///
/// # Waits
/// Until all senders have ended.
pub fn close_and_receive<T: Linked<Links<T>>, W: Wake + Drop, R: Wait>(
    rt: &R,
    alloc: Global,
    sender: Sender<T, W>,
    receiver: &mut Receiver<T, W>,
) -> Result<Vec<T::Handle>, AllocError>
    requires { sender.table ≡ receiver.old.table }
    ensures all { IfOk result (λ all. Receives all.items receiver.old receiver.new × IsOver receiver.new) }
    ensures order { IfOk result (λ _. AreAmong (sent sender) (received receiver.new)) }
{
    receiver.learn(sender.close());
    receive_all(rt, alloc, receiver)
}

/// Learns what senders saw that have ended, and receives until all others have ended too. What they sent is then among
/// what the receiver received: the elements of each in the order in which it sent them, and no element counts for two
/// senders. If as many elements were received as they sent, nobody else has sent any. Requires that no two of the senders
/// act under the same name, as those of `channel_with_senders` do not.
///
/// Where another call has received all before, this one receives none, and says the same.
///
/// # Errors
/// As `receive_all`.
///
/// # Complexity
/// As `receive_all`, and O(n) for n senders.
///
/// # Waits
/// Until all senders have ended.
pub fn receive_all_of<T: Linked<Links<T>>, W: Wake + Drop, R: Wait>(
    rt: &R,
    alloc: Global,
    closed: Vec<Closed<T>>,
    receiver: &mut Receiver<T, W>,
) -> Result<Vec<T::Handle>, AllocError>
    requires table { All (λ u. u.table ≡ receiver.old.table) closed.items }
    requires apart { AreApart closed.items }
    ensures all { IfOk result (λ all. Receives all.items receiver.old receiver.new × IsOver receiver.new) }
    ensures order { IfOk result (λ _. AllAmong (map (λ u. sent u) closed.items) (received receiver.new)) }
    ensures exact { IfOk result (λ _. length (received receiver.new) ≡ how_many (map (λ u. sent u) closed.items)
        → Delivers (map (λ u. sent u) closed.items) (received receiver.new)) }
{
    let mut closed = closed;
    while let Some(sender) = closed.pop() {
        receiver.learn(sender.into_receipt());
    }
    receive_all(rt, alloc, receiver)
}

/// Receives the oldest element, where a receipt tells of more elements than the receiver has received. So whoever was
/// told that an element was sent gets an element, and never `Disconnected`.
///
/// # Complexity
/// That of `Receiver::recv`.
///
/// # Waits
/// For an element whose sender is still in `send` or `try_send`, if one is in front of all that the receipt tells of.
pub fn recv_told<T: Linked<Links<T>>, W: Wake + Drop, R: Wait>(
    rt: &R,
    receiver: &mut Receiver<T, W>,
    receipt: Receipt<T>,
) -> T::Handle
    requires table { receipt.table ≡ receiver.old.table }
    requires more { TellsReceiver receipt.told receiver.old }
    ensures { Receives (result ∷ []) receiver.old receiver.new }
{
    receiver.learn(receipt);
    match receiver.recv(rt) {
        Ok(element) => element,
        Err(Disconnected { value: () }) => unreachable!(),
    }
}

/// Appends the elements of a batch.
fn push_batch<T: Linked<Links<T>>>(
    all: &mut Vec<T::Handle>,
    batch: Batch<T>,
) -> Result<(), AllocError>
    ensures { IfOk result (λ _. map T.element all.new.items ≡ map T.element all.old.items ++ batch) }
{
    for element in batch {
        all.push(element)?;
    }
    Ok(())
}

/// Receives up to `max` elements at a time until all senders have ended, and returns the elements in the order in which
/// they came. By then each element that was ever sent has been received. Requires that `max` is at least 1.
///
/// # Errors
/// As `receive_all`.
///
/// # Complexity
/// As `receive_all`.
///
/// # Waits
/// Until all senders have ended.
pub fn receive_all_in_batches<T: Linked<Links<T>>, W: Wake + Drop, R: Wait>(
    rt: &R,
    alloc: Global,
    receiver: &mut Receiver<T, W>,
    max: usize,
) -> Result<Vec<T::Handle>, AllocError>
    requires { 1 ≤ max }
    ensures { IfOk result (λ all. ReceivesAs T.element all.items receiver.old receiver.new × IsOver receiver.new) }
{
    let mut all = Vec::new(alloc);
    for _ in rt.forever() {
        match receiver.recv_batch(rt, max) {
            Ok(batch) => push_batch(&mut all, batch)?,
            Err(Disconnected { value: () }) => return Ok(all),
        }
    }
    unreachable!()
}

/// Receives from the channels of a select until all senders have ended, and returns the elements in the order in which
/// they came. By then each element that was ever sent has been received.
///
/// # Errors
/// As `receive_all`.
///
/// # Complexity
/// O(n), for n elements, besides the tries of a thread that waits.
///
/// # Waits
/// Until all senders of all channels have ended.
pub fn select_all<T: Linked<Links<T>>, W: Wake + Drop, R: Wait>(
    rt: &R,
    alloc: Global,
    select: &mut Select<T, W>,
) -> Result<Vec<Selected<T::Handle>>, AllocError>
    ensures { IfOk result (λ all. Selects all.items select.old select.new × AreOver select.new) }
{
    let mut all = Vec::new(alloc);
    for _ in rt.forever() {
        match select.recv(rt) {
            Ok(found) => all.push(found)?,
            Err(Disconnected { value: () }) => return Ok(all),
        }
    }
    unreachable!()
}

/// Ends a sender of the channel with this number of a select, and receives from all channels until all senders have
/// ended. What this sender sent is then among what the channel's receiver received, in the order in which it was sent.
/// Requires that the select has this channel, and that the sender is of it.
///
/// # Errors
/// As `receive_all`.
///
/// # Complexity
/// As `select_all`.
///
/// # Waits
/// Until all senders of all channels have ended.
pub fn close_and_select<T: Linked<Links<T>>, W: Wake + Drop, R: Wait>(
    rt: &R,
    alloc: Global,
    sender: Sender<T, W>,
    index: usize,
    select: &mut Select<T, W>,
) -> Result<Vec<Selected<T::Handle>>, AllocError>
    requires { At index (λ w. sender.table ≡ w.table) select.old }
    ensures all { IfOk result (λ all. Selects all.items select.old select.new × AreOver select.new) }
    ensures order { IfOk result (λ _. At index (λ w. AreAmong (sent sender) (received w)) select.new) }
{
    select.learn(index, sender.close());
    select_all(rt, alloc, select)
}
