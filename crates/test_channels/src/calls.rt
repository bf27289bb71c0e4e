//! The calls of a channel on one thread, and what they reply.

use crate::compared::{at_most, made, same};
use cordyceps_base::mpsc_queue::Links;
use cordyceps_base::node::Node;
use cordyceps_base::shared::MAX_ROOMS;
use cordyceps_channel::{
    Batch, Disconnected, Receiver, RecvTimeoutError, Sender, TryRecvError, TrySendError, channel,
};
use std::alloc::Global;
use std::mem;
use std::process::Abort;
use std::sync::Wait;
use std::time::{Clock, Duration, Instant};
use test_support::counted::{Counted, Drops, counted_node};

/// What a channel takes and returns.
pub type Handle = Node<Counted, Links<Counted>>;

/// A call of the receiver, or of the sender with a place. Those that send have the number of the element.
#[derive(Clone, Copy)]
pub enum Call {
    TrySend(usize, u64),
    Send(usize, u64),
    /// Sends elements until no room is free, and counts them.
    Fill(usize),
    /// Clones the first sender into the place of the second one.
    Clone(usize, usize),
    EndSender(usize),
    ForgetSender(usize),
    TryRecv,
    Recv,
    /// Receives up to so many elements by a batch.
    TryRecvBatch(usize),
    RecvBatch(usize),
    /// Receives an element within so many milliseconds.
    RecvDeadline(u64),
    /// Receives elements until none is there, and counts them.
    Drain,
    EndReceiver,
    /// Counts the elements that were dropped.
    Drops,
}

/// What a call replies, with the number of an element or a count.
#[derive(Clone, Copy, PartialEq, Eq, Debug, Drop)]
pub enum Reply {
    Done,
    Full(u64),
    /// The receiver has ended, and the element came back.
    Back(u64),
    Received(u64),
    /// The first and the last of a batch.
    Batch(u64, u64),
    Empty,
    /// The deadline passed.
    Timeout,
    Disconnected,
    Count(u64),
    NotThere,
}

/// Returns an element of this number.
pub fn element(rt: &impl Abort, alloc: Global, number: u64, drops: &Drops) -> Handle {
    made(rt, counted_node(alloc, number, number, drops))
}

/// Returns what a call that tries to send replied.
fn tried(sent: Result<(), TrySendError<Handle>>) -> Reply {
    match sent {
        Ok(()) => Reply::Done,
        Err(TrySendError::Full(node)) => Reply::Full(node.id()),
        Err(TrySendError::Disconnected(node)) => Reply::Back(node.id()),
    }
}

/// Returns the numbers of the first and the last element of a batch, which is not empty.
fn ends_of(batch: Batch<Counted>) -> Reply {
    let mut ends = None;
    for node in batch {
        ends = match ends {
            None => Some((node.id(), node.id())),
            Some((first, _)) => Some((first, node.id())),
        };
    }
    match ends {
        None => Reply::NotThere,
        Some((first, last)) => Reply::Batch(first, last),
    }
}

/// The two sides of a channel. There are four places for senders.
#[derive(Drop)]
pub struct Sides {
    senders: Vec<Option<Sender<Counted>>>,
    receiver: Option<Receiver<Counted>>,
    drops: Drops,
}

impl Sides {
    /// Creates a channel, whose first sender has the place 0.
    pub fn new(rt: &impl Abort, alloc: Global, rooms: usize) -> Sides {
        at_most(rt, rooms, MAX_ROOMS);
        let (first, receiver) = made(rt, channel(alloc, rooms));
        let mut senders = Vec::new(alloc);
        made(rt, senders.push(Some(first)));
        for _ in 1..4u64 {
            made(rt, senders.push(None));
        }
        Sides {
            senders,
            receiver: Some(receiver),
            drops: made(rt, Drops::new(alloc)),
        }
    }

    /// Makes a call of a sender.
    fn by_sender<R: Abort + Wait>(
        &mut self,
        rt: &R,
        alloc: Global,
        at: usize,
        call: Call,
    ) -> Reply {
        let Some(place) = self.senders.get_mut(at) else {
            return Reply::NotThere;
        };
        let Some(mut sender) = place.take() else {
            return Reply::NotThere;
        };
        let mut other = None;
        let mut reply = Reply::Done;
        match call {
            Call::TrySend(_, number) => reply = tried(sender.try_send(element(
                rt,
                alloc,
                number,
                &self.drops,
            ))),
            Call::Send(_, number) => {
                if let Err(Disconnected { value }) = sender.send(
                    rt,
                    element(rt, alloc, number, &self.drops),
                ) {
                    reply = Reply::Back(value.id());
                }
            }
            Call::Clone(_, to) => other = Some((to, made(rt, sender.try_clone(rt)))),
            Call::ForgetSender(_) => {
                mem::forget(sender);
                return reply;
            }
            _ => return reply,
        }
        *place = Some(sender);
        if let Some((to, clone)) = other {
            if let Some(place) = self.senders.get_mut(to) {
                *place = Some(clone);
            }
        }
        reply
    }

    /// Makes a call of the receiver that receives several elements, or one within a time.
    fn by_batches<R: Wait + Clock>(&mut self, rt: &R, call: Call) -> Reply {
        let Some(receiver) = &mut self.receiver else {
            return Reply::NotThere;
        };
        match call {
            Call::TryRecvBatch(max) => match receiver.try_recv_batch(max.max(1)) {
                Ok(batch) => ends_of(batch),
                Err(TryRecvError::Empty) => Reply::Empty,
                Err(TryRecvError::Disconnected) => Reply::Disconnected,
            },
            Call::RecvBatch(max) => match receiver.recv_batch(rt, max.max(1)) {
                Ok(batch) => ends_of(batch),
                Err(Disconnected { value: () }) => Reply::Disconnected,
            },
            Call::RecvDeadline(milliseconds) => {
                let Ok(now) = Instant::now(rt) else {
                    return Reply::NotThere;
                };
                let Some(deadline) = now.checked_add(Duration::from_millis(milliseconds)) else {
                    return Reply::NotThere;
                };
                match receiver.recv_deadline(rt, deadline) {
                    Ok(node) => Reply::Received(node.id()),
                    Err(RecvTimeoutError::Timeout) => Reply::Timeout,
                    Err(RecvTimeoutError::Disconnected) => Reply::Disconnected,
                }
            }
            _ => Reply::NotThere,
        }
    }

    /// Makes a call of the receiver.
    fn by_receiver<R: Wait>(&mut self, rt: &R, call: Call) -> Reply {
        let Some(receiver) = &mut self.receiver else {
            return Reply::NotThere;
        };
        if let Call::Recv = call {
            return match receiver.recv(rt) {
                Ok(node) => Reply::Received(node.id()),
                Err(Disconnected { value: () }) => Reply::Disconnected,
            };
        }
        match receiver.try_recv() {
            Ok(node) => Reply::Received(node.id()),
            Err(TryRecvError::Empty) => Reply::Empty,
            Err(TryRecvError::Disconnected) => Reply::Disconnected,
        }
    }

    /// Sends elements until no room is free, and returns how many.
    fn fill<R: Abort + Wait>(&mut self, rt: &R, alloc: Global, at: usize) -> u64 {
        for count in 0..u64::MAX {
            if self.by_sender(rt, alloc, at, Call::TrySend(at, count)) != Reply::Done {
                return count;
            }
        }
        u64::MAX
    }

    /// Receives elements until none is there, and returns how many.
    fn drain<R: Wait>(&mut self, rt: &R) -> u64 {
        for count in 0..u64::MAX {
            if !matches!(self.by_receiver(rt, Call::TryRecv), Reply::Received(_)) {
                return count;
            }
        }
        u64::MAX
    }

    /// Makes a call, and returns what it replies.
    fn call<R: Abort + Wait + Clock>(&mut self, rt: &R, alloc: Global, call: Call) -> Reply {
        match call {
            Call::TrySend(at, _)
            | Call::Send(at, _)
            | Call::Clone(at, _)
            | Call::EndSender(at)
            | Call::ForgetSender(at) => self.by_sender(rt, alloc, at, call),
            Call::Fill(at) => Reply::Count(self.fill(rt, alloc, at)),
            Call::TryRecv | Call::Recv => self.by_receiver(rt, call),
            Call::TryRecvBatch(_) | Call::RecvBatch(_) | Call::RecvDeadline(_) => {
                self.by_batches(rt, call)
            }
            Call::Drain => Reply::Count(self.drain(rt)),
            Call::EndReceiver => {
                self.receiver = None;
                Reply::Done
            }
            Call::Drops => Reply::Count(self.drops.count()),
        }
    }

    /// Makes the calls of a table, and asserts what each replies.
    pub fn replies<R: Abort + Wait + Clock>(
        &mut self,
        rt: &R,
        alloc: Global,
        lines: &[(Call, Reply)],
    ) {
        for (call, wanted) in lines {
            same(rt, self.call(rt, alloc, *call), *wanted);
        }
    }
}

/// Makes the calls of each table at a new channel of so many rooms.
pub fn each_replies<R: Abort + Wait + Clock>(
    rt: &R,
    alloc: Global,
    tables: &[(usize, &[(Call, Reply)])],
) {
    for (rooms, lines) in tables {
        Sides::new(rt, alloc, *rooms).replies(rt, alloc, lines);
    }
}
