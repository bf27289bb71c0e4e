//! A select over several channels: tables of calls on one thread, and threads that send to one through several channels.

use crate::calls::{Handle, element};
use crate::compared::{at_most, made, same};
use cordyceps_base::shared::MAX_ROOMS;
use cordyceps_channel::{
    Disconnected, RecvTimeoutError, Select, Selected, Sender, TryRecvError, Wake,
    channel_with_waker,
};
use crossbeam_utils::sync::{Parker, Unparker};
use std::alloc::Global;
use std::process::Abort;
use std::sync::atomic::{AtomicU64, Ordering};
use std::sync::{Arc, Wait};
use std::thread;
use std::thread::Threads;
use std::time::{Clock, Duration, Instant};
use test_support::counted::{Counted, Drops};

/// A waker that counts how often it was called.
#[derive(Drop)]
struct Count {
    wakes: Arc<AtomicU64, Global>,
}

impl Wake for Count {
    fn wake(&self) {
        self.wakes.fetch_add(1, Ordering::SeqCst);
    }
}

/// A call of the select, or of the sender of a channel. Those that send have the number of the element.
#[derive(Clone, Copy)]
enum Call {
    /// Creates a channel with so many rooms.
    Channel(usize),
    Len,
    TrySend(usize, u64),
    EndSender(usize),
    TryRecv,
    Recv,
    /// Receives an element within so many milliseconds.
    RecvDeadline(u64),
    Arm,
    Disarm,
    /// Counts the calls of the waker.
    Wakes,
    EndSelect,
    /// Counts the elements that were dropped.
    Drops,
}

/// What a call replies, with the number of a channel and that of an element, or with a count.
#[derive(Clone, Copy, PartialEq, Eq, Debug, Drop)]
enum Reply {
    Done,
    Back,
    Received(usize, u64),
    Empty,
    Timeout,
    Disconnected,
    Truth(bool),
    Count(u64),
    NotThere,
}

/// A select, the first sender of each of its channels, and how often its waker was called.
#[derive(Drop)]
struct Hub {
    select: Option<Select<Counted, Count>>,
    senders: Vec<Option<Sender<Counted, Count>>>,
    wakes: Arc<AtomicU64, Global>,
    drops: Drops,
}

/// Returns what a select received.
fn found(selected: Selected<Handle>) -> Reply {
    Reply::Received(selected.index, selected.value.id())
}

impl Hub {
    /// Creates a select without channels.
    fn new(rt: &impl Abort, alloc: Global) -> Hub {
        let wakes = made(rt, Arc::new(alloc, AtomicU64::new(0)));
        let count = Count {
            wakes: made(rt, Arc::try_clone(&wakes)),
        };
        Hub {
            select: Some(made(rt, Select::with_waker(alloc, count))),
            senders: Vec::new(alloc),
            wakes,
            drops: made(rt, Drops::new(alloc)),
        }
    }

    /// Makes a call of a sender.
    fn by_sender(&mut self, rt: &impl Abort, alloc: Global, at: usize, call: Call) -> Reply {
        let Some(place) = self.senders.get_mut(at) else {
            return Reply::NotThere;
        };
        let Some(mut sender) = place.take() else {
            return Reply::NotThere;
        };
        let Call::TrySend(_, number) = call else {
            return Reply::Done;
        };
        let sent = sender.try_send(element(rt, alloc, number, &self.drops));
        *place = Some(sender);
        match sent {
            Ok(()) => Reply::Done,
            Err(_) => Reply::Back,
        }
    }

    /// Makes a call of the select that receives.
    fn receives<R: Wait + Clock>(&mut self, rt: &R, call: Call) -> Reply {
        let Some(select) = &mut self.select else {
            return Reply::NotThere;
        };
        match call {
            Call::TryRecv => match select.try_recv() {
                Ok(selected) => found(selected),
                Err(TryRecvError::Empty) => Reply::Empty,
                Err(TryRecvError::Disconnected) => Reply::Disconnected,
            },
            Call::Recv => match select.recv(rt) {
                Ok(selected) => found(selected),
                Err(Disconnected { value: () }) => Reply::Disconnected,
            },
            Call::RecvDeadline(milliseconds) => {
                let Ok(now) = Instant::now(rt) else {
                    return Reply::NotThere;
                };
                let Some(deadline) = now.checked_add(Duration::from_millis(milliseconds)) else {
                    return Reply::NotThere;
                };
                match select.recv_deadline(rt, deadline) {
                    Ok(selected) => found(selected),
                    Err(RecvTimeoutError::Timeout) => Reply::Timeout,
                    Err(RecvTimeoutError::Disconnected) => Reply::Disconnected,
                }
            }
            _ => Reply::NotThere,
        }
    }

    /// Makes another call of the select.
    fn by_select(&mut self, rt: &impl Abort, call: Call) -> Reply {
        let Some(select) = &mut self.select else {
            return Reply::NotThere;
        };
        match call {
            Call::Channel(rooms) => {
                at_most(rt, rooms, MAX_ROOMS);
                let sender = made(rt, select.channel(rooms));
                made(rt, self.senders.push(Some(sender)));
                Reply::Done
            }
            Call::Len => Reply::Count(select.len() as u64),
            Call::Arm => {
                select.arm();
                Reply::Done
            }
            Call::Disarm => Reply::Truth(select.disarm()),
            _ => Reply::NotThere,
        }
    }

    /// Makes a call, and returns what it replies.
    fn call<R: Abort + Wait + Clock>(&mut self, rt: &R, alloc: Global, call: Call) -> Reply {
        match call {
            Call::TrySend(at, _) | Call::EndSender(at) => self.by_sender(rt, alloc, at, call),
            Call::TryRecv | Call::Recv | Call::RecvDeadline(_) => self.receives(rt, call),
            Call::Channel(_) | Call::Len | Call::Arm | Call::Disarm => self.by_select(rt, call),
            Call::EndSelect => {
                self.select = None;
                Reply::Done
            }
            Call::Wakes => Reply::Count(self.wakes.load(Ordering::SeqCst)),
            Call::Drops => Reply::Count(self.drops.count()),
        }
    }
}

/// A select without channels, and then with one without rooms.
const NO_CHANNEL: [(Call, Reply); 9] = [
    (Call::Len, Reply::Count(0)),
    (Call::TryRecv, Reply::Disconnected),
    (Call::Recv, Reply::Disconnected),
    (Call::Channel(0), Reply::Done),
    (Call::Len, Reply::Count(1)),
    (Call::TrySend(0, 1), Reply::Back),
    (Call::TryRecv, Reply::Empty),
    (Call::EndSender(0), Reply::Done),
    (Call::RecvDeadline(1), Reply::Disconnected),
];

/// Channels have turns, while each of them has elements.
const TURNS: [(Call, Reply); 24] = [
    (Call::Channel(4), Reply::Done),
    (Call::Channel(4), Reply::Done),
    (Call::Channel(4), Reply::Done),
    (Call::TrySend(0, 1), Reply::Done),
    (Call::TrySend(0, 2), Reply::Done),
    (Call::TrySend(0, 3), Reply::Done),
    (Call::TrySend(2, 4), Reply::Done),
    (Call::TrySend(2, 5), Reply::Done),
    (Call::TryRecv, Reply::Received(0, 1)),
    (Call::TryRecv, Reply::Received(2, 4)),
    (Call::TrySend(1, 6), Reply::Done),
    (Call::Recv, Reply::Received(0, 2)),
    (Call::RecvDeadline(1000), Reply::Received(1, 6)),
    (Call::TryRecv, Reply::Received(2, 5)),
    (Call::TryRecv, Reply::Received(0, 3)),
    (Call::TryRecv, Reply::Empty),
    (Call::RecvDeadline(1), Reply::Timeout),
    (Call::EndSender(0), Reply::Done),
    (Call::TrySend(1, 7), Reply::Done),
    (Call::EndSender(1), Reply::Done),
    (Call::TryRecv, Reply::Received(1, 7)),
    (Call::TryRecv, Reply::Empty),
    (Call::EndSender(2), Reply::Done),
    (Call::Recv, Reply::Disconnected),
];

/// An element of either channel is found by the next try, wherever the search begins, and so is the end of both.
const EITHER: [(Call, Reply); 17] = [
    (Call::Channel(4), Reply::Done),
    (Call::Channel(4), Reply::Done),
    (Call::TrySend(1, 1), Reply::Done),
    (Call::TryRecv, Reply::Received(1, 1)),
    (Call::TrySend(1, 2), Reply::Done),
    (Call::TryRecv, Reply::Received(1, 2)),
    (Call::TrySend(0, 3), Reply::Done),
    (Call::TryRecv, Reply::Received(0, 3)),
    (Call::TrySend(0, 4), Reply::Done),
    (Call::TryRecv, Reply::Received(0, 4)),
    (Call::TrySend(1, 5), Reply::Done),
    (Call::EndSender(0), Reply::Done),
    (Call::RecvDeadline(0), Reply::Received(1, 5)),
    (Call::RecvDeadline(0), Reply::Timeout),
    (Call::EndSender(1), Reply::Done),
    (Call::TryRecv, Reply::Disconnected),
    (Call::RecvDeadline(0), Reply::Disconnected),
];

/// The waker is called once for each time that the select is armed, by a sender that sends or ends.
const WAKES: [(Call, Reply); 21] = [
    (Call::Channel(4), Reply::Done),
    (Call::Channel(4), Reply::Done),
    (Call::TrySend(0, 1), Reply::Done),
    (Call::Wakes, Reply::Count(0)),
    (Call::Disarm, Reply::Truth(false)),
    (Call::Arm, Reply::Done),
    (Call::Arm, Reply::Done),
    (Call::TryRecv, Reply::Received(0, 1)),
    (Call::TrySend(1, 2), Reply::Done),
    (Call::TrySend(0, 3), Reply::Done),
    (Call::Wakes, Reply::Count(1)),
    (Call::Disarm, Reply::Truth(false)),
    (Call::Arm, Reply::Done),
    (Call::Disarm, Reply::Truth(true)),
    (Call::TrySend(0, 4), Reply::Done),
    (Call::Wakes, Reply::Count(1)),
    (Call::Arm, Reply::Done),
    (Call::EndSender(1), Reply::Done),
    (Call::Wakes, Reply::Count(2)),
    (Call::EndSelect, Reply::Done),
    (Call::TrySend(0, 5), Reply::Back),
];

/// What a select has not received is dropped with it and the senders.
const DROPS: [(Call, Reply); 8] = [
    (Call::Channel(2), Reply::Done),
    (Call::Channel(2), Reply::Done),
    (Call::TrySend(0, 1), Reply::Done),
    (Call::TrySend(1, 2), Reply::Done),
    (Call::EndSelect, Reply::Done),
    (Call::EndSender(0), Reply::Done),
    (Call::EndSender(1), Reply::Done),
    (Call::Drops, Reply::Count(2)),
];

#[test]
fn a_select_replies(rt: HostRuntime) {
    for lines in [
        &NO_CHANNEL[..],
        &TURNS[..],
        &EITHER[..],
        &WAKES[..],
        &DROPS[..],
    ] {
        let mut hub = Hub::new(&rt, rt.alloc());
        for (call, wanted) in lines {
            same(&rt, hub.call(&rt, rt.alloc(), *call), *wanted);
        }
    }
}

// A receiver's own waker is called once for each time that the receiver is armed.
#[test]
fn a_receiver_wakes_an_event_loop(rt: HostRuntime) {
    let wakes = made(&rt, Arc::new(rt.alloc(), AtomicU64::new(0)));
    let count = Count {
        wakes: made(&rt, Arc::try_clone(&wakes)),
    };
    at_most(&rt, 4, MAX_ROOMS);
    let drops = made(&rt, Drops::new(rt.alloc()));
    let (mut sender, mut receiver) = made(
        &rt,
        channel_with_waker::<Counted, Count>(rt.alloc(), 4, count),
    );
    same(&rt, receiver.disarm(), false);
    receiver.arm();
    for number in 1..4u64 {
        let node = element(&rt, rt.alloc(), number, &drops);
        same(&rt, sender.try_send(node).is_ok(), true);
        same(&rt, wakes.load(Ordering::SeqCst), 1);
    }
    let mut came = (0, 0);
    if let Ok(node) = receiver.try_recv() {
        came.0 = node.id();
    }
    receiver.arm();
    same(&rt, receiver.disarm(), true);
    drop(sender);
    same(&rt, wakes.load(Ordering::SeqCst), 1);
    if let Ok(node) = receiver.recv(&rt) {
        came.1 = node.id();
    }
    same(&rt, (came, drops.count()), ((1, 2), 2));
    drop(receiver);
    same(&rt, drops.count(), 3);
}

/// How many elements each thread sends through its channel.
const EACH: u64 = 2000;

/// How far the first numbers of threads are apart.
const FAR: u64 = 1_000_000;

/// Sends elements with the numbers from `first` on.
fn send_all<R: Abort + Wait>(
    rt: &R,
    alloc: Global,
    mut sender: Sender<Counted, Unparker>,
    first: u64,
    drops: &Drops,
) {
    for index in 0..EACH {
        let node = element(rt, alloc, first.wrapping_add(index), drops);
        same(rt, sender.send(rt, node).is_ok(), true);
    }
}

/// Receives an element, or returns `None` if all senders have ended. Sleeps at the parker that the select's waker
/// unparks.
fn parked<R: Wait>(
    rt: &R,
    select: &mut Select<Counted, Unparker>,
    parker: &Parker,
) -> Option<Selected<Handle>> {
    for _ in 0..u64::MAX {
        select.arm();
        match select.try_recv() {
            Ok(selected) => return Some(selected),
            Err(TryRecvError::Disconnected) => return None,
            Err(TryRecvError::Empty) => parker.park(rt),
        }
    }
    None
}

/// Receives until all senders have ended, by `recv` or at a parker, and returns how many elements came, and whether
/// those of each channel came in its order.
fn receive_all<R: Abort + Wait>(
    rt: &R,
    alloc: Global,
    select: &mut Select<Counted, Unparker>,
    parker: Option<&Parker>,
) -> (u64, bool) {
    let mut next = Vec::new(alloc);
    for channel in 0..select.len() as u64 {
        made(rt, next.push(channel.wrapping_mul(FAR)));
    }
    let mut in_order = true;
    for count in 0..u64::MAX {
        let selected = match parker {
            Some(parker) => parked(rt, select, parker),
            None => select.recv(rt).ok(),
        };
        let Some(Selected { index, value }) = selected else {
            return (count, in_order);
        };
        match next.get_mut(index) {
            Some(wanted) => {
                in_order = in_order && *wanted == value.id();
                *wanted = value.id().wrapping_add(1);
            }
            None => in_order = false,
        }
    }
    (u64::MAX, in_order)
}

/// Starts a thread for each of some channels, and asserts that all elements come, those of each channel in its order.
fn exchange<R: Abort + Threads + Wait + Sync>(
    rt: &R,
    alloc: Global,
    channels: u64,
    rooms: usize,
    is_parked: bool,
) {
    let parker = made(rt, Parker::new(alloc));
    let unparker: Unparker = made(rt, parker.unparker().clone());
    let mut select = made(rt, Select::with_waker(alloc, unparker));
    let drops = made(rt, Drops::new(alloc));
    let told = &drops;
    let came = thread::scope(thread::scope_env(), rt, |scope| {
        for channel in 0..channels {
            at_most(rt, rooms, MAX_ROOMS);
            let sender = made(rt, select.channel(rooms));
            let first = channel.wrapping_mul(FAR);
            made(
                rt,
                scope.spawn(move || send_all(rt, alloc, sender, first, told)),
            );
        }
        let at = if is_parked { Some(&parker) } else { None };
        receive_all(rt, alloc, &mut select, at)
    });
    let all = channels.wrapping_mul(EACH);
    same(rt, (came, drops.count()), ((all, true), all));
}

#[test]
fn all_that_threads_send_through_channels_is_selected(rt: HostRuntime) {
    for is_parked in [false, true] {
        for channels in [1, 3, 8] {
            for rooms in [1, 256] {
                exchange(&rt, rt.alloc(), channels, rooms, is_parked);
            }
        }
    }
}
