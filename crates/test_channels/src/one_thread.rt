//! Tables of calls on one thread.

use crate::calls::{Call, Reply, Sides, each_replies, element};
use crate::compared::{at_most, made, same};
use cordyceps_base::shared::MAX_ROOMS;
use cordyceps_channel::laws::{close_and_receive, recv_told};
use cordyceps_channel::{Receiver, Sender, channel};
use std::alloc::Global;
use std::process::Abort;
use test_support::counted::{Counted, Drops};

/// A call, and what it has to reply.
type Line = (Call, Reply);

/// A channel without rooms takes no element.
const NO_ROOM: [Line; 9] = [
    (Call::TryRecv, Reply::Empty),
    (Call::TrySend(0, 1), Reply::Full(1)),
    (Call::Clone(0, 1), Reply::Done),
    (Call::TrySend(1, 2), Reply::Full(2)),
    (Call::TryRecv, Reply::Empty),
    (Call::EndReceiver, Reply::Done),
    (Call::TrySend(0, 3), Reply::Back(3)),
    (Call::Send(1, 4), Reply::Back(4)),
    (Call::EndSender(0), Reply::Done),
];

/// The senders of a channel without rooms end.
const NO_SENDER: [Line; 4] = [
    (Call::EndSender(0), Reply::Done),
    (Call::TryRecv, Reply::Disconnected),
    (Call::Recv, Reply::Disconnected),
    (Call::TryRecv, Reply::Disconnected),
];

/// Two senders share a room.
const ONE_ROOM: [Line; 18] = [
    (Call::TrySend(0, 1), Reply::Done),
    (Call::TrySend(0, 2), Reply::Full(2)),
    (Call::Clone(0, 1), Reply::Done),
    (Call::TrySend(1, 3), Reply::Full(3)),
    (Call::TryRecv, Reply::Received(1)),
    (Call::TrySend(1, 4), Reply::Done),
    (Call::TrySend(0, 5), Reply::Full(5)),
    (Call::Recv, Reply::Received(4)),
    (Call::Send(0, 6), Reply::Done),
    (Call::EndSender(0), Reply::Done),
    (Call::Recv, Reply::Received(6)),
    (Call::TryRecv, Reply::Empty),
    (Call::Send(1, 7), Reply::Done),
    (Call::EndSender(1), Reply::Done),
    (Call::TryRecv, Reply::Received(7)),
    (Call::Recv, Reply::Disconnected),
    (Call::TryRecv, Reply::Disconnected),
    (Call::EndReceiver, Reply::Done),
];

/// Elements of two senders come out in the order in which they were sent, and the receiver ends while one is held.
const TWO_ROOMS: [Line; 14] = [
    (Call::TryRecv, Reply::Empty),
    (Call::Clone(0, 1), Reply::Done),
    (Call::TrySend(0, 1), Reply::Done),
    (Call::Send(1, 2), Reply::Done),
    (Call::TrySend(1, 3), Reply::Full(3)),
    (Call::Recv, Reply::Received(1)),
    (Call::EndSender(0), Reply::Done),
    (Call::TrySend(1, 4), Reply::Done),
    (Call::TryRecv, Reply::Received(2)),
    (Call::Clone(1, 0), Reply::Done),
    (Call::EndSender(1), Reply::Done),
    (Call::EndReceiver, Reply::Done),
    (Call::TrySend(0, 5), Reply::Back(5)),
    (Call::Send(0, 6), Reply::Back(6)),
];

#[test]
fn each_call_replies(rt: HostRuntime) {
    let tables = [
        (0, &NO_ROOM[..]),
        (0, &NO_SENDER[..]),
        (1, &ONE_ROOM[..]),
        (2, &TWO_ROOMS[..]),
    ];
    each_replies(&rt, rt.alloc(), &tables);
}

/// The receiver ends last.
const RECEIVER_LAST: [Line; 10] = [
    (Call::Clone(0, 1), Reply::Done),
    (Call::TrySend(0, 1), Reply::Done),
    (Call::TrySend(1, 2), Reply::Done),
    (Call::TrySend(0, 3), Reply::Done),
    (Call::TryRecv, Reply::Received(1)),
    (Call::EndSender(1), Reply::Done),
    (Call::EndSender(0), Reply::Done),
    (Call::Drops, Reply::Count(1)),
    (Call::EndReceiver, Reply::Done),
    (Call::Drops, Reply::Count(3)),
];

/// A sender ends last. An element that came back is dropped too.
const SENDER_LAST: [Line; 11] = [
    (Call::Clone(0, 1), Reply::Done),
    (Call::TrySend(0, 1), Reply::Done),
    (Call::TrySend(1, 2), Reply::Done),
    (Call::EndReceiver, Reply::Done),
    (Call::Drops, Reply::Count(0)),
    (Call::TrySend(0, 3), Reply::Back(3)),
    (Call::Drops, Reply::Count(1)),
    (Call::EndSender(0), Reply::Done),
    (Call::Drops, Reply::Count(1)),
    (Call::EndSender(1), Reply::Done),
    (Call::Drops, Reply::Count(3)),
];

/// The receiver is told of the end, and ends last.
const TOLD_LAST: [Line; 8] = [
    (Call::TrySend(0, 1), Reply::Done),
    (Call::EndSender(0), Reply::Done),
    (Call::Drops, Reply::Count(0)),
    (Call::Recv, Reply::Received(1)),
    (Call::Drops, Reply::Count(1)),
    (Call::Recv, Reply::Disconnected),
    (Call::EndReceiver, Reply::Done),
    (Call::Drops, Reply::Count(1)),
];

#[test]
fn each_element_is_dropped_once(rt: HostRuntime) {
    let tables = [
        (4, &RECEIVER_LAST[..]),
        (4, &SENDER_LAST[..]),
        (4, &TOLD_LAST[..]),
    ];
    each_replies(&rt, rt.alloc(), &tables);
}

/// A sender is forgotten, and so its channel has no end.
const FORGOTTEN: [Line; 8] = [
    (Call::Clone(0, 1), Reply::Done),
    (Call::TrySend(1, 1), Reply::Done),
    (Call::ForgetSender(1), Reply::Done),
    (Call::EndSender(0), Reply::Done),
    (Call::TryRecv, Reply::Received(1)),
    (Call::TryRecv, Reply::Empty),
    (Call::TryRecv, Reply::Empty),
    (Call::Drops, Reply::Count(1)),
];

#[test]
fn a_receiver_is_not_told_of_a_sender_that_is_forgotten(rt: HostRuntime) {
    each_replies(&rt, rt.alloc(), &[(2, &FORGOTTEN[..])]);
}

// No request for memory but those of the nodes is made in the loop, which `tools/refusals` counts.
#[test]
fn senders_come_and_go_a_thousand_times(rt: HostRuntime) {
    let mut sides = Sides::new(&rt, rt.alloc(), 2);
    for number in 0..1_000u64 {
        let lines = [
            (Call::Clone(0, 1), Reply::Done),
            (Call::EndSender(0), Reply::Done),
            (Call::TrySend(1, number), Reply::Done),
            (Call::Clone(1, 0), Reply::Done),
            (Call::EndSender(1), Reply::Done),
            (Call::Recv, Reply::Received(number)),
        ];
        sides.replies(&rt, rt.alloc(), &lines);
    }
    let ends = [
        (Call::TryRecv, Reply::Empty),
        (Call::EndSender(0), Reply::Done),
        (Call::Recv, Reply::Disconnected),
    ];
    sides.replies(&rt, rt.alloc(), &ends);
}

// A sender takes up to one in 256 rooms at a time, and at most 64, and leaves all others. The queue has an eighth more.
#[test]
fn a_sender_leaves_most_rooms_to_others(rt: HostRuntime) {
    for (rooms, all, taken) in [
        (2usize, 2u64, 1u64),
        (511, 574, 1),
        (512, 576, 2),
        (32_768, 36_864, 64),
    ] {
        let lines = [
            (Call::TrySend(0, 1), Reply::Done),
            (Call::Clone(0, 1), Reply::Done),
            (Call::Fill(1), Reply::Count(all.wrapping_sub(taken))),
            (Call::Fill(0), Reply::Count(taken.wrapping_sub(1))),
            (Call::Drain, Reply::Count(all)),
            (Call::TrySend(0, 2), Reply::Done),
            (Call::EndSender(0), Reply::Done),
            (Call::Fill(1), Reply::Count(all.wrapping_sub(1))),
        ];
        each_replies(&rt, rt.alloc(), &[(rooms, &lines[..])]);
    }
}

/// Batches have up to as many elements as are asked for, and a deadline ends a wait for an element that does not come.
const BATCHES: [Line; 18] = [
    (Call::TryRecvBatch(2), Reply::Empty),
    (Call::RecvDeadline(0), Reply::Timeout),
    (Call::RecvDeadline(5), Reply::Timeout),
    (Call::TrySend(0, 1), Reply::Done),
    (Call::TrySend(0, 2), Reply::Done),
    (Call::TrySend(0, 3), Reply::Done),
    (Call::TryRecvBatch(2), Reply::Batch(1, 2)),
    (Call::RecvBatch(2), Reply::Batch(3, 3)),
    (Call::TrySend(0, 4), Reply::Done),
    (Call::RecvDeadline(0), Reply::Received(4)),
    (Call::Clone(0, 1), Reply::Done),
    (Call::TrySend(1, 5), Reply::Done),
    (Call::TrySend(0, 6), Reply::Done),
    (Call::EndSender(0), Reply::Done),
    (Call::EndSender(1), Reply::Done),
    (Call::TryRecvBatch(9), Reply::Batch(5, 6)),
    (Call::RecvBatch(1), Reply::Disconnected),
    (Call::RecvDeadline(0), Reply::Disconnected),
];

/// Each element of a batch is dropped with it, and those behind it are with the channel.
const BATCH_DROPS: [Line; 6] = [
    (Call::TrySend(0, 1), Reply::Done),
    (Call::TrySend(0, 2), Reply::Done),
    (Call::TrySend(0, 3), Reply::Done),
    (Call::TryRecvBatch(2), Reply::Batch(1, 2)),
    (Call::Drops, Reply::Count(2)),
    (Call::TryRecvBatch(1), Reply::Batch(3, 3)),
];

#[test]
fn batches_and_deadlines_reply(rt: HostRuntime) {
    each_replies(&rt, rt.alloc(), &[(4, &BATCHES[..]), (3, &BATCH_DROPS[..])]);
}

// What a closed sender had sent comes out in its order, behind an element that was received before.
#[test]
fn a_closed_sender_is_received_in_its_order(rt: HostRuntime) {
    let drops = made(&rt, Drops::new(rt.alloc()));
    at_most(&rt, 4, MAX_ROOMS);
    let (mut sender, mut receiver) = made(&rt, channel::<Counted>(rt.alloc(), 4));
    let earlier = sender.receipt();
    let Ok(()) = sender.try_send(element(&rt, rt.alloc(), 1, &drops)) else {
        panic!(rt; "no room is free");
    };
    let Ok(()) = sender.try_send(element(&rt, rt.alloc(), 2, &drops)) else {
        panic!(rt; "no room is free");
    };
    drop(earlier);
    let Ok(first) = receiver.try_recv() else {
        panic!(rt; "no element is there");
    };
    same(&rt, first.id(), 1);
    let mut all = made(
        &rt,
        close_and_receive(&rt, rt.alloc(), sender, &mut receiver),
    );
    let Some(second) = all.pop() else {
        panic!(rt; "the second element is not there");
    };
    same(&rt, (second.id(), all.len()), (2, 0));
    drop(first);
    drop(second);
    same(&rt, drops.count(), 2);
}

// Who was told of an element receives it.
#[test]
fn a_receiver_that_is_told_receives(rt: HostRuntime) {
    let drops = made(&rt, Drops::new(rt.alloc()));
    at_most(&rt, 2, MAX_ROOMS);
    let (mut sender, mut receiver) = made(&rt, channel::<Counted>(rt.alloc(), 2));
    let Ok(()) = sender.try_send(element(&rt, rt.alloc(), 7, &drops)) else {
        panic!(rt; "no room is free");
    };
    let told = sender.receipt();
    let element = recv_told(&rt, &mut receiver, told);
    same(&rt, element.id(), 7);
    drop(element);
    same(
        &rt,
        (receiver.try_recv().is_err(), drops.count()),
        (true, 1),
    );
}

/// Sends this many elements, none of which may come back, and receives them, without a try that finds none.
fn send_and_receive(
    rt: &impl Abort,
    alloc: Global,
    sender: &mut Sender<Counted>,
    receiver: &mut Receiver<Counted>,
    count: u64,
    drops: &Drops,
) {
    for number in 0..count {
        let Ok(()) = sender.try_send(element(rt, alloc, number, drops)) else {
            panic!(rt; "no room is free");
        };
    }
    for number in 0..count {
        let Ok(element) = receiver.try_recv() else {
            panic!(rt; "no element is there");
        };
        same(rt, element.id(), number);
    }
}

// As many elements as the channel has rooms can wait, whatever rooms the receiver keeps.
#[test]
fn as_many_elements_wait_as_there_are_rooms(rt: HostRuntime) {
    for rooms in [1usize, 7, 8, 64, 1024] {
        let drops = made(&rt, Drops::new(rt.alloc()));
        at_most(&rt, rooms, MAX_ROOMS);
        let (mut sender, mut receiver) = made(&rt, channel::<Counted>(rt.alloc(), rooms));
        for _ in 0..20 {
            send_and_receive(
                &rt,
                rt.alloc(),
                &mut sender,
                &mut receiver,
                rooms as u64,
                &drops,
            );
        }
        same(&rt, drops.count(), 20 * rooms as u64);
    }
}
