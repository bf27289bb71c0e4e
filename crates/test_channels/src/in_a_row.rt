//! The calls in a row of channels and selects, and what each leaves behind.
ghost use Rattle.std.specs.Prelude.{◌≡◌, ◌∷◌, []};
ghost use Rattle.cordyceps_channel.specs.Channels.{AreApart};
ghost use Rattle.cordyceps_channel.specs.Selects.{At};

use crate::calls::{Handle, element};
use crate::compared::{at_most, made, same};
use cordyceps_base::shared::MAX_ROOMS;
use cordyceps_channel::laws::{
    close_and_select, receive_all_in_batches, receive_all_of, select_all,
};
use cordyceps_channel::{
    Receiver, Select, Selected, Sender, TryRecvError, channel, channel_with_senders,
};
use std::alloc::Global;
use std::process::Abort;
use test_support::counted::{Counted, Drops};

/// Sends elements with these numbers, none of which may come back.
fn send_each(
    rt: &impl Abort,
    alloc: Global,
    sender: &mut Sender<Counted>,
    numbers: &[u64],
    drops: &Drops,
)
    ensures table { sender.new.table ≡ sender.old.table }
    ensures share { sender.new.share ≡ sender.old.share }
{
    for number in numbers {
        let Ok(()) = sender.try_send(element(rt, alloc, *number, drops)) else {
            panic!(rt; "no room is free");
        };
    }
}

/// Asserts which elements came.
fn came(rt: &impl Abort, all: Vec<Handle>, wanted: &[u64]) {
    same(rt, all.len(), wanted.len());
    for (node, number) in all.into_iter().zip(wanted) {
        same(rt, node.id(), *number);
    }
}

/// Asserts which elements came, and from which channels.
fn selected(rt: &impl Abort, all: Vec<Selected<Handle>>, wanted: &[(usize, u64)]) {
    same(rt, all.len(), wanted.len());
    for (found, place) in all.into_iter().zip(wanted) {
        same(rt, (found.index, found.value.id()), *place);
    }
}

/// Creates a select with one channel, and returns it and its sender.
fn one_channel(rt: &impl Abort, alloc: Global) -> (Select<Counted>, Sender<Counted>)
    ensures { At 0 (λ w. result.1.table ≡ w.table) result.0 }
{
    at_most(rt, 8, MAX_ROOMS);
    let mut select = made(rt, Select::<Counted>::new(alloc));
    let sender = made(rt, select.channel(8));
    (select, sender)
}

/// Creates a channel with two senders, and returns these and its receiver.
fn two_senders(
    rt: &impl Abort,
    alloc: Global,
) -> (Sender<Counted>, Sender<Counted>, Receiver<Counted>)
    ensures tables { (result.0.table ≡ result.2.table) × (result.1.table ≡ result.2.table) }
    ensures apart { AreApart (result.0 ∷ result.1 ∷ []) }
{
    at_most(rt, 8, MAX_ROOMS);
    let (senders, receiver) = made(rt, channel_with_senders::<Counted>(alloc, 8, 2));
    let mut senders = senders;
    let Some(second) = senders.pop() else {
        panic!(rt; "there is no second sender");
    };
    let Some(first) = senders.pop() else {
        panic!(rt; "there is no first sender");
    };
    (first, second, receiver)
}

// A receipt that a select learned of a sender takes no element out, and those of all channels come by turns.
#[test]
fn a_select_learns_and_receives_all(rt: HostRuntime) {
    let drops = made(&rt, Drops::new(rt.alloc()));
    let (mut select, mut first) = one_channel(&rt, rt.alloc());
    at_most(&rt, 8, MAX_ROOMS);
    send_each(&rt, rt.alloc(), &mut first, &[1, 2], &drops);
    select.learn(0, first.receipt());
    let mut second = made(&rt, select.channel(8));
    send_each(&rt, rt.alloc(), &mut second, &[3, 4, 5], &drops);
    drop(first);
    drop(second);
    let all = made(&rt, select_all(&rt, rt.alloc(), &mut select));
    selected(&rt, all, &[(0, 1), (1, 3), (0, 2), (1, 4), (1, 5)]);
    same(&rt, (drops.count(), select.try_recv().is_err()), (5, true));
}

// The last receipt of a sender is learned, and what is left of its channel and of the other comes.
#[test]
fn a_closed_sender_is_selected_in_its_order(rt: HostRuntime) {
    let drops = made(&rt, Drops::new(rt.alloc()));
    let (mut select, mut sender) = one_channel(&rt, rt.alloc());
    send_each(&rt, rt.alloc(), &mut sender, &[1, 2, 3], &drops);
    let all = made(
        &rt,
        close_and_select(&rt, rt.alloc(), sender, 0, &mut select),
    );
    selected(&rt, all, &[(0, 1), (0, 2), (0, 3)]);
    same(
        &rt,
        matches!(select.try_recv(), Err(TryRecvError::Disconnected)),
        true,
    );
    same(&rt, drops.count(), 3);
}

// Batches of two have all that was sent, and the last has what is left.
#[test]
fn all_is_received_in_batches(rt: HostRuntime) {
    let drops = made(&rt, Drops::new(rt.alloc()));
    at_most(&rt, 8, MAX_ROOMS);
    let (mut sender, mut receiver) = made(&rt, channel::<Counted>(rt.alloc(), 8));
    send_each(&rt, rt.alloc(), &mut sender, &[1, 2, 3, 4, 5], &drops);
    drop(sender);
    let all = made(
        &rt,
        receive_all_in_batches(&rt, rt.alloc(), &mut receiver, 2),
    );
    came(&rt, all, &[1, 2, 3, 4, 5]);
    same(
        &rt,
        (drops.count(), receiver.try_recv().is_err()),
        (5, true),
    );
}

// What two senders sent comes in the order in which it came in, and another call says so once more.
#[test]
fn what_two_senders_sent_is_received(rt: HostRuntime) {
    let drops = made(&rt, Drops::new(rt.alloc()));
    let (mut first, mut second, mut receiver) = two_senders(&rt, rt.alloc());
    send_each(&rt, rt.alloc(), &mut first, &[1, 2], &drops);
    send_each(&rt, rt.alloc(), &mut second, &[3], &drops);
    send_each(&rt, rt.alloc(), &mut first, &[4], &drops);
    let mut closed = Vec::new(rt.alloc());
    made(&rt, closed.push(first.finish()));
    made(&rt, closed.push(second.finish()));
    let all = made(&rt, receive_all_of(&rt, rt.alloc(), closed, &mut receiver));
    came(&rt, all, &[1, 2, 3, 4]);
    same(
        &rt,
        (drops.count(), receiver.try_recv().is_err()),
        (4, true),
    );
}
