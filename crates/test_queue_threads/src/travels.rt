//! What can be sent to a thread and what threads can share, of queues, receipts and batches.
ghost use Rattle.std.specs.Prelude.{◌≡◌};

use crate::closings::Whole;
use crate::compared::{made, same};
use crate::items::numbers;
use cordyceps_base::linked::Linked;
use cordyceps_base::node::Node;
use cordyceps_queue::mpsc_queue::{Batch, Closed, Links, MpscQueue, Receipt};
use std::cell::Cell;
use std::marker::{Send, Sync};
use test_support::counted::Drops;
use test_support::nodes::node_of;
use test_support::travels::{sent, shared};

/// An element that threads can send, and not share.
#[derive(Drop)]
struct Lone {
    value: Cell<u64>,
}

impl Linked<Links<Lone>> for Lone {
    type Handle = Node<Lone, Links<Lone>>;

    ghost element = { λ h. h };

    fn into_ptr(handle: Node<Lone, Links<Lone>>) -> Node<Lone, Links<Lone>> {
        handle
    }

    fn from_ptr(node: Node<Lone, Links<Lone>>) -> Node<Lone, Links<Lone>>
        ensures { result ≡ node }
    {
        node
    }
}

/// A batch can be sent where its values can.
fn a_batch_travels_where_its_values_do<T: Send>(batch: Batch<T>) -> Batch<T> {
    sent(batch)
}

/// A batch can be shared where its values can.
fn a_batch_is_shared_where_its_values_are<T: Sync>(batch: &Batch<T>) -> &Batch<T> {
    shared(batch)
}

/// A queue can be shared where its handles can only be sent.
fn shared_queue<T: Linked<Links<T>>>(queue: &MpscQueue<T>) -> &MpscQueue<T>
where
    T::Handle: Send,
{
    shared(queue)
}

/// A receipt can be sent where handles can only be sent.
fn a_receipt_travels_where_handles_do<T: Linked<Links<T>>>(receipt: Receipt<T>) -> Receipt<T>
where
    T::Handle: Send,
    ensures { result ≡ receipt }
{
    sent(receipt)
}

#[test]
fn a_queue_is_shared_where_handles_are_sent(rt: HostRuntime) {
    let value = Lone {
        value: Cell::new(7),
    };
    let stub = made(&rt, node_of::<Lone, Links<Lone>>(rt.alloc(), 1, value));
    let Ok((queue, party)) = MpscQueue::<Lone>::new_with_stub(rt.alloc(), stub, 1) else {
        panic!(&rt; "memory was refused");
    };
    let _ = shared_queue(&queue);
    let Closed { elements: _, stub } = queue.close(party);
    match stub {
        Some(node) => same(&rt, node.get().value.get(), 7),
        None => panic!(&rt; "the stub was handed in"),
    }
}

#[test]
fn a_receipt_is_sent_where_handles_are(rt: HostRuntime) {
    let Ok((queue, mut party)) = MpscQueue::<Lone>::new(rt.alloc(), 1) else {
        panic!(&rt; "memory was refused");
    };
    let receipt = queue.receipt(&mut party);
    queue.learn(&mut party, a_receipt_travels_where_handles_do(receipt));
    same(&rt, party.rooms(), 1);
}

#[test]
fn a_batch_is_sent_and_shared_where_its_values_are(rt: HostRuntime) {
    let drops = made(&rt, Drops::new(rt.alloc()));
    let Closed { elements, stub: _ } = Whole::three_held(&rt, rt.alloc(), &drops).close();
    let elements = a_batch_travels_where_its_values_do(elements);
    let _ = a_batch_is_shared_where_its_values_are(&elements);
    same(&rt, numbers(&rt, elements), (1, 3));
}
