//! What can be sent to a thread, of a channel.
ghost use Rattle.std.specs.Prelude.{◌≡◌};

use crate::compared::{made, same};
use cordyceps_base::linked::Linked;
use cordyceps_base::mpsc_queue::Links;
use cordyceps_base::node::Node;
use cordyceps_channel::{Receiver, Sender, channel};
use std::cell::Cell;
use std::marker::Send;
use test_support::nodes::node_of;
use test_support::travels::sent;

/// An element that threads can send, and not share.
#[derive(Drop)]
struct Lone {
    value: Cell<u64>,
}

impl Linked<Links<Lone>> for Lone {
    type Handle = Node<Lone, Links<Lone>>;

    ghost element = { λ h. h };

    fn into_ptr(handle: Node<Lone, Links<Lone>>) -> Node<Lone, Links<Lone>> {
        handle
    }

    fn from_ptr(node: Node<Lone, Links<Lone>>) -> Node<Lone, Links<Lone>>
        ensures { result ≡ node }
    {
        node
    }
}

/// The sides of a channel can be sent where handles can only be sent.
fn sides_travel_where_handles_do<T: Linked<Links<T>>>(
    sides: (Sender<T>, Receiver<T>),
) -> (Sender<T>, Receiver<T>)
where
    T::Handle: Send,
{
    (sent(sides.0), sent(sides.1))
}

#[test]
fn sides_are_sent_where_handles_are(rt: HostRuntime) {
    let sides = made(&rt, channel::<Lone>(rt.alloc(), 1));
    let (mut sender, mut receiver) = sides_travel_where_handles_do(sides);
    let value = Lone {
        value: Cell::new(7),
    };
    let node = made(&rt, node_of::<Lone, Links<Lone>>(rt.alloc(), 1, value));
    same(&rt, sender.try_send(node).is_ok(), true);
    match receiver.try_recv() {
        Ok(node) => same(&rt, node.get().value.get(), 7),
        Err(_) => same(&rt, false, true),
    }
}
