//! What a node of C's has, and the kinds of collections that link it.
ghost use Rattle.std.specs.Prelude.{◌≡◌};

use cordyceps_base::linked::Linked;
use cordyceps_base::node::Node;
use cordyceps_base::{list, mpsc_queue, stack};

/// What a node has beside its number: a value of C's, which is the key by which a queue orders it.
#[repr(C)]
#[derive(Drop)]
pub struct Carried {
    pub value: u64,
}

/// A node for lists and queues.
pub type Listed = Node<Carried, list::Links<Carried>>;

impl Linked<list::Links<Carried>> for Carried {
    type Handle = Listed;

    ghost element = { λ h. h };

    fn into_ptr(handle: Listed) -> Listed {
        handle
    }

    fn from_ptr(node: Listed) -> Listed
        ensures { result ≡ node }
    {
        node
    }
}

/// A node for piles.
pub type Sheet = Node<Carried, stack::Links<Carried>>;

impl Linked<stack::Links<Carried>> for Carried {
    type Handle = Sheet;

    ghost element = { λ h. h };

    fn into_ptr(handle: Sheet) -> Sheet {
        handle
    }

    fn from_ptr(node: Sheet) -> Sheet
        ensures { result ≡ node }
    {
        node
    }
}

/// A node for inboxes.
pub type Letter = Node<Carried, mpsc_queue::Links<Carried>>;

impl Linked<mpsc_queue::Links<Carried>> for Carried {
    type Handle = Letter;

    ghost element = { λ h. h };

    fn into_ptr(handle: Letter) -> Letter {
        handle
    }

    fn from_ptr(node: Letter) -> Letter
        ensures { result ≡ node }
    {
        node
    }
}
