//! How a thread or an event loop that sleeps elsewhere is told that there is something to receive.

use crossbeam_utils::sync::Unparker;

/// Tells a thread or an event loop that there may be something to receive.
///
/// An implementation may unpark a thread, write to an eventfd, or send to another channel.
pub trait Wake {
    /// Wakes the thread or the event loop. It is called in `try_send`, in `send`, and in the drop of a sender, by the
    /// thread that sends. So it should return soon, and must not wait for that thread or for the receiver.
    fn wake(&self);
}

impl Wake for Unparker {
    /// Unparks the thread that waits at the parker.
    fn wake(&self) {
        self.unpark();
    }
}

/// The `Wake` of a channel whose receiver sleeps in `recv` alone.
#[derive(Drop, Clone, Copy, Debug)]
pub struct NoWake;

impl Wake for NoWake {
    /// Does nothing.
    fn wake(&self) {}
}
