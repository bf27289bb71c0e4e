//! What the calls of a channel return where nothing is sent or received.

use std::fmt;

/// The other side of the channel has ended, with the element that was not sent.
#[derive(Drop, Clone, Copy, PartialEq, Eq, Debug)]
pub struct Disconnected<H = ()> {
    /// The element that was not sent.
    pub value: H,
}

/// Why `try_send` sent nothing. Each has the element.
#[derive(Drop, Debug)]
pub enum TrySendError<H> {
    /// No room was free.
    Full(H),
    /// The receiver has ended.
    Disconnected(H),
}

/// Why `try_recv` received nothing.
#[derive(Clone, Copy, PartialEq, Eq, Debug)]
pub enum TryRecvError {
    /// No element was there, and senders have not ended.
    Empty,
    /// All senders have ended, and each element that was sent has been received.
    Disconnected,
}

/// Why `recv_deadline` received nothing.
#[derive(Clone, Copy, PartialEq, Eq, Debug)]
pub enum RecvTimeoutError {
    /// The deadline passed while no element was there.
    Timeout,
    /// All senders have ended, and each element that was sent has been received.
    Disconnected,
}
