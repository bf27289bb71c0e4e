//! The numbers with which calls of inboxes and piles answer.
ghost use Rattle.std.specs.Prelude.{◌≡◌};
ghost use Rattle.cordyceps_c_shared.specs.Inboxes.{number_of_sent, number_of_error};
ghost use Rattle.cordyceps_c_shared.specs.Piles.{number_of_pushed};

use crate::inbox::Sent;
use crate::pile::Pushed;
use cordyceps_queue::mpsc_queue::TryDequeueError;

/// The message was sent, pushed or received.
pub const DONE: u32 = 0;
/// No message was there.
pub const EMPTY: u32 = 1;
/// The next message is not linked yet.
pub const UNLINKED: u32 = 2;
/// Another handle receives, or came between two steps.
pub const BUSY: u32 = 3;
/// No room was free.
pub const FULL: u32 = 4;
/// Memory was refused.
pub const NO_MEMORY: u32 = 5;
/// The handle is of nothing.
pub const NOTHING: u32 = 6;

impl Sent {
    /// Returns the number for C.
    pub fn number(self) -> u32
        ensures { result ≡ number_of_sent self }
    {
        match self {
            Sent::Done => DONE,
            Sent::Full => FULL,
            Sent::NoMemory => NO_MEMORY,
        }
    }
}

impl Pushed {
    /// Returns the number for C.
    pub fn number(self) -> u32
        ensures { result ≡ number_of_pushed self }
    {
        match self {
            Pushed::Done => DONE,
            Pushed::Full => FULL,
            Pushed::Busy => BUSY,
            Pushed::NoMemory => NO_MEMORY,
        }
    }
}

/// Returns the number for C of a try that received nothing.
pub fn number_of(error: TryDequeueError) -> u32
    ensures { result ≡ number_of_error error }
{
    match error {
        TryDequeueError::Empty => EMPTY,
        TryDequeueError::Inconsistent => UNLINKED,
        TryDequeueError::Busy => BUSY,
    }
}
