//! The steps of a core, and what they return.
ghost use Rattle.std.specs.Prelude.{◌≡◌};
ghost use Rattle.cordyceps_queue.specs.Cores.Machine.{step_element};

use cordyceps_base::shared::StepError;

/// Why no element was dequeued.
#[derive(Clone, Copy, Debug, PartialEq, Eq)]
pub enum TryDequeueError {
    /// The queue had no element.
    Empty = 1,
    /// The oldest element or the one after it is not linked yet.
    Inconsistent = 2,
    /// Another party has the right to dequeue.
    Busy = 3,
}

/// A step of one party: a read or a write of one word.
#[derive(Drop)]
pub enum QueueStep<E> {
    /// Makes a free room's link null, and puts the element into the room. Without an element, it makes the stub's link
    /// null.
    Clear(Option<E>),
    /// Makes the room the head, or the stub.
    Swap,
    /// Makes the old head lead to the room, or to the stub.
    Link,
    /// Takes the right to dequeue if it is free.
    Take,
    /// Reads the tail's link.
    ReadNext,
    /// Reads the head.
    ReadHead,
    /// Gives the right to dequeue back.
    Give,
}

impl<E: Drop> QueueStep<E> {
    /// Returns the element that the step brings, if any.
    pub(crate) fn into_element(self) -> Option<E>
        ensures { result ≡ step_element self }
    {
        match self {
            QueueStep::Clear(element) => element,
            _ => None,
        }
    }
}

/// What a step returns.
#[derive(Drop, Debug, PartialEq, Eq)]
pub enum QueueAnswer<E> {
    /// The step was taken, and the call goes on or has ended.
    Done,
    /// The party has the right to dequeue.
    Taken,
    /// Another party has the right to dequeue.
    Busy,
    /// The oldest element.
    Out(E),
    /// There was no element.
    Empty,
    /// The oldest element or the one after it is not linked yet.
    Inconsistent,
}

/// What a step returns. A step that is refused returns its element.
pub(crate) type Answered<E> = Result<QueueAnswer<E>, (StepError, Option<E>)>;
