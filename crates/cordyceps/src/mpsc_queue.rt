//! The queue that threads share, with many producers and one consumer at a time, and its core.

pub use cordyceps_base::mpsc_queue::Links;
pub use cordyceps_queue::mpsc_queue::{
    Batch, Closed, Consumer, MAX_ROOMS, MpscQueue, OwnedConsumer, Party, QUANTUM, QueueAnswer,
    QueueCore, QueueStep, Receipt, Replay, StepError, TryDequeueError, replay,
};
