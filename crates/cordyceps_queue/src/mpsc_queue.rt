//! The queue that threads share, the kind of its nodes, and its core.
pub use crate::cores::calls::QueueCore;
pub use crate::cores::replay::replay;
pub use crate::cores::replay_end::Replay;
pub use crate::cores::steps::{QueueAnswer, QueueStep, TryDequeueError};
pub use crate::shared::batch::Batch;
pub use crate::shared::calls::{Closed, MpscQueue, Party};
pub use crate::shared::consumer::Consumer;
pub use crate::shared::owned_consumer::OwnedConsumer;
pub use crate::shared::receipt::Receipt;
pub use cordyceps_base::mpsc_queue::Links;
pub use cordyceps_base::shared::{MAX_ROOMS, StepError};
pub use cordyceps_shared::pool::QUANTUM;
