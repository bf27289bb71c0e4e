//! The result of a replay.
use crate::cores::calls::QueueCore;
use crate::cores::steps::{QueueAnswer, QueueStep};
use cordyceps_base::shared::StepError;
use std::collections::VecDeque;

/// The result of a replay.
#[derive(Drop)]
pub struct Replay<E> {
    /// The core after the steps that have a reply.
    pub core: QueueCore<E>,
    /// What each of these steps returned, refused ones included.
    pub replies: Vec<Result<QueueAnswer<E>, (StepError, Option<E>)>>,
    /// The steps that have no reply, in order.
    pub rest: VecDeque<(usize, QueueStep<E>)>,
    /// The element of a step that was refused memory. No step of this core allocates, so it is always `None`.
    pub back: Option<E>,
    /// `true` if memory was refused, so that there are steps without a reply.
    pub stopped: bool,
}
