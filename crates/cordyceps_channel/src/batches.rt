//! Receiving several elements at a time.
ghost use Rattle.std.specs.Prelude.{◌≤◌, [], MatchResult};
ghost use Rattle.cordyceps_channel.specs.Channels.{Receives, ReceivesBatch, FindsNone, IsOver};

use crate::bell::Listening;
use crate::errors::{Disconnected, TryRecvError};
use crate::receiver::Receiver;
use crate::wake::Wake;
use cordyceps_base::linked::Linked;
use cordyceps_base::mpsc_queue::Links;
use cordyceps_queue::mpsc_queue::Batch;
use std::sync::Wait;

impl<T: Linked<Links<T>>, W: Wake + Drop> Receiver<T, W> {
    /// Receives up to `max` elements, the oldest first, if one is there. Requires that `max` is at least 1. Allocates
    /// nothing.
    ///
    /// # Errors
    /// As `try_recv`.
    ///
    /// # Complexity
    /// O(k + 1), for k elements that it returns, and O(n) once, for n senders, when all have ended.
    ///
    /// # Waits
    /// Never.
    pub fn try_recv_batch(&mut self, max: usize) -> Result<Batch<T>, TryRecvError>
        requires { 1 ≤ max }
        ensures { MatchResult result (λ batch. ReceivesBatch T.element max batch self.old self.new)
            (λ why. FindsNone why self.old self.new) }
    {
        if let Some(batch) = self.taker.take(max) {
            self.free_batch();
            return Ok(batch);
        }
        if !self.is_end() {
            return Err(TryRecvError::Empty);
        }
        match self.taker.take(max) {
            Some(batch) => Ok(batch),
            None => Err(TryRecvError::Disconnected),
        }
    }

    /// Receives up to `max` elements, the oldest first, and waits while none is there. Requires that `max` is at least
    /// 1. Allocates nothing.
    ///
    /// # Errors
    /// As `recv`.
    ///
    /// # Complexity
    /// That of `try_recv_batch` for each try.
    ///
    /// # Waits
    /// As `recv`.
    pub fn recv_batch<R: Wait>(&mut self, rt: &R, max: usize) -> Result<Batch<T>, Disconnected>
        requires { 1 ≤ max }
        ensures { MatchResult result (λ batch. ReceivesBatch T.element max batch self.old self.new)
            (λ _. Receives [] self.old self.new × IsOver self.new) }
    {
        let mut listening = Listening::new();
        for _ in rt.forever() {
            match self.try_recv_batch(max) {
                Ok(batch) => {
                    self.shared.sent.leave(listening);
                    return Ok(batch);
                }
                Err(TryRecvError::Disconnected) => {
                    self.shared.sent.leave(listening);
                    return Err(Disconnected { value: () });
                }
                Err(TryRecvError::Empty) => self.shared.sent.wait(rt, &mut listening),
            }
        }
        unreachable!()
    }
}
