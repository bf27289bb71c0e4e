//! Receiving with a limit of time.
ghost use Rattle.std.specs.Prelude.{[], ◌∷◌, MatchResult};
ghost use Rattle.cordyceps_channel.specs.Channels.{Receives, FindsNoneInTime};

use crate::bell::Listening;
use crate::errors::{RecvTimeoutError, TryRecvError};
use crate::receiver::Receiver;
use crate::wake::Wake;
use cordyceps_base::linked::Linked;
use cordyceps_base::mpsc_queue::Links;
use std::sync::Wait;
use std::time::{Clock, Instant};

impl<T: Linked<Links<T>>, W: Wake + Drop> Receiver<T, W> {
    /// Receives the oldest element, and waits while none is there, until a deadline.
    ///
    /// # Errors
    /// It returns `Disconnected` as `recv` does, and `Timeout` if the deadline passed while no element was there. A
    /// clock that cannot be read ends the wait.
    ///
    /// # Complexity
    /// That of `try_recv` for each try.
    ///
    /// # Waits
    /// As `recv`, and no longer than until the deadline.
    pub fn recv_deadline<R: Wait + Clock>(
        &mut self,
        rt: &R,
        deadline: Instant,
    ) -> Result<T::Handle, RecvTimeoutError>
        ensures { MatchResult result (λ handle. Receives (handle ∷ []) self.old self.new)
            (λ why. FindsNoneInTime why self.old self.new) }
    {
        let mut listening = Listening::new();
        for _ in rt.forever() {
            match self.try_recv() {
                Ok(handle) => {
                    self.shared.sent.leave(listening);
                    return Ok(handle);
                }
                Err(TryRecvError::Disconnected) => {
                    self.shared.sent.leave(listening);
                    return Err(RecvTimeoutError::Disconnected);
                }
                Err(TryRecvError::Empty) => {
                    if !self.shared.sent.wait_until(rt, &mut listening, deadline) {
                        self.shared.sent.leave(listening);
                        return Err(RecvTimeoutError::Timeout);
                    }
                }
            }
        }
        unreachable!()
    }
}
