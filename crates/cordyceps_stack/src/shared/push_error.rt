//! The error of a push that takes rooms from the pool.
ghost use Rattle.std.specs.Prelude.{◌≡◌};
ghost use Rattle.cordyceps_stack.specs.Shared.Calls.{handle_of};

/// Why an element was not pushed. It has the handle.
///
/// # Examples
/// From `run_queue::submit` of `cordyceps_shared_uses`:
/// ```
/// match queue.refill_and_try_push(party, job) {
///     Ok(was_empty) => {
///         if was_empty {
///             alarm.ring();
///         }
///         return;
///     }
///     Err(error) => job = error.into_inner(),
/// }
/// ```
#[derive(Drop, Debug)]
pub enum TryPushError<H> {
    /// The party has no room, and the pool has none.
    Full(H),
    /// Another party pushed, or took what was held, between the two steps of the try.
    Contended(H),
}

impl<H> TryPushError<H> {
    /// Returns the handle.
    ///
    /// # Complexity
    /// O(1).
    pub fn into_inner(self) -> H
        ensures { result ≡ handle_of self }
    {
        match self {
            TryPushError::Full(handle) => handle,
            TryPushError::Contended(handle) => handle,
        }
    }
}
