//! The stages of the parties of a core.
ghost use Rattle.std.specs.Prelude.{◌≡◌};
ghost use Rattle.cordyceps_queue.specs.Cores.Drain.{is_cleared};

/// Where a party is between two steps. `room` is the room that it enqueues, `old` the head before its swap, and `tail`
/// the room at which the party that has the right dequeues. The stub is room 0.
///
/// Threads have the same stages. Where the core makes a link null, they begin a use of its room (`uses`).
#[derive(Clone, Copy)]
pub enum Stage {
    /// In no call.
    Rest,
    /// In an enqueue: the link of `room` is null, and it has the element.
    Cleared(usize),
    /// In an enqueue: `room` is the head, and has yet to be linked after `old`.
    Swapped(usize, usize),
    /// The party has the right to dequeue, and is between two tries, at `tail`.
    Holding(usize),
    /// In a try: the stub is the tail, and its link was null.
    StubNull,
    /// In a try: the stub was passed, and `tail` is after it.
    Second(usize),
    /// In a try: the link of `tail` was null.
    Null(usize),
    /// In a try: `tail` was the head, and the stub's link has yet to be made null before the stub is put in.
    PutClear(usize),
    /// In a try: the stub's link is null, and the stub has yet to become the head. `tail` is the room.
    PutSwap(usize),
    /// In a try: the stub is the head, and has yet to be linked. The rooms are `tail` and `old`.
    PutLink(usize, usize),
    /// In a try: the stub was put in, and the link of `tail` has yet to be read again.
    PutRead(usize),
}

impl Stage {
    /// Returns `true` if the party has an element in a room that has yet to become the head.
    pub(crate) fn is_cleared(&self) -> bool
        ensures { result ≡ is_cleared self.now }
    {
        matches!(self, Stage::Cleared(_))
    }
}
