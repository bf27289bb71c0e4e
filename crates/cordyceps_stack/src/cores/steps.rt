//! The steps of a transfer core, and what they return.
ghost use Rattle.std.specs.Prelude.{◌≡◌};
ghost use Rattle.cordyceps_stack.specs.Cores.Machine.{step_element};

/// A step of one party: an atomic step of a transfer stack.
#[derive(Drop)]
pub enum TransferStep<E> {
    /// Begins a push: puts the element into the party's free room with the least number, and reads the head. Needs a
    /// party at rest.
    Load(E),
    /// Continues a push: makes the room lead to what was read.
    SetNext,
    /// Ends a push: makes the room the new head if the head is still what was read. Otherwise the push has failed.
    Exchange,
    /// Takes all elements, through which the party then walks. Needs a party at rest.
    Take,
    /// Returns the next element of what was taken.
    Walk,
}

impl<E: Drop> TransferStep<E> {
    /// Returns the element that the step brings, if any.
    pub(crate) fn into_element(self) -> Option<E>
        ensures { result ≡ step_element self }
    {
        match self {
            TransferStep::Load(element) => Some(element),
            _ => None,
        }
    }
}

/// What a step returns.
#[derive(Drop, Debug, PartialEq)]
pub enum TransferAnswer<E> {
    /// The push continues with its next step.
    Done,
    /// The element was pushed. `true` if there was no element before.
    Pushed(bool),
    /// The push failed, and its element is returned. The room is free again.
    Failed(E),
    /// All elements were taken, and the walk through them begins.
    Taken,
    /// There was no element to take.
    Nothing,
    /// The next element of what was taken. More follow.
    Gives(E),
    /// The last element of what was taken. The party is at rest again.
    Last(E),
}
