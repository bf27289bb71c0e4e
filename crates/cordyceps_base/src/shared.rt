//! What the collections that threads share have in common.

/// The maximum number of rooms that a shared collection can have.
pub const MAX_ROOMS: usize = 1_048_576;

/// Why a step of a shared collection's core was refused. The core is unchanged.
#[derive(Clone, Copy, Debug, PartialEq, Eq)]
pub enum StepError {
    /// There is no such party, it is not at that step, or it has no free room.
    NotThere = 1,
    /// Memory was refused.
    Memory = 2,
}
