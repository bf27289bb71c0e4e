//! Numbers that are drawn for runs of many operations.
ghost use Rattle.std.specs.Prelude.{◌<◌, ◌≤◌};

/// A sequence of drawn numbers, which is always the same for the same start.
#[derive(Drop)]
pub struct Draws {
    state: u64,
}

impl Draws {
    /// Creates the sequence for this start.
    ///
    /// # Complexity
    /// O(1).
    pub fn new(start: u64) -> Draws {
        Draws { state: start }
    }

    /// Returns the next number, which is below `bound`. Requires that `bound` is at least 1.
    ///
    /// # Complexity
    /// O(1).
    pub fn below(&mut self, bound: u64) -> u64
        requires { 0 < bound }
        ensures { result < bound }
    {
        self.state = self
            .state
            .wrapping_mul(6364136223846793005)
            .wrapping_add(1442695040888963407);
        (self.state >> 33) % bound
    }

    /// Returns the next place, from 0 to `len`. Requires that `len` is below `usize::MAX`.
    ///
    /// # Complexity
    /// O(1).
    pub fn place(&mut self, len: usize) -> usize
        requires { len < usize.MAX }
        ensures { result ≤ len }
    {
        self.below(len as u64 + 1) as usize
    }
}
