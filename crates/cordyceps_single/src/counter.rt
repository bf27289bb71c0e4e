//! What an insertion counts its comparisons with.
ghost use Rattle.std.specs.Prelude.{◌≡◌, ◌+◌, min, ℕ, ⊤};

use cordyceps_base::steps::{Steps, count_one};

/// A counter of comparisons, or none.
pub trait Counter {
    // Holds if it counts.
    ghost counts: { Type 0 };

    // The number of comparisons that it has counted.
    ghost counted: { Self → ℕ };

    /// Counts one comparison, if the counter counts. A count of `u64::MAX` stays.
    fn count_comparison(&mut self)
        ensures { counts → counted self.new ≡ min (counted self.old + 1) u64.MAX };
}

impl Counter for Steps {
    ghost counts = { ⊤ };

    ghost counted = { λ steps. steps };

    /// Adds one. A count of `u64::MAX` stays.
    fn count_comparison(&mut self) {
        if self.count() < u64::MAX {
            count_one(self);
        }
    }
}

/// A counter that counts nothing.
#[derive(Drop)]
pub struct Uncounted;

impl Counter for Uncounted {
    ghost counts = { ⊥ };

    ghost counted = { λ _. 0 };

    /// Does nothing.
    fn count_comparison(&mut self) {}
}
