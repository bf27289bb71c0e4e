//! Counts of steps.
ghost use Rattle.std.specs.Prelude.{◌≡◌, ◌+◌, ◌<◌, ◌^◌};

use std::marker::Model;

/// A count of steps: moves along a link, or comparisons. Calls that take it add the steps that they make. A contract
/// sees the number.
///
/// # Examples
/// From `examples::insert_counted` of `cordyceps_uses`:
/// ```
/// let mut steps = Steps::new();
/// jobs.insert_in(job, &mut steps);
/// steps.count()
/// ```
#[derive(Drop, Debug)]
pub struct Steps {
    count: u64,
}

impl Model for Steps {
    ghost use Rattle.std.specs.Prelude.{ℕ};

    ghost Value = { ℕ };

    ghost view = { λ s. s.count };
}

impl Steps {
    /// Creates a count of no steps.
    ///
    /// # Complexity
    /// O(1).
    pub fn new() -> Steps
        ensures { result ≡ 0 }
    {
        Steps { count: 0 }
    }

    /// Returns the number of steps.
    ///
    /// # Complexity
    /// O(1).
    pub fn count(&self) -> u64
        ensures { result ≡ self.now }
    {
        self.count
    }
}

impl Default for Steps {
    ghost is_default = { λ s. s ≡ 0 };

    /// Creates a count of no steps, as `new` does.
    ///
    /// # Complexity
    /// O(1).
    fn default() -> Steps {
        Steps::new()
    }
}

/// Adds one step, for collections that count theirs. Requires that the count is below `u64::MAX`.
///
/// # Complexity
/// O(1).
pub fn count_one(steps: &mut Steps)
    requires { steps.old + 1 < 2 ^ 64 }
    ensures { steps.new ≡ steps.old + 1 }
{
    steps.count += 1;
}
