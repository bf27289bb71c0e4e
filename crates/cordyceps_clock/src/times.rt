//! Functions that return the times of values.
//!
//! A queue takes an `impl` of `Times`, and no closure. The toolchain refuses a function that makes a struct with a
//! `Model` and the bound `O: Times<T>`, if the `impl` of `O` has itself a bound `F: Fn`. A heap's struct has no such
//! bound, so it has `new_by_key`.
ghost use Rattle.std.specs.Prelude.{◌≡◌, ℕ};

/// A function that returns the time of a value.
///
/// It always returns the same time for a value, which an implementor proves.
///
/// # Examples
/// From `timers::NotBefore::time` of `cordyceps_shared_uses`:
/// ```
/// timer.deadline.max(self.clock)
/// ```
pub trait Times<T> {
    // Holds of a function and the times that it returns.
    ghost computes_by: { Self → (T → ℕ) → Type 0 };

    // Holds of the functions that may be called.
    ghost can_compute: { Self → Type 0 };

    /// Returns the time of a value.
    fn time(&self, value: &T) -> u64
        requires { can_compute self.now }
        ensures { (of : T → ℕ) → computes_by self.now of → result ≡ of value.now };

    // A function that may be called computes the times of all values.
    ghost computes: { (times : Self) → can_compute times → (of : T → ℕ) × computes_by times of };
}
