//! Checks that a value can be sent to a thread, or that threads can share it.
ghost use Rattle.std.specs.Prelude.{◌≡◌};

use std::marker::{Send, Sync};

/// Returns its argument, whose type must be one that can be sent to a thread.
///
/// # Complexity
/// O(1).
pub fn sent<T: Send>(value: T) -> T
    ensures { result ≡ value }
{
    value
}

/// Returns its argument, whose type must be one that threads can share.
///
/// # Complexity
/// O(1).
pub fn shared<T: Sync>(value: &T) -> &T
    ensures { result.now ≡ value.now }
{
    value
}
