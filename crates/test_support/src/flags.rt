//! Flags that threads set, and that a test reads until they are set.
use std::sync::atomic::{AtomicBool, Ordering};
use std::thread;

/// The number of times that a test reads a flag before it gives up.
const LOOKS: u64 = 10_000_000;

/// Reads a flag until it is set and returns `true`, or gives up after ten million reads and returns `false`.
///
/// # Complexity
/// O(r), for r reads.
///
/// # Waits
/// For the flag, but not forever. It yields to other threads after each read.
pub fn is_set_in_time(flag: &AtomicBool) -> bool {
    for _ in 0..LOOKS {
        if flag.load(Ordering::SeqCst) {
            return true;
        }
        thread::yield_now();
    }
    false
}
