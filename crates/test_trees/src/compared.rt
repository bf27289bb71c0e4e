//! What ends a test: a value that is not the one wanted, a number beyond its bound, memory that was refused.
//!
//! Each crate of tests has this very file. A library cannot have it for them, since tests alone may end the process.
ghost use Rattle.std.specs.Prelude.{◌≡◌, ◌≤◌, Ok};

use std::fmt::Debug;
use std::process::Abort;

/// Asserts that a value is the one that is wanted, and prints both where they differ.
pub fn same<T: PartialEq + Debug + Drop>(rt: &impl Abort, came: T, wanted: T) {
    assert_eq!(rt; came, wanted);
}

/// Fails where a number is greater than the bound.
pub fn at_most(rt: &impl Abort, number: usize, bound: usize)
    ensures { number ≤ bound }
{
    assert!(rt; number <= bound);
}

/// Returns what was made, and fails where memory was refused.
pub fn made<T, E: Drop>(rt: &impl Abort, answer: Result<T, E>) -> T
    ensures { answer ≡ Ok result }
{
    match answer {
        Ok(it) => it,
        Err(_) => panic!(rt; "memory was refused"),
    }
}
