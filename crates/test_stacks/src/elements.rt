//! Elements of the cores.
use std::process::Abort;
use test_support::counted::{Counted, Drops};

/// Returns a value that adds its drop to a count.
pub fn counted(rt: &impl Abort, value: u64, drops: &Drops) -> Counted {
    match Counted::new(value, drops) {
        Ok(counted) => counted,
        Err(_) => panic!(rt; "too many values share the count"),
    }
}
