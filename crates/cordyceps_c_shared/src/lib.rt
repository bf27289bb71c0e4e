//! Inboxes and piles for C, each behind a handle.
#![tactic(auto)]

pub mod answers;
pub mod inbox;
pub mod inbox_calls;
pub mod inbox_handle;
pub mod pile;
pub mod pile_calls;
pub mod pile_handle;
