//! Ordered lists for C, each behind a handle.
#![tactic(auto)]

pub mod list;
pub mod list_handle;
pub mod node_list_handle;
