//! Helpers that several crates of tests share: values that count their drops, elements of lists, nodes, drawn numbers,
//! flags that threads set, and checks of what can be sent and shared.
#![tactic(auto)]

pub mod counted;
pub mod draws;
pub mod flags;
pub mod items;
pub mod nodes;
pub mod travels;
