//! Where an order is asked: what puts an element in its place, and what merges. No other module can compare.
mod counted;
pub(crate) mod merging;
pub(crate) mod placing;

pub(crate) use counted::{Asked, CountedOrder};
