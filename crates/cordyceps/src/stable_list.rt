//! Lists whose elements are reached by stable pointers, their spots.

pub use cordyceps_stable::stable_list::{Spot, SpotCursor, StableList};
