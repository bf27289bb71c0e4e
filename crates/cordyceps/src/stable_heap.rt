//! Priority queues whose elements are reached by stable pointers, their spots. The orders are those of `sorted_list`,
//! and the nodes those of `list`.

pub use cordyceps_heap::iter::Iter;
pub use cordyceps_heap::stable_heap::StableHeap;
pub use cordyceps_stable::stable_list::Spot;
