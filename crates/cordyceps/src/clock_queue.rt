//! Priority queues of times that never fall, whose elements are reached by stable pointers, their spots. The nodes are
//! those of `list`.

pub use cordyceps_clock::clock_queue::ClockQueue;
pub use cordyceps_clock::times::Times;
pub use cordyceps_stable::stable_list::Spot;
