//! Sorted lists, their orders, and the kind of their nodes.

pub use cordyceps_single::sorted_list::{
    ByFn, ByKey, Greatest, Least, Links, Order, SortedList, SortedListIter,
};
