//! Stable sorts and merges of lists. The orders are those of `sorted_list`.

pub use cordyceps_heap::sorting::{
    merge, merge_with_order, sort, sort_by, sort_by_key, sort_with_order,
};
