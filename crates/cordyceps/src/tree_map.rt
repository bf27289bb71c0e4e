//! Maps in order of their keys, as balanced search trees.

pub use cordyceps_stable::stable_list::Spot;
pub use cordyceps_tree::iter::Iter;
pub use cordyceps_tree::map_range::Range;
pub use cordyceps_tree::node::TreeNode;
pub use cordyceps_tree::tree_map::{Inserted, TreeMap};
