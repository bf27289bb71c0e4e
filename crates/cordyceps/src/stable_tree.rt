//! Balanced search trees whose elements are reached by stable pointers, their spots. The orders are those of
//! `sorted_list`.

pub use cordyceps_stable::stable_list::Spot;
pub use cordyceps_tree::iter::Iter;
pub use cordyceps_tree::node::TreeNode;
pub use cordyceps_tree::stable_tree::StableTree;
