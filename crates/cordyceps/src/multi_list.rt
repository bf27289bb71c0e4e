//! Lists that share their nodes, so that an element is in several of them at once.

pub use cordyceps_many::hooks::{Four, Hooks, One, Three, Two};
pub use cordyceps_many::iter::Iter;
pub use cordyceps_many::multi_list::MultiList;
pub use cordyceps_many::node::MultiNode;
pub use cordyceps_stable::stable_list::Spot;
