//! Maps whose nodes keep their places, and are in lists at the same time.

pub use cordyceps_many::hooks::{Four, Hooks, One, Three, Two};
pub use cordyceps_map::map_node::MapNode;
pub use cordyceps_map::seeded::Seeded;
pub use cordyceps_map::stable_map::{Inserted, StableMap};
pub use cordyceps_stable::stable_list::Spot;
