//! Blocks of nodes with several hooks, one for each list.
ghost use Rattle.std.specs.Prelude.{◌≡◌};

use crate::hooks::{HookRow, Hooks};
use cordyceps_base::boxes::Boxes;
use cordyceps_base::boxes::homes::Home;
use std::alloc::Global;

/// The block of memory of one node. `heap` frees it, unless its memory is lent.
#[derive(Drop)]
pub(crate) struct Block<T, H: Hooks> {
    pub(crate) hooks: HookRow<H>,
    pub(crate) heap: Global,
    pub(crate) id: u64,
    pub(crate) value: T,
}

impl<T, H: Hooks> Block<T, H> {
    /// Returns the value.
    pub(crate) fn into_value(self) -> T
        ensures { result ≡ self.value }
    {
        let Block {
            hooks: _,
            heap: _,
            id: _,
            value,
        } = self;
        value
    }
}

/// The nodes of all lists, in the order in which they came.
pub(crate) struct Row<T, H: Hooks> {
    pub(crate) boxes: Boxes<Block<T, H>, Home>,
}
