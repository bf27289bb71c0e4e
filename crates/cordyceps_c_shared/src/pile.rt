//! A pile, and how pushing onto it ends.
ghost use Rattle.std.specs.Arc.{arc_value};
ghost use Rattle.std.specs.Prelude.{◌≡◌};

use cordyceps_c_base::carried::Carried;
use cordyceps_stack::stack::{Party, Stack, TransferStack};
use std::alloc::Global;
use std::sync::Arc;

/// How pushing ended.
#[derive(Clone, Copy, Drop)]
pub enum Pushed {
    /// The payload is in the stack.
    Done,
    /// No room was free.
    Full,
    /// Another party came between the two steps of the try.
    Busy,
    /// Memory was refused.
    NoMemory,
}

/// A party at its stack, which it owns with others, and the payloads that it took and has not handed out yet.
#[derive(Drop)]
pub struct Pile {
    pub stack: Arc<TransferStack<Carried>, Global>,
    pub party: Party<Carried>,
    pub taken: Stack<Carried>,
    ghost seated: { party.table ≡ arc_value stack },
}
