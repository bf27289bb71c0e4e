//! An inbox, and how sending ends.
ghost use Rattle.std.specs.Arc.{arc_value};
ghost use Rattle.std.specs.Prelude.{◌≡◌};

use cordyceps_c_base::carried::Carried;
use cordyceps_queue::mpsc_queue::{MpscQueue, Party};
use std::alloc::Global;
use std::sync::Arc;

/// How sending ended.
#[derive(Clone, Copy, Drop)]
pub enum Sent {
    /// The payload is in the queue.
    Done,
    /// No room was free.
    Full,
    /// Memory was refused.
    NoMemory,
}

/// How many rooms a handle has at most once it has received.
pub const KEPT: usize = 16;

/// A party at its queue, which it owns with others.
#[derive(Drop)]
pub struct Inbox {
    pub queue: Arc<MpscQueue<Carried>, Global>,
    pub party: Party<Carried>,
    ghost seated: { party.table ≡ (arc_value queue).table },
}
