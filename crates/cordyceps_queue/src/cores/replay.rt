//! Lists of steps.
ghost use Rattle.std.specs.Prelude.{◌≡◌, ◌≢◌, ◌↔◌, [], None, IsTrue};
ghost use Rattle.cordyceps_queue.specs.Cores.CoreMeets.{Replayed};

use crate::cores::calls::QueueCore;
use crate::cores::replay_end::Replay;
use crate::cores::steps::QueueStep;
use std::alloc::Global;
use std::collections::VecDeque;

/// Takes steps in order, each with the number of its party, and collects what they return. A step that returns
/// `NotThere` counts too, and the next one follows.
///
/// # Errors
/// Memory for a reply is made sure of before its step. If it is refused, the replay stops: that step and those after it
/// are the rest, and the core keeps what the steps before it did.
///
/// # Complexity
/// That of the steps.
pub fn replay<E: Drop>(
    alloc: Global,
    mut core: QueueCore<E>,
    mut steps: VecDeque<(usize, QueueStep<E>)>,
) -> Replay<E>
    ensures run { Replayed steps.items core result.core result.replies.items result.rest.items }
    ensures back { result.back ≡ None }
    ensures stopped { IsTrue result.stopped ↔ (result.rest.items ≢ []) }
{
    let mut replies = Vec::new(alloc);
    while !steps.is_empty() {
        let Ok(()) = replies.reserve(1) else {
            return Replay {
                core,
                replies,
                rest: steps,
                back: None,
                stopped: true,
            };
        };
        if let Some((party, step)) = steps.pop_front() {
            replies.push_reserved(core.step(party, step));
        }
    }
    Replay {
        core,
        replies,
        rest: steps,
        back: None,
        stopped: false,
    }
}
