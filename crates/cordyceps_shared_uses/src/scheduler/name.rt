//! What accounts enter of a task.
ghost use Rattle.std.specs.Prelude.{◌≡◌};
ghost use Rattle.cordyceps_shared_uses.specs.Names.{name_of};

use crate::scheduler::work::Work;
use crate::timers::Timer;
use cordyceps::{Kind, Node};

/// What an account enters of a task that comes or goes: the data that stay the same while it goes from place to place
/// and runs, and the number of rounds that it has run by then.
#[derive(Clone, Copy)]
pub struct Name {
    /// The number of the task's node.
    pub id: u64,
    /// The number of the task.
    pub number: u32,
    /// The number of its rounds.
    pub rounds: u32,
    /// The pause between two rounds, in ticks of the scheduler's time.
    pub pause: u32,
    /// The number of its rounds that were run.
    pub ran: u32,
}

impl Name {
    /// Returns the name of a task.
    ///
    /// # Complexity
    /// O(1).
    pub fn of<K: Kind>(task: &Node<Timer<Work>, K>) -> Name
        ensures { result ≡ name_of task.now }
    {
        let work = &task.get().payload;
        Name {
            id: task.id(),
            number: work.number,
            rounds: work.rounds,
            pause: work.pause,
            ran: work.ran,
        }
    }
}
