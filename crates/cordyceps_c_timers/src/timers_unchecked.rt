//! The calls of timers by spots, which nothing checks.
ghost use Rattle.std.specs.Prelude.{◌≡◌};
ghost use Rattle.cordyceps_base.specs.BySpot.{HasSpot};
ghost use Rattle.cordyceps_c_timers.specs.Timers.{StartsAt, StopsAt, RestartsAt};

use crate::timers::{Fired, Timer, Timers, into_fired};
use cordyceps_base::node::Node;
use cordyceps_c_base::tickets::Ticket;
use cordyceps_stable::stable_list::Spot;
use std::alloc::Global;

impl Timers {
    /// Starts a timer without a ticket and returns its spot, which stays the same while it runs. Returns `None` if
    /// memory is refused or `usize::MAX` timers run, and the timers are unchanged. Allocates one node.
    ///
    /// # Complexity
    /// O(1).
    pub fn start_unchecked(&mut self, alloc: Global, deadline: u64, payload: u64) -> Option<Spot>
        ensures { StartsAt deadline payload result self.old self.new }
    {
        if self.queue.len() == usize::MAX {
            return None;
        }
        let none = Ticket::none();
        let timer = Timer {
            due: deadline.max(self.queue.now()),
            deadline,
            payload,
            slot: none.slot,
        };
        let Ok(timer) = Node::new(alloc, none.number, timer) else {
            return None;
        };
        Some(self.queue.push(timer))
    }

    /// Removes the timer at `at`, frees its node and returns it. Requires that a timer runs there.
    ///
    /// # Complexity
    /// O(1).
    pub fn stop_unchecked(&mut self, at: Spot) -> Fired
        requires { HasSpot self.old.nodes at }
        ensures { StopsAt at result self.old self.new }
    {
        self.queue.spots_are_distinct();
        let timer = self.queue.remove(at);
        into_fired(timer, &mut self.tickets)
    }

    /// Gives another deadline to the timer at `at`, as if it were started now. Requires that a timer runs there.
    ///
    /// # Complexity
    /// O(1).
    pub fn restart_unchecked(&mut self, at: Spot, deadline: u64)
        requires { HasSpot self.old.nodes at }
        ensures { RestartsAt at deadline self.old self.new }
    {
        let due = deadline.max(self.queue.now());
        self.queue.update(
            at,
            move |timer: &mut Timer| -> ()
                ensures due { timer.new.due ≡ due }
                ensures deadline { timer.new.deadline ≡ deadline }
                ensures payload { timer.new.payload ≡ timer.old.payload }
                ensures slot { timer.new.slot ≡ timer.old.slot }
            {
                timer.due = due;
                timer.deadline = deadline;
            },
        );
    }
}
