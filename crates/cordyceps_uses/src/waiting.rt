//! Jobs that wait in a list behind a lock, and the tickets by which threads take them.
ghost use Rattle.std.specs.Prelude.{◌≡◌, ◌+◌, ◌<◌, [], ◌∷◌, ◌++◌, length, IfErr, OnOk, OnErr};

use crate::job::Job;
use cordyceps::list::Links;
use cordyceps::{List, Node};
use std::sync::ledger::{Book, Ledger, Share};

/// Jobs that wait, the one that came first at the front. For each job there is a ticket in the share of a thread, so a
/// thread that has a ticket gets a job.
///
/// Threads share it in a `Mutex`. The amount of a share of the ledger `L` is the number of its tickets. Tickets have no
/// bytes: they exist only in contracts.
#[derive(Drop)]
pub struct Waiting<L: Ledger> {
    /// The jobs, in the order in which they came.
    pub jobs: List<Job>,
    /// The book of all tickets.
    pub tickets: Book<L>,
    // This is true whenever the lock is free.
    ghost counted: { tickets.total ≡ length jobs },
}

impl<L: Ledger> Waiting<L> {
    /// Creates an empty list. Requires that the ledger has no tickets. Allocates nothing.
    ///
    /// # Complexity
    /// O(1).
    pub fn new(tickets: Book<L>) -> Waiting<L>
        requires { tickets.total ≡ 0 }
        ensures { result.jobs ≡ [] }
    {
        Waiting {
            jobs: List::new(),
            tickets,
        }
    }

    /// Appends a job, and adds a ticket to the share. Requires that the share has a part of the ledger. Allocates
    /// nothing.
    ///
    /// # Errors
    /// If `usize::MAX` jobs wait, the job is returned, and nothing changes.
    ///
    /// # Complexity
    /// O(1).
    pub fn put(
        &mut self,
        mine: &mut Share<L>,
        job: Node<Job, Links<Job>>,
    ) -> Result<(), Node<Job, Links<Job>>>
        requires { 0 < mine.old.parts }
        ensures put { OnOk result ((self.new.jobs ≡ self.old.jobs ++ job ∷ [])
            × (mine.new.amount ≡ mine.old.amount + 1)) }
        ensures full { OnErr result ((length self.old.jobs ≡ usize.MAX) × (self.new.jobs ≡ self.old.jobs)
            × (mine.new.amount ≡ mine.old.amount)) }
        ensures back { IfErr result (λ back. back ≡ job) }
        ensures parts { mine.new.parts ≡ mine.old.parts }
    {
        self.jobs.try_push_back(job)?;
        self.tickets.add(mine, 1);
        Ok(())
    }

    /// Removes the job that has waited longest and returns it, for a ticket of the share. Requires that the share has a
    /// ticket.
    ///
    /// # Complexity
    /// O(1).
    pub fn take(&mut self, mine: &mut Share<L>) -> Node<Job, Links<Job>>
        requires { 0 < mine.old.amount }
        ensures longest { self.old.jobs ≡ result ∷ self.new.jobs }
        ensures ticket { mine.new.amount + 1 ≡ mine.old.amount }
        ensures parts { mine.new.parts ≡ mine.old.parts }
    {
        // The audit proves that there are at least as many tickets as this share has, so a job waits.
        self.tickets.audit(mine);
        let Some(job) = self.jobs.pop_front() else {
            unreachable!()
        };
        self.tickets.sub(mine, 1);
        job
    }

    /// Returns the jobs that wait. Requires the whole share, which has as many tickets as there are jobs.
    ///
    /// # Complexity
    /// O(1).
    pub fn into_jobs(self, all: &mut Share<L>) -> List<Job>
        requires { all.old.parts ≡ L.parts }
        ensures jobs { result ≡ self.jobs }
        ensures tickets { length result ≡ all.old.amount }
    {
        let Waiting { jobs, mut tickets } = self;
        tickets.audit(all);
        jobs
    }
}
