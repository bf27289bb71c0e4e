//! A run queue whose jobs lie in a pool of nodes: it allocates when it is made, and never again.
ghost use Rattle.std.specs.Prelude.{◌≡◌, ◌+◌, ◌<◌, ◌^◌, [], ◌∷◌, ◌++◌, length, IfOk, MatchOption, MatchResult};

use crate::job::Job;
use cordyceps::{List, Node};
use std::alloc::{AllocError, Global};

/// A run queue of at most as many jobs as it has nodes. A node without a job waits in the pool, and gets the next job.
#[derive(Drop)]
pub struct PooledQueue {
    /// The nodes without a job. Their numbers and values mean nothing.
    pub pool: List<Job>,
    /// The jobs, in the order in which they came.
    pub ready: List<Job>,
    // So no list gets too long.
    ghost few: { length pool + length ready + 1 < 2 ^ 64 },
}

impl PooledQueue {
    /// Creates a run queue of so many nodes. Requires that they are fewer than `usize::MAX`.
    ///
    /// # Errors
    /// If memory is refused, it returns `AllocError`, and the nodes that it had made are freed.
    ///
    /// # Complexity
    /// O(`nodes`), with one allocation a node.
    pub fn new(alloc: Global, nodes: usize) -> Result<PooledQueue, AllocError>
        requires { nodes < usize.MAX }
        ensures { IfOk result (λ q. (length q.pool ≡ nodes) × (q.ready ≡ [])) }
    {
        let mut pool: List<Job> = List::new();
        for _ in 0..nodes {
            let Ok(node) = Node::new(alloc, 0, Job { rank: 0 }) else {
                return Err(AllocError);
            };
            pool.push_back(node);
        }
        let ready = List::new();
        Ok(PooledQueue { pool, ready })
    }

    /// Appends a job with a number, in a node of the pool. Allocates nothing.
    ///
    /// # Errors
    /// If no node is left in the pool, the job is returned, and nothing changes.
    ///
    /// # Complexity
    /// O(1).
    pub fn start(&mut self, id: u64, job: Job) -> Result<(), Job>
        ensures { MatchResult result
            (λ _. (self.new.ready ≡ self.old.ready ++ record { id = id; value = job } ∷ [])
            × (length self.new.pool + 1 ≡ length self.old.pool))
            (λ back. (back ≡ job) × (self.old.pool ≡ []) × (self.new ≡ self.old)) }
    {
        let Some(mut node) = self.pool.pop_front() else {
            return Err(job);
        };
        node.set_id(id);
        *node.get_mut() = job;
        self.ready.push_back(node);
        Ok(())
    }

    /// Removes the first job and returns its number and its value, or `None` if there is no job. Its node goes back to
    /// the pool. Allocates nothing.
    ///
    /// # Complexity
    /// O(1).
    pub fn next(&mut self) -> Option<(u64, Job)>
        ensures { MatchOption result
            ((self.old.ready ≡ []) × (self.new ≡ self.old))
            (λ n. (self.old.ready ≡ record { id = n.0; value = n.1 } ∷ self.new.ready)
            × (length self.new.pool ≡ length self.old.pool + 1)) }
    {
        let node = self.ready.pop_front()?;
        let first = (node.id(), *node.get());
        self.pool.push_front(node);
        Some(first)
    }
}
