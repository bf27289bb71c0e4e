//! A run queue whose jobs lie in a pool of nodes: which jobs it takes, and that it allocates only when it is made.
use crate::compared::same;
use cordyceps_uses::job::Job;
use cordyceps_uses::pooled_queue::PooledQueue;
use std::alloc::AllocError;

// `tools/refusals` counts the requests of this test: the two nodes, and none of the three thousand jobs.
#[test]
fn a_run_queue_allocates_when_it_is_made(rt: HostRuntime) -> Result<(), AllocError> {
    let first = Job { rank: 7 };
    let second = Job { rank: 5 };
    let mut queue = PooledQueue::new(rt.alloc(), 2)?;
    same(&rt, queue.next(), None);
    for _ in 0..1000 {
        same(&rt, queue.start(1, first).err(), None);
        same(&rt, queue.start(2, second).err(), None);
        same(&rt, queue.start(3, first).err(), Some(first));
        same(&rt, queue.next(), Some((1, first)));
        same(&rt, queue.start(3, first).err(), None);
        same(&rt, queue.next(), Some((2, second)));
        same(&rt, queue.next(), Some((3, first)));
        same(&rt, queue.next(), None);
    }
    Ok(())
}
