//! Handles that are not nodes, and that become handles for collections of another kind.
ghost use Rattle.std.specs.Prelude.{◌≡◌};

use crate::compared::{made, same};
use cordyceps_base::linked::{Linked, change_kind};
use cordyceps_base::node::{Kind, Node};
use cordyceps_base::{list, mpsc_queue, stack};
use cordyceps_list::list::List;
use test_support::nodes::node_of;

/// What is to be done, and what it costs.
#[derive(Drop)]
struct Job {
    cost: u64,
}

/// The handle of a job.
#[derive(Drop)]
struct JobHandle<L> {
    node: Node<Job, L>,
}

impl<L: Kind> Linked<L> for Job {
    type Handle = JobHandle<L>;

    ghost element = { λ h. h.node };

    fn into_ptr(handle: JobHandle<L>) -> Node<Job, L> {
        handle.node
    }

    fn from_ptr(node: Node<Job, L>) -> JobHandle<L>
        ensures { result.node ≡ node }
    {
        JobHandle { node }
    }
}

#[test]
fn a_handle_becomes_one_of_each_kind(rt: HostRuntime) {
    let mut list: List<Job> = List::new();
    let node = made(&rt, node_of(rt.alloc(), 3, Job { cost: 30 }));
    list.push_back(JobHandle { node });
    let Some(of_list) = list.pop_front() else {
        panic!(rt; "a job was pushed");
    };
    let of_stack = change_kind::<list::Links<Job>, stack::Links<Job>, Job>(of_list);
    same(&rt, (of_stack.node.id(), of_stack.node.get().cost), (3, 30));
    let of_queue = change_kind::<stack::Links<Job>, mpsc_queue::Links<Job>, Job>(of_stack);
    same(&rt, (of_queue.node.id(), of_queue.node.get().cost), (3, 30));
    list.push_back(change_kind::<mpsc_queue::Links<Job>, list::Links<Job>, Job>(of_queue));
    match list.front() {
        Some(job) => same(&rt, job.cost, 30),
        None => panic!(rt; "a job was pushed"),
    }
}
