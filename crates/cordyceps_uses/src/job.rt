//! An element type of the user's own.
ghost use Rattle.std.specs.Prelude.{◌≡◌};

use cordyceps::{Kind, Linked, Node};

/// A job. Jobs are compared by their ranks, and the job with the least rank is to be done first.
#[derive(Clone, Copy, Debug, PartialEq, Eq, PartialOrd, Ord)]
pub struct Job {
    /// The urgency of the job: the least rank is the most urgent.
    pub rank: u32,
}

/// Jobs can be linked into collections of any kind. The handle of a job is a node of that kind.
impl<L: Kind> Linked<L> for Job {
    type Handle = Node<Job, L>;

    ghost element = { λ node. node };

    fn into_ptr(node: Node<Job, L>) -> Node<Job, L> {
        node
    }

    fn from_ptr(node: Node<Job, L>) -> Node<Job, L>
        ensures { result ≡ node }
    {
        node
    }
}
