//! Tasks that pass through a stack, a stack that threads share, a sorted list and a list, and stay in the nodes in
//! which they were created.
ghost use Rattle.std.specs.Prelude.{◌≡◌, ◌<◌, ◌≤◌, [], ◌∷◌, ◌++◌, length, reverse, IfErr, IfOk};
ghost use Rattle.cordyceps.specs.Parties.Histories.{plain};
ghost use Rattle.cordyceps.specs.Parties.Shares.{whole};
ghost use Rattle.cordyceps.specs.Transfers.History.{held};
ghost use Rattle.cordyceps_uses.specs.Tasks.{IsSchedule};

use cordyceps::sorted_list::Least;
use cordyceps::stack::{Links, MAX_ROOMS, Party};
use cordyceps::{Kind, Linked, List, Node, SortedList, Stack, TransferStack};
use std::alloc::Global;
use std::sync::Wait;

/// A task. Tasks are compared only by their ranks, and the least rank is the most urgent.
#[derive(Drop)]
#[derive_where(PartialEq, Eq, PartialOrd, Ord)]
pub struct Task {
    pub rank: u64,
    #[derive_where(skip)]
    pub number: u64,
}

/// Tasks can be linked into collections of any kind. Stacks, sorted lists and the stacks that threads share link the
/// same kind of node. `Node::into_kind` converts it into a node for lists or queues.
impl<L: Kind> Linked<L> for Task {
    type Handle = Node<Task, L>;

    ghost element = { λ h. h };

    fn into_ptr(handle: Node<Task, L>) -> Node<Task, L> {
        handle
    }

    fn from_ptr(node: Node<Task, L>) -> Node<Task, L>
        ensures { result ≡ node }
    {
        node
    }
}

/// Pushes tasks, one after the other, by a whole party: no other party pushes or takes meanwhile.
fn push_all<R: Wait>(
    rt: &R,
    shared: &TransferStack<Task>,
    mut party: Party<Task>,
    tasks: Stack<Task>,
) -> Party<Task>
    requires table { party.table ≡ shared.now }
    requires room { length tasks ≤ party.rooms }
    requires alone { party.share ≡ whole }
    ensures held { held (plain result.seen) ≡ held (plain party.seen) ++ tasks }
    ensures table { result.table ≡ party.table }
    ensures share { result.share ≡ party.share }
{
    for task in tasks {
        shared.push(rt, &mut party, task);
    }
    party
}

/// Sends tasks through a stack that threads share, and returns them sorted: the task with the least rank comes first,
/// and equals come in the order in which they were pushed onto `tasks`. The tasks stay in the nodes that they have.
///
/// The shared stack needs a room for each task: requires that `rooms` is at least the number of tasks, and at most
/// `MAX_ROOMS`.
///
/// # Errors
/// If memory for the shared stack is refused, the tasks are returned.
///
/// # Complexity
/// O(`rooms` + n^2), for n tasks: each is inserted into a sorted list, which is O(n) at worst.
///
/// # Waits
/// Never. The party of the shared stack is whole, so each push succeeds at its first try.
pub fn schedule<R: Wait>(
    rt: &R,
    alloc: Global,
    tasks: Stack<Task>,
    rooms: usize,
) -> Result<SortedList<Task, Least>, Stack<Task>>
    requires room { length tasks ≤ rooms }
    requires few { rooms ≤ MAX_ROOMS }
    ensures schedule { IfOk result (λ list. IsSchedule (reverse tasks) list.elements) }
    ensures back { IfErr result (λ back. back ≡ tasks) }
{
    let Ok((shared, party)) = TransferStack::new(alloc, rooms) else {
        return Err(tasks);
    };
    let party = push_all(rt, &shared, party, tasks);
    let came = shared.close(party);
    Ok(SortedList::from_stack_min(came))
}

/// Appends a task that came out of a stack to a list. The task's node is converted into one for lists: nothing is
/// allocated or freed. Requires that the list has a length below `usize::MAX`.
///
/// # Complexity
/// O(1).
pub fn move_to_list(list: &mut List<Task>, node: Node<Task, Links<Task>>)
    requires { length list.old < usize.MAX }
    ensures { list.new ≡ list.old ++ node ∷ [] }
{
    list.push_back(node.into_kind());
}
