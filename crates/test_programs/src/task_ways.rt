//! Tasks on their way through collections.
use crate::compared::same;
use crate::made::{at_most, node};
use cordyceps::{List, Stack};
use cordyceps_uses::tasks::{Task, move_to_list, schedule};

#[test]
fn urgent_tasks_come_first(rt: HostRuntime) {
    let mut tasks = Stack::new();
    tasks.push(node(&rt, rt.alloc(), 1, Task { rank: 2, number: 1 }));
    tasks.push(node(&rt, rt.alloc(), 2, Task { rank: 1, number: 2 }));
    tasks.push(node(&rt, rt.alloc(), 3, Task { rank: 2, number: 3 }));
    tasks.push(node(&rt, rt.alloc(), 4, Task { rank: 1, number: 4 }));
    let Ok(mut ordered) = schedule(&rt, rt.alloc(), tasks, 4) else {
        panic!(rt; "no memory for a stack");
    };
    for wanted in [Some((2, 2)), Some((4, 4)), Some((1, 1)), Some((3, 3)), None] {
        let came = match ordered.pop_front() {
            Some(node) => Some((node.id(), node.get().number)),
            None => None,
        };
        same(&rt, came, wanted);
    }
}

#[test]
fn a_task_goes_into_a_list(rt: HostRuntime) {
    let mut list: List<Task> = List::new();
    for number in [7, 8] {
        at_most(&rt, list.len() as u64, 1);
        let task = Task { rank: 5, number };
        move_to_list(&mut list, node(&rt, rt.alloc(), number, task));
    }
    for wanted in [Some((7, 5, 7)), Some((8, 5, 8)), None] {
        let came = match list.pop_front() {
            Some(node) => Some((node.id(), node.get().rank, node.get().number)),
            None => None,
        };
        same(&rt, came, wanted);
    }
}
