//! A few lines with cursors, filters, owned consumers, cores and counts of steps, and what they answer.
use crate::compared::{made, same};
use crate::made::{at_most, node};
use cordyceps::mpsc_queue::TryDequeueError;
use cordyceps::sorted_list::Least;
use cordyceps::{List, SortedList};
use cordyceps_uses::examples::{
    dequeue_around_link, first_two_ranks, insert_counted, move_urgent, push_meanwhile,
    send_to_worker,
};
use cordyceps_uses::job::Job;
use std::alloc::Global;
use std::process::Abort;

/// A list of jobs with these ranks, which are numbered from 1 on.
fn ranked(rt: &impl Abort, alloc: Global, ranks: &[u32]) -> List<Job> {
    let mut jobs: List<Job> = List::new();
    let mut number = 0u64;
    for rank in ranks {
        number = number.wrapping_add(1);
        let put = jobs.try_push_back(node(rt, alloc, number, Job { rank: *rank }));
        same(rt, put.is_ok(), true);
    }
    jobs
}

#[test]
fn the_first_two_ranks(rt: HostRuntime) {
    for (ranks, wanted) in [
        ([].as_slice(), None),
        (&[7], None),
        (&[7, 3], Some((7, 3))),
        (&[7, 3, 5], Some((7, 3))),
    ] {
        let jobs = ranked(&rt, rt.alloc(), ranks);
        same(&rt, (ranks, first_two_ranks(&jobs)), (ranks, wanted));
    }
}

/// Asserts the ranks of a list's jobs, in order.
fn has_ranks(rt: &impl Abort, jobs: &List<Job>, ranks: &[u32]) {
    let mut left = ranks.iter();
    for job in jobs.iter() {
        same(rt, Some(&job.rank), left.next());
    }
    same(rt, left.next(), None);
}

#[test]
fn urgent_jobs_are_moved(rt: HostRuntime) {
    let mut jobs = ranked(&rt, rt.alloc(), &[5, 9, 2, 7, 2]);
    let mut urgent = ranked(&rt, rt.alloc(), &[6]);
    at_most(&rt, jobs.len() as u64, 5);
    at_most(&rt, urgent.len() as u64, 1);
    move_urgent(&mut jobs, 5, &mut urgent);
    has_ranks(&rt, &urgent, &[6, 5, 2, 2]);
    has_ranks(&rt, &jobs, &[9, 7]);
}

#[test]
fn a_worker_gets_its_jobs(rt: HostRuntime) {
    let first = node(&rt, rt.alloc(), 3, Job { rank: 1 });
    let second = node(&rt, rt.alloc(), 4, Job { rank: 0 });
    let mut numbers = [3, 4].iter();
    if let Some(batch) = made(&rt, send_to_worker(rt.alloc(), first, second)) {
        for job in batch {
            same(&rt, Some(&job.id()), numbers.next());
        }
    }
    same(&rt, numbers.next(), None);
}

#[test]
fn cores_take_steps_of_two_parties(rt: HostRuntime) {
    let (early, late) = (Job { rank: 1 }, Job { rank: 2 });
    let taken = made(&rt, push_meanwhile(rt.alloc(), early, late));
    same(&rt, taken.as_slice(), &[early, late]);
    let found = dequeue_around_link(rt.alloc(), early).ok();
    let wanted = (Err(TryDequeueError::Inconsistent), Ok(early));
    same(&rt, found, Some(wanted));
}

#[test]
fn comparisons_are_counted(rt: HostRuntime) {
    let alloc = rt.alloc();
    let mut jobs: SortedList<Job, Least> = SortedList::new_min();
    let counts = [
        insert_counted(&mut jobs, node(&rt, alloc, 0, Job { rank: 5 })),
        insert_counted(&mut jobs, node(&rt, alloc, 0, Job { rank: 3 })),
        insert_counted(&mut jobs, node(&rt, alloc, 0, Job { rank: 5 })),
        insert_counted(&mut jobs, node(&rt, alloc, 0, Job { rank: 4 })),
    ];
    same(&rt, counts, [0, 2, 1, 3]);
}
