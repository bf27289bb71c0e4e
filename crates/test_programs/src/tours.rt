//! A few lines with each collection, and what they return.
ghost use Rattle.std.specs.Prelude.{◌≡◌, ◌+◌, ◌<◌};
ghost use Rattle.cordyceps.specs.Elements.Nodes.{spots};
ghost use Rattle.cordyceps.specs.Spots.Spots.{AreDistinct};

use crate::compared::{made, same};
use crate::made::node;
use cordyceps::{List, StableList};
use cordyceps_uses::job::Job;
use cordyceps_uses::tour::{
    give_back, hand_over, least_rank, next_job, rotate, send, submit, take_least, take_the_second,
};
use cordyceps_uses::waiting::Waiting;
use std::alloc::Global;
use std::marker::Brand;
use std::process::Abort;
use std::sync::ledger::{Blank, Ledger, Share};
use std::sync::{Mutex, Wait};
use test_support::nodes::number;

#[test]
fn lists(rt: HostRuntime) {
    let second = made(&rt, take_the_second(rt.alloc()));
    let second = match second {
        Some(job) => Some((job.id(), job.get().rank)),
        None => None,
    };
    let mut jobs: List<Job> = List::new();
    jobs.push_back(node(&rt, rt.alloc(), 1, Job { rank: 0 }));
    jobs.push_back(node(&rt, rt.alloc(), 2, Job { rank: 0 }));
    rotate(&mut jobs);
    let first = number(jobs.pop_front());
    same(&rt, (second, first, jobs.len()), (Some((2, 3)), Some(2), 1));
}

/// Returns a stable list of jobs with these ranks, which are numbered from 1 on.
fn ranked(rt: &impl Abort, alloc: Global, ranks: &[u32]) -> StableList<Job>
    ensures { AreDistinct (spots result) }
{
    let mut jobs: StableList<Job> = StableList::new();
    let mut number = 0u64;
    for rank in ranks {
        number = number.wrapping_add(1);
        if jobs
            .try_push_back(node(rt, alloc, number, Job { rank: *rank }))
            .is_err()
        {
            panic!(rt; "the list is full");
        }
    }
    jobs
}

/// Removes all jobs from a list, and compares their numbers with those that are wanted.
fn takes_all(rt: &impl Abort, alloc: Global, ranks: &[u32], wanted: &[u64]) {
    let mut jobs = ranked(rt, alloc, ranks);
    for wanted in wanted {
        same(rt, number(take_least(&mut jobs)), Some(*wanted));
    }
    same(rt, number(take_least(&mut jobs)), None);
}

#[test]
fn the_least_job_comes_first(rt: HostRuntime) {
    for (ranks, wanted) in [
        ([].as_slice(), [].as_slice()),
        (&[7], &[1]),
        (&[1, 2, 3], &[1, 2, 3]),
        (&[3, 2, 1], &[3, 2, 1]),
        (&[5, 3, 9, 3], &[2, 4, 1, 3]),
    ] {
        takes_all(&rt, rt.alloc(), ranks, wanted);
    }
}

/// Submits a job with this number, which is not refused.
fn submits<L: Ledger>(
    rt: &(impl Abort + Wait),
    alloc: Global,
    waiting: &Mutex<Waiting<L>>,
    mine: &mut Share<L>,
    number: u64,
)
    requires { 0 < mine.old.parts }
    ensures ticket { mine.new.amount ≡ mine.old.amount + 1 }
    ensures parts { mine.new.parts ≡ mine.old.parts }
{
    let job = node(rt, alloc, number, Job { rank: 0 });
    match submit(rt, waiting, mine, job) {
        Ok(()) => {}
        Err(_) => panic!(rt; "the list is full"),
    }
}

/// Submits three jobs, takes two for their tickets, and finds the third left, of a new ledger.
fn submits_and_takes<L: Ledger>(rt: &(impl Abort + Wait), alloc: Global, blank: Blank)
    requires { (blank.name ≡ L.name) × (blank.parts ≡ L.parts) × (L.parts ≡ 1) }
{
    let (book, mut mine) = blank.open::<L>();
    let waiting = Mutex::new(Waiting::new(book));
    submits(rt, alloc, &waiting, &mut mine, 1);
    submits(rt, alloc, &waiting, &mut mine, 2);
    submits(rt, alloc, &waiting, &mut mine, 3);
    let first = next_job(rt, &waiting, &mut mine).id();
    let second = next_job(rt, &waiting, &mut mine).id();
    let mut left = waiting.into_inner().into_jobs(&mut mine);
    same(rt, (first, second, left.len()), (1, 2, 1));
    same(rt, number(left.pop_front()), Some(3));
}

#[test]
fn a_list_behind_a_lock(rt: HostRuntime) {
    submits_and_takes::<Brand>(&rt, rt.alloc(), Blank::new(1));
}

/// Asserts the order of two jobs that a stack hands over, and then of two that a queue sends.
fn come_in_order(rt: &(impl Abort + Wait), alloc: Global, job: Job) {
    let mut numbers = [4, 3, 5, 6].iter();
    let (first, second) = (node(rt, alloc, 3, job), node(rt, alloc, 4, job));
    for job in made(rt, hand_over(rt, alloc, first, second)) {
        same(rt, Some(&job.id()), numbers.next());
    }
    let (first, second) = (node(rt, alloc, 5, job), node(rt, alloc, 6, job));
    if let Some(batch) = made(rt, send(alloc, first, second)) {
        for job in batch {
            same(rt, Some(&job.id()), numbers.next());
        }
    }
    same(rt, numbers.next(), None);
}

#[test]
fn stacks_and_queues(rt: HostRuntime) {
    let (alloc, job) = (rt.alloc(), Job { rank: 10 });
    let first = node(&rt, alloc, 2, Job { rank: 20 });
    same(&rt, least_rank(first, node(&rt, alloc, 1, job)), Some(10));
    come_in_order(&rt, alloc, job);
    let (near, far) = (node(&rt, alloc, 7, job), node(&rt, alloc, 8, job));
    let back = made(&rt, give_back(alloc, near, far));
    same(&rt, number(back), Some(7));
}
