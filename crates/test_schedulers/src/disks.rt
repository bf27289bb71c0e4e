//! Queues of disk requests: which one comes next, what is dropped, and runs of many operations beside a plain vector.
use crate::compared::{made, same};
use crate::made::{counted, no_drops};
use cordyceps_disk::laws::{Step, carry_out};
use cordyceps_disk::queue::DiskQueue;
use cordyceps_disk::request::Request;
use std::alloc::{AllocError, Global};
use std::process::Abort;
use test_support::counted::{Counted, Drops};
use test_support::draws::Draws;

/// A call of a queue of requests that count their drops.
#[derive(Clone, Copy)]
enum Call {
    /// Submits a request with this number, sector and deadline.
    Submit(u64, u64, u64),
    /// Submits such a request, looks at it, and cancels it.
    Cancel(u64, u64, u64),
    /// At this time the request with this number comes, or none.
    Next(u64, Option<u64>),
    /// So many requests wait.
    Len(usize),
}

/// Submits a request and cancels it, and asserts that it comes back and that this drops nothing.
fn submits_and_cancels(
    rt: &impl Abort,
    alloc: Global,
    queue: &mut DiskQueue<Counted>,
    request: Request<Counted>,
    drops: &Drops,
) {
    let wanted = (request.sector, request.deadline, request.payload.value);
    let dropped = drops.count();
    let Ok(spot) = queue.submit(alloc, request) else {
        panic!(rt; "no memory for a request");
    };
    same(rt, queue.get(spot).payload.value, wanted.2);
    let back = queue.cancel(spot);
    let came = (back.sector, back.deadline, back.payload.value);
    same(rt, (came, drops.count()), (wanted, dropped));
}

/// Makes a call, and compares what it returns with what is wanted.
fn does(rt: &impl Abort, alloc: Global, queue: &mut DiskQueue<Counted>, call: Call, drops: &Drops) {
    match call {
        Call::Submit(number, sector, deadline) => {
            let payload = counted(rt, number, drops);
            let put = queue.submit(
                alloc,
                Request {
                    sector,
                    deadline,
                    payload,
                },
            );
            same(rt, put.is_ok(), true);
        }
        Call::Cancel(number, sector, deadline) => {
            let payload = counted(rt, number, drops);
            let request = Request {
                sector,
                deadline,
                payload,
            };
            submits_and_cancels(rt, alloc, queue, request, drops);
        }
        Call::Next(now, wanted) => {
            let came = match queue.next(now) {
                Some(request) => Some(request.payload.value),
                None => None,
            };
            same(rt, (now, came), (now, wanted));
        }
        Call::Len(len) => same(rt, (queue.len(), queue.is_empty()), (len, len == 0)),
    }
}

/// Requests that come upwards, but for those overdue.
const UPWARDS: [Call; 17] = [
    Call::Submit(1, 50, 100),
    Call::Submit(2, 10, 90),
    Call::Submit(3, 70, 80),
    Call::Submit(4, 30, 70),
    Call::Submit(5, 50, 60),
    Call::Len(5),
    // upwards from the sector 0; then the one overdue, of two at the sector 50, and then the other one
    Call::Next(0, Some(2)),
    Call::Next(0, Some(4)),
    Call::Next(61, Some(5)),
    Call::Next(61, Some(1)),
    Call::Submit(6, 20, 200),
    Call::Submit(7, 50, 40),
    // from the sector 50 on, and then again from the lowest one
    Call::Next(30, Some(7)),
    Call::Next(30, Some(3)),
    Call::Next(30, Some(6)),
    Call::Next(30, None),
    Call::Len(0),
];

/// The earliest deadline goes first. A deadline of now has not passed; of two with one deadline the one that came first
/// goes first.
const OVERDUE: [Call; 8] = [
    Call::Submit(1, 9, 5),
    Call::Submit(2, 3, 5),
    Call::Submit(3, 6, 4),
    Call::Submit(4, 6, 9),
    Call::Next(5, Some(3)),
    Call::Next(6, Some(1)),
    Call::Next(6, Some(2)),
    Call::Next(6, Some(4)),
];

/// A request that is cancelled. Neither order has it still.
const CANCELLED: [Call; 5] = [
    Call::Submit(1, 4, 10),
    Call::Submit(2, 8, 20),
    Call::Cancel(3, 6, 5),
    Call::Len(2),
    Call::Next(6, Some(1)),
];

#[test]
fn requests_come_in_order_and_are_dropped_once(rt: HostRuntime) {
    for (calls, came, made) in [
        (UPWARDS.as_slice(), 7, 7),
        (OVERDUE.as_slice(), 4, 4),
        (CANCELLED.as_slice(), 2, 3),
    ] {
        let drops = no_drops(&rt, rt.alloc());
        let mut queue = DiskQueue::new();
        for call in calls {
            does(&rt, rt.alloc(), &mut queue, *call, &drops);
        }
        same(&rt, drops.count(), came);
        drop(queue);
        same(&rt, drops.count(), made);
    }
}

/// Returns a request for a sector, whose payload is its number.
fn request(number: u64, sector: u64, deadline: u64) -> Request<u64> {
    Request {
        sector,
        deadline,
        payload: number,
    }
}

/// Submits a request, and asks again where memory was refused once.
fn submit_again(
    queue: &mut DiskQueue<u64>,
    alloc: Global,
    request: Request<u64>,
) -> Result<(), AllocError> {
    let Err(refused) = queue.submit(alloc, request) else {
        return Ok(());
    };
    match queue.submit(alloc, refused.value) {
        Ok(_) => Ok(()),
        Err(_) => Err(AllocError),
    }
}

/// Asserts which request comes at a time: its sector, deadline and number.
fn next(rt: &impl Abort, queue: &mut DiskQueue<u64>, now: u64, wanted: Option<(u64, u64, u64)>) {
    same(rt, parts(queue.next(now)), wanted);
}

#[test]
fn a_request_that_was_refused_memory_is_put_in_again(rt: HostRuntime) -> Result<(), AllocError> {
    let mut queue = DiskQueue::new();
    submit_again(&mut queue, rt.alloc(), request(1, 5, 2))?;
    submit_again(&mut queue, rt.alloc(), request(2, 3, 1))?;
    same(&rt, queue.len(), 2);
    next(&rt, &mut queue, 3, Some((3, 1, 2)));
    next(&rt, &mut queue, 0, Some((5, 2, 1)));
    next(&rt, &mut queue, 3, None);
    Ok(())
}

#[test]
fn steps_are_carried_out_in_turn(rt: HostRuntime) {
    let steps = [
        Step::Submit(request(1, 5, 50)),
        Step::Submit(request(2, 3, 60)),
        Step::Submit(request(3, 9, 10)),
        Step::Submit(request(4, 2, 70)),
        // upwards from the sector 2, then the one overdue, and then again from the lowest
        Step::Serve(0),
        Step::Serve(20),
        Step::Serve(20),
    ];
    let steps = made(&rt, Vec::from_array(rt.alloc(), steps));
    let mut queue = DiskQueue::new();
    let mut wanted = [4, 3, 2].iter();
    for request in made(&rt, carry_out(rt.alloc(), &mut queue, steps)) {
        same(&rt, Some(&request.payload), wanted.next());
    }
    same(&rt, wanted.next(), None);
    next(&rt, &mut queue, 20, Some((5, 50, 1)));
}

/// A queue, and a vector that should hold the same requests, as sector, deadline and number, in the order in which
/// they came.
#[derive(Drop)]
struct Both {
    queue: DiskQueue<u64>,
    plain: Vec<(u64, u64, u64)>,
    head: u64,
    /// How many requests were made. Each has its number among them as its own.
    made: u64,
}

/// A place in the vector, and what decides between it and others: the least comes first.
type Found = Option<(usize, u64)>;

/// Keeps the place that was found first of those with the least key.
fn keep_least(found: &mut Found, at: usize, key: u64) {
    if let Some((_, least)) = found
        && *least <= key
    {
        return;
    }
    *found = Some((at, key));
}

impl Both {
    /// Submits a drawn request to both.
    fn submit(&mut self, rt: &impl Abort, alloc: Global, draws: &mut Draws) {
        let (sector, deadline, number) = (draws.below(24), draws.below(48), self.made);
        self.made = number.wrapping_add(1);
        let listed = self.plain.push((sector, deadline, number));
        let put = self.queue.submit(alloc, request(number, sector, deadline));
        same(rt, (listed.is_ok(), put.is_ok()), (true, true));
    }

    /// Removes the one that should be next from the vector, and returns it.
    fn wanted(&mut self, now: u64) -> Option<(u64, u64, u64)> {
        let (mut overdue, mut above, mut below): (Found, Found, Found) = (None, None, None);
        for (at, (sector, deadline, _)) in self.plain.iter().enumerate() {
            if *deadline < now {
                keep_least(&mut overdue, at, *deadline);
            } else if *sector >= self.head {
                keep_least(&mut above, at, *sector);
            } else {
                keep_least(&mut below, at, *sector);
            }
        }
        let (at, _) = overdue.or(above).or(below)?;
        if at < self.plain.len() {
            return Some(self.plain.remove(at));
        }
        None
    }

    /// Removes the next one from both.
    fn next(&mut self, rt: &impl Abort, now: u64) {
        let wanted = self.wanted(now);
        next(rt, &mut self.queue, now, wanted);
        if let Some((sector, _, _)) = wanted {
            self.head = sector;
        }
    }

    /// Cancels in both the one that would be next.
    fn cancel(&mut self, rt: &impl Abort, now: u64) {
        let wanted = self.wanted(now);
        let came = match self.queue.peek(now) {
            Some(spot) => Some(self.queue.cancel(spot)),
            None => None,
        };
        same(rt, parts(came), wanted);
    }

    /// Does one operation on both, which is drawn.
    fn operate(&mut self, rt: &impl Abort, alloc: Global, draws: &mut Draws) {
        let now = draws.below(48);
        match draws.below(8) {
            0 | 1 | 2 | 3 => self.submit(rt, alloc, draws),
            4 => self.next(rt, now),
            5 => self.next(rt, 0),
            6 => self.cancel(rt, now),
            _ => self.cancel(rt, 48),
        }
        same(rt, self.queue.len(), self.plain.len());
    }
}

/// Returns the sector, the deadline and the number of a request, if there is one.
fn parts(request: Option<Request<u64>>) -> Option<(u64, u64, u64)> {
    match request {
        Some(request) => Some((request.sector, request.deadline, request.payload)),
        None => None,
    }
}

#[test]
fn many_operations_do_what_they_do_to_a_vector(rt: HostRuntime) {
    for start in 0..8u64 {
        let mut draws = Draws::new(start);
        let mut both = Both {
            queue: DiskQueue::new(),
            plain: Vec::new(rt.alloc()),
            head: 0,
            made: 0,
        };
        for _ in 0..2000u64 {
            both.operate(&rt, rt.alloc(), &mut draws);
        }
        for now in 0..48u64 {
            both.next(&rt, now);
        }
    }
}
