//! What holds of each run of steps on a queue.
ghost use Rattle.std.specs.Prelude.{◌++◌, IfOk, OnErr};
ghost use Rattle.cordyceps.specs.Parties.Counts.{Same};
ghost use Rattle.cordyceps_disk.specs.Runs.{Ran, Stopped, in_queue, put_in};

use crate::queue::DiskQueue;
use crate::request::Request;
use std::alloc::{AllocError, Global};

/// What is done to a queue: a request comes in, or the next one is served at a time.
#[derive(Drop)]
pub enum Step<P> {
    Submit(Request<P>),
    Serve(u64),
}

/// Carries steps out, one after the other, and gives the requests that were served, in that order: each request that
/// waited or was put in was served once, or waits.
///
/// # Errors
/// Where memory is refused, the requests that were served and those of the steps that are left are dropped. All others
/// wait.
pub fn carry_out<P: Drop>(
    alloc: Global,
    queue: &mut DiskQueue<P>,
    steps: Vec<Step<P>>,
) -> Result<Vec<Request<P>>, AllocError>
    ensures ran { IfOk result (λ served. Ran steps.items queue.old served.items queue.new) }
    ensures each_once { IfOk result (λ served.
        Same (served.items ++ in_queue queue.new) (put_in steps.items ++ in_queue queue.old)) }
    ensures stopped { OnErr result (Stopped steps.items queue.old queue.new) }
{
    let mut served = Vec::new(alloc);
    for step in steps {
        match step {
            Step::Submit(request) => match queue.submit(alloc, request) {
                Ok(_) => {}
                Err(_) => return Err(AllocError),
            },
            Step::Serve(now) => match queue.next(now) {
                Some(request) => served.push(request)?,
                None => {}
            },
        }
    }
    Ok(served)
}
