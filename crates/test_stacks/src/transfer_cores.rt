//! Replays of a transfer stack's core, its calls where memory is refused, and its drops.
use crate::compared::{at_most, same};
use crate::elements::counted;
use crate::scripts::script_of;
use cordyceps_stack::stack::{
    Replay, StepError, TransferAnswer, TransferCore, TransferStep, replay,
};
use std::alloc::{AllocError, Global};
use std::collections::VecDeque;
use std::process::Abort;
use std::test::Fail;
use test_support::counted::{Counted, Drops};

/// Returns a core with three parties, and with a room for each of the parties that are named.
fn three<E: Drop>(alloc: Global, rooms: &[usize]) -> Result<TransferCore<E>, StepError> {
    let mut core = TransferCore::new(alloc);
    for _ in 0..3usize {
        core.add_party()?;
    }
    for party in rooms {
        core.add_room(*party)?;
    }
    Ok(core)
}

/// What a step returns.
type Reply = Result<TransferAnswer<u64>, (StepError, Option<u64>)>;

/// Returns steps of three parties, some of which are refused.
fn script(alloc: Global) -> Result<VecDeque<(usize, TransferStep<u64>)>, AllocError> {
    let steps = [
        (0, TransferStep::Load(1)),
        (1, TransferStep::Load(2)),
        (1, TransferStep::Exchange),
        (1, TransferStep::SetNext),
        (0, TransferStep::SetNext),
        (1, TransferStep::Exchange),
        (0, TransferStep::Exchange),
        (0, TransferStep::Load(1)),
        (0, TransferStep::SetNext),
        (0, TransferStep::Exchange),
        (2, TransferStep::Load(4)),
        (2, TransferStep::Take),
        (1, TransferStep::Take),
        (2, TransferStep::Walk),
        (2, TransferStep::Walk),
        (2, TransferStep::Walk),
    ];
    script_of(alloc, steps)
}

/// What the script's steps return.
const REPLIES: [Reply; 16] = [
    Ok(TransferAnswer::Done),
    Ok(TransferAnswer::Done),
    Err((StepError::NotThere, None)),
    Ok(TransferAnswer::Done),
    Ok(TransferAnswer::Done),
    Ok(TransferAnswer::Pushed(true)),
    Ok(TransferAnswer::Failed(1)),
    Ok(TransferAnswer::Done),
    Ok(TransferAnswer::Done),
    Ok(TransferAnswer::Pushed(false)),
    Err((StepError::NotThere, Some(4))),
    Ok(TransferAnswer::Taken),
    Ok(TransferAnswer::Nothing),
    Ok(TransferAnswer::Gives(1)),
    Ok(TransferAnswer::Last(2)),
    Err((StepError::NotThere, None)),
];

/// What pushes return after the script, by which the last party has both rooms.
const PUSHES: [(usize, u64, Result<bool, (StepError, u64)>); 5] = [
    (2, 5, Ok(true)),
    (2, 6, Ok(false)),
    (2, 7, Err((StepError::NotThere, 7))),
    (0, 8, Err((StepError::NotThere, 8))),
    (3, 9, Err((StepError::NotThere, 9))),
];

/// Asserts what a replay returned: these replies, and `left` steps that it did not take since memory was refused.
fn gives(rt: &impl Abort, replayed: &Replay<u64>, replies: &[Reply], left: usize) {
    same(rt, replayed.replies.as_slice(), replies);
    same(rt, replayed.rest.len(), left);
    same(rt, replayed.stopped, left > 0);
    same(rt, replayed.back, None);
}

// It says more where an allocation is made to fail, as `tools/refusals` does.
#[test]
fn finishes_from_the_rest(rt: HostRuntime) -> Result<(), Fail> {
    let steps = script(rt.alloc())?;
    let first = replay(rt.alloc(), three(rt.alloc(), &[0, 1])?, steps);
    let taken = first.replies.len();
    at_most(&rt, taken, REPLIES.len());
    gives(&rt, &first, &REPLIES[..taken], REPLIES.len() - taken);
    let second = replay(rt.alloc(), first.core, first.rest);
    gives(&rt, &second, &REPLIES[taken..], 0);
    let mut core = second.core;
    for (party, element, wanted) in PUSHES {
        same(&rt, core.push_was_empty(party, element), wanted);
    }
    Ok(())
}

/// Returns a core of one party with one room, by second calls where the first were refused memory.
fn one(rt: &impl Abort, alloc: Global) -> TransferCore<Counted> {
    let mut core = TransferCore::new(alloc);
    let party = match core.add_party() {
        Err(StepError::Memory) => core.add_party(),
        other => other,
    };
    same(rt, party, Ok(0));
    let room = match core.add_room(0) {
        Err(StepError::Memory) => core.add_room(0),
        other => other,
    };
    same(rt, room, Ok(()));
    core
}

/// Pushes a value alone and takes it, by a second call where the first was refused memory.
fn passes(rt: &impl Abort, core: &mut TransferCore<Counted>, value: Counted) {
    let wanted = value.value;
    same(rt, core.push_was_empty(0, value).ok(), Some(true));
    let batch = match core.take_all(0) {
        Err(StepError::Memory) => core.take_all(0),
        other => other,
    };
    let Ok(batch) = batch else {
        panic!(rt; "no batch was returned");
    };
    same(rt, batch.len(), 1);
    for element in batch.iter() {
        same(rt, element.value, wanted);
    }
}

// It, too, says more where an allocation is made to fail.
#[test]
fn goes_on_after_refused_memory(rt: HostRuntime) -> Result<(), Fail> {
    let drops = Drops::new(rt.alloc())?;
    let mut core = one(&rt, rt.alloc());
    for value in 1..3u64 {
        passes(&rt, &mut core, counted(&rt, value, &drops));
        same(&rt, drops.count(), value);
    }
    drop(core.push_was_empty(0, counted(&rt, 3, &drops)));
    same(&rt, drops.count(), 2);
    drop(core);
    same(&rt, drops.count(), 3);
    Ok(())
}

/// A step, or a call of several, with a new element where it puts one in.
#[derive(Clone, Copy)]
enum Move {
    Load,
    SetNext,
    Exchange,
    Take,
    Walk,
    Push,
    TakeAll,
}

/// By these moves one party overtakes another's push, and a third, which can push nothing, begins to take, while the
/// second pushes and takes.
const MOVES: [(usize, Move); 11] = [
    (1, Move::Load),
    (0, Move::Push),
    (0, Move::Push),
    (1, Move::SetNext),
    (1, Move::Exchange),
    (2, Move::Load),
    (2, Move::Take),
    (2, Move::Walk),
    (1, Move::Push),
    (1, Move::TakeAll),
    (1, Move::Load),
];

/// Values that are counted when they are made and when they are dropped.
#[derive(Drop)]
struct Count {
    made: u64,
    drops: Drops,
}

impl Count {
    /// Returns the next value.
    fn next(&mut self, rt: &impl Abort) -> Counted {
        self.made = self.made.wrapping_add(1);
        counted(rt, self.made, &self.drops)
    }

    /// Makes a move, and drops what it returns.
    fn makes(
        &mut self,
        rt: &impl Abort,
        core: &mut TransferCore<Counted>,
        party: usize,
        step: Move,
    ) {
        match step {
            Move::Load => drop(core.step(party, TransferStep::Load(self.next(rt)))),
            Move::SetNext => drop(core.step(party, TransferStep::SetNext)),
            Move::Exchange => drop(core.step(party, TransferStep::Exchange)),
            Move::Take => drop(core.step(party, TransferStep::Take)),
            Move::Walk => drop(core.step(party, TransferStep::Walk)),
            Move::Push => drop(core.push_was_empty(party, self.next(rt))),
            Move::TakeAll => drop(core.take_all(party)),
        }
    }

    /// Returns steps with elements that are loaded, refused and exchanged.
    fn last_steps(
        &mut self,
        rt: &impl Abort,
        alloc: Global,
    ) -> Result<VecDeque<(usize, TransferStep<Counted>)>, AllocError> {
        let steps = [
            (0, TransferStep::Load(self.next(rt))),
            (0, TransferStep::Load(self.next(rt))),
            (0, TransferStep::SetNext),
            (0, TransferStep::Exchange),
            (1, TransferStep::Load(self.next(rt))),
        ];
        script_of(alloc, steps)
    }

    /// Makes elements that are held, in hand, on a walk, refused, returned, taken, and in the rest of a replay. Ends
    /// early where memory is refused.
    fn everywhere(&mut self, rt: &impl Abort, alloc: Global) -> Result<(), AllocError> {
        let Ok(mut core) = three(alloc, &[0, 1, 0, 0]) else {
            return Err(AllocError);
        };
        for (party, step) in MOVES {
            self.makes(rt, &mut core, party, step);
        }
        drop(replay(alloc, core, self.last_steps(rt, alloc)?));
        Ok(())
    }
}

#[test]
fn drops_each_element_once(rt: HostRuntime) {
    let Ok(drops) = Drops::new(rt.alloc()) else {
        return;
    };
    let mut count = Count { made: 0, drops };
    let end = count.everywhere(&rt, rt.alloc());
    same(&rt, count.drops.count(), count.made);
    same(&rt, end.is_err() || count.made == 9, true);
}
