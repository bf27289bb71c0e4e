//! Scripts in mode `queue`.
ghost use Rattle.std.specs.Prelude.{◌≡◌, IfOk, OnErr};
ghost use Rattle.replay_lines.specs.CoreReplies.{line_of_reply};
ghost use Rattle.replay_cores.specs.QueueMachine.{reply_to_step, reply_to_error, reply_to_try, takes_step, step};

use crate::core_session::{CoreSession, ScriptedCore};
use cordyceps_commands::Item;
use cordyceps_queue::mpsc_queue::{QueueAnswer, QueueCore, QueueStep, StepError, TryDequeueError};
use replay_lines::core_reply::CoreReply;
use replay_lines::queue_command::{QueueCommand, read_command};
use std::alloc::{AllocError, Global};

/// Returns the reply to a step.
fn reply_of(answer: Result<QueueAnswer<Item>, (StepError, Option<Item>)>) -> CoreReply
    ensures { line_of_reply result ≡ reply_to_step answer }
{
    match answer {
        Ok(QueueAnswer::Done | QueueAnswer::Taken) => CoreReply::Done,
        Ok(QueueAnswer::Busy) => CoreReply::Busy,
        Ok(QueueAnswer::Out(item)) => CoreReply::Found(item),
        Ok(QueueAnswer::Empty) => CoreReply::Empty,
        Ok(QueueAnswer::Inconsistent) => CoreReply::Inconsistent,
        Err(_) => CoreReply::NotThere,
    }
}

/// Returns the reply to a try to dequeue that failed.
fn reply_of_error(error: TryDequeueError) -> CoreReply
    ensures { line_of_reply result ≡ reply_to_error error }
{
    match error {
        TryDequeueError::Empty => CoreReply::Empty,
        TryDequeueError::Inconsistent => CoreReply::Inconsistent,
        TryDequeueError::Busy => CoreReply::Busy,
    }
}

/// Returns the reply to a try to dequeue.
fn reply_of_found(found: Result<Item, TryDequeueError>) -> CoreReply
    ensures { line_of_reply result ≡ reply_to_try found }
{
    match found {
        Ok(item) => CoreReply::Found(item),
        Err(error) => reply_of_error(error),
    }
}

fn add_party(core: &mut QueueCore<Item>) -> Result<CoreReply, AllocError>
    ensures ok { IfOk result (λ reply.
        (core.new, line_of_reply reply) ≡ step core.old QueueCommand.Party) }
    ensures err { OnErr result (core.new ≡ core.old) }
{
    match core.add_party() {
        Ok(party) => Ok(CoreReply::Party(party)),
        Err(_) => Err(AllocError),
    }
}

fn add_room(core: &mut QueueCore<Item>, party: usize) -> Result<CoreReply, AllocError>
    ensures ok { IfOk result (λ reply.
        (core.new, line_of_reply reply) ≡ step core.old (QueueCommand.Room party)) }
    ensures err { OnErr result (core.new ≡ core.old) }
{
    match core.add_room(party) {
        Ok(()) => Ok(CoreReply::Done),
        Err(StepError::NotThere) => Ok(CoreReply::NotThere),
        Err(StepError::Memory) => Err(AllocError),
    }
}

fn take_step(core: &mut QueueCore<Item>, party: usize, step: QueueStep<Item>) -> CoreReply
    ensures { (core.new, line_of_reply result) ≡ takes_step core.old party step }
{
    reply_of(core.step(party, step))
}

fn enqueue(core: &mut QueueCore<Item>, party: usize, item: Item) -> CoreReply
    ensures { (core.new, line_of_reply result)
        ≡ step core.old (QueueCommand.Enqueue party item) }
{
    match core.enqueue(party, item) {
        Ok(()) => CoreReply::Done,
        Err(_) => CoreReply::NotThere,
    }
}

fn dequeue(core: &mut QueueCore<Item>, party: usize) -> CoreReply
    ensures { (core.new, line_of_reply result)
        ≡ step core.old (QueueCommand.Dequeue party) }
{
    match core.try_dequeue(party) {
        Ok(found) => reply_of_found(found),
        Err(_) => CoreReply::NotThere,
    }
}

fn batch(core: &mut QueueCore<Item>, party: usize, max: usize) -> Result<CoreReply, AllocError>
    ensures ok { IfOk result (λ reply.
        (core.new, line_of_reply reply) ≡ step core.old (QueueCommand.Batch party max)) }
    ensures err { OnErr result (core.new ≡ core.old) }
{
    match core.take_linked(party, max) {
        Ok(Ok(batch)) => Ok(CoreReply::Show(batch)),
        Ok(Err(error)) => Ok(reply_of_error(error)),
        Err(StepError::NotThere) => Ok(CoreReply::NotThere),
        Err(StepError::Memory) => Err(AllocError),
    }
}

/// A session of a script in mode `queue`, with its core.
pub type QueueSession = CoreSession<QueueCore<Item>>;

impl ScriptedCore for QueueCore<Item> {
    ghost use Rattle.replay_lines.specs.QueueScript.{command_of};
    ghost use Rattle.replay_cores.specs.QueueMachine.{step, new_core};

    type Command = QueueCommand;

    ghost first = { new_core };

    ghost command_of = { command_of };

    ghost step = { step };

    fn create(alloc: Global) -> Self {
        QueueCore::new(alloc)
    }

    fn read(line: &[u8]) -> Option<QueueCommand> {
        read_command(line)
    }

    fn play(&mut self, command: QueueCommand) -> Result<CoreReply, AllocError> {
        match command {
            QueueCommand::Party => add_party(self),
            QueueCommand::Room(party) => add_room(self, party),
            QueueCommand::Clear(party, item) => Ok(take_step(self, party, QueueStep::Clear(item))),
            QueueCommand::Swap(party) => Ok(take_step(self, party, QueueStep::Swap)),
            QueueCommand::Link(party) => Ok(take_step(self, party, QueueStep::Link)),
            QueueCommand::Take(party) => Ok(take_step(self, party, QueueStep::Take)),
            QueueCommand::ReadNext(party) => Ok(take_step(self, party, QueueStep::ReadNext)),
            QueueCommand::ReadHead(party) => Ok(take_step(self, party, QueueStep::ReadHead)),
            QueueCommand::Give(party) => Ok(take_step(self, party, QueueStep::Give)),
            QueueCommand::Enqueue(party, item) => Ok(enqueue(self, party, item)),
            QueueCommand::Dequeue(party) => Ok(dequeue(self, party)),
            QueueCommand::Batch(party, max) => batch(self, party, max),
        }
    }
}
