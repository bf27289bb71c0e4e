//! Scripts in mode `transfer`.
ghost use Rattle.std.specs.Prelude.{◌≡◌, IfOk, OnErr};
ghost use Rattle.replay_lines.specs.CoreReplies.{line_of_reply};
ghost use Rattle.replay_cores.specs.TransferMachine.{reply_to_step, takes_step, step};

use crate::core_session::{CoreSession, ScriptedCore};
use cordyceps_commands::Item;
use cordyceps_stack::stack::{StepError, TransferAnswer, TransferCore, TransferStep};
use replay_lines::core_reply::CoreReply;
use replay_lines::transfer_command::{TransferCommand, read_command};
use std::alloc::{AllocError, Global};

/// Returns the reply to a step.
fn reply_of(answer: Result<TransferAnswer<Item>, (StepError, Option<Item>)>) -> CoreReply
    ensures { line_of_reply result ≡ reply_to_step answer }
{
    match answer {
        Ok(TransferAnswer::Done) => CoreReply::Done,
        Ok(TransferAnswer::Pushed(was_empty)) => CoreReply::Truth(was_empty),
        Ok(TransferAnswer::Failed(item)) => CoreReply::Failed(item),
        Ok(TransferAnswer::Taken) => CoreReply::Taken,
        Ok(TransferAnswer::Nothing) => CoreReply::Nothing,
        Ok(TransferAnswer::Gives(item)) => CoreReply::Found(item),
        Ok(TransferAnswer::Last(item)) => CoreReply::Last(item),
        Err(_) => CoreReply::NotThere,
    }
}

fn add_party(core: &mut TransferCore<Item>) -> Result<CoreReply, AllocError>
    ensures ok { IfOk result (λ reply.
        (core.new, line_of_reply reply) ≡ step core.old TransferCommand.Party) }
    ensures err { OnErr result (core.new ≡ core.old) }
{
    match core.add_party() {
        Ok(party) => Ok(CoreReply::Party(party)),
        Err(_) => Err(AllocError),
    }
}

fn add_room(core: &mut TransferCore<Item>, party: usize) -> Result<CoreReply, AllocError>
    ensures ok { IfOk result (λ reply.
        (core.new, line_of_reply reply) ≡ step core.old (TransferCommand.Room party)) }
    ensures err { OnErr result (core.new ≡ core.old) }
{
    match core.add_room(party) {
        Ok(()) => Ok(CoreReply::Done),
        Err(StepError::NotThere) => Ok(CoreReply::NotThere),
        Err(StepError::Memory) => Err(AllocError),
    }
}

fn take_step(core: &mut TransferCore<Item>, party: usize, step: TransferStep<Item>) -> CoreReply
    ensures { (core.new, line_of_reply result) ≡ takes_step core.old party step }
{
    reply_of(core.step(party, step))
}

fn push(core: &mut TransferCore<Item>, party: usize, item: Item) -> CoreReply
    ensures { (core.new, line_of_reply result)
        ≡ step core.old (TransferCommand.Push party item) }
{
    match core.push_was_empty(party, item) {
        Ok(was_empty) => CoreReply::Truth(was_empty),
        Err(_) => CoreReply::NotThere,
    }
}

fn take_all(core: &mut TransferCore<Item>, party: usize) -> Result<CoreReply, AllocError>
    ensures ok { IfOk result (λ reply.
        (core.new, line_of_reply reply) ≡ step core.old (TransferCommand.TakeAll party)) }
    ensures err { OnErr result (core.new ≡ core.old) }
{
    match core.take_all(party) {
        Ok(batch) => Ok(CoreReply::Show(batch)),
        Err(StepError::NotThere) => Ok(CoreReply::NotThere),
        Err(StepError::Memory) => Err(AllocError),
    }
}

/// A session of a script in mode `transfer`, with its core.
pub type TransferSession = CoreSession<TransferCore<Item>>;

impl ScriptedCore for TransferCore<Item> {
    ghost use Rattle.replay_lines.specs.TransferScript.{command_of};
    ghost use Rattle.replay_cores.specs.TransferMachine.{step, new_core};

    type Command = TransferCommand;

    ghost first = { new_core };

    ghost command_of = { command_of };

    ghost step = { step };

    fn create(alloc: Global) -> Self {
        TransferCore::new(alloc)
    }

    fn read(line: &[u8]) -> Option<TransferCommand> {
        read_command(line)
    }

    fn play(&mut self, command: TransferCommand) -> Result<CoreReply, AllocError> {
        match command {
            TransferCommand::Party => add_party(self),
            TransferCommand::Room(party) => add_room(self, party),
            TransferCommand::Load(party, item) => Ok(take_step(
                self,
                party,
                TransferStep::Load(item),
            )),
            TransferCommand::SetNext(party) => Ok(take_step(self, party, TransferStep::SetNext)),
            TransferCommand::Exchange(party) => Ok(take_step(self, party, TransferStep::Exchange)),
            TransferCommand::Take(party) => Ok(take_step(self, party, TransferStep::Take)),
            TransferCommand::Walk(party) => Ok(take_step(self, party, TransferStep::Walk)),
            TransferCommand::Push(party, item) => Ok(push(self, party, item)),
            TransferCommand::TakeAll(party) => take_all(self, party),
        }
    }
}
