//! What the program's arguments choose, and the run of a script in each mode.
ghost use Rattle.std.specs.Prelude.{◌≡◌, map, string_bytes};
ghost use Rattle.replay_driver.specs.Script.{Runs};
ghost use Rattle.replay_sessions.specs.Arguments.{Chooses};
ghost use Rattle.replay_sessions.specs.Modes.{IfSorted, RunsIn, TellsWhy};
ghost use Rattle.replay_sessions.specs.Tens.{by_tens, ComparesTens};

use crate::list_session::ListSession;
use crate::noting::Noting;
use crate::sorted_session::SortedSession;
use crate::stack_session::StackSession;
use cordyceps_commands::Item;
use replay_cores::queue_session::QueueSession;
use replay_cores::transfer_session::TransferSession;
use replay_driver::fault::Fault;
use replay_driver::script::run_script;
use replay_driver::session::Session;
use replay_driver::sink::Sink;
use replay_driver::source::Source;
use replay_lines::reason::{Reason, Vocabulary};
use std::alloc::Global;
use std::cmp::Ordering;

/// The line on standard error if the arguments name no mode, without its line feed.
pub const USAGE: &str = "usage: cordyceps_replay list|stack|sorted|transfer|queue|share";

/// The mode of a script: what its commands are about.
#[derive(Clone, Copy, Drop)]
pub enum Mode<F> {
    /// Sixteen lists.
    List,
    /// Sixteen stacks.
    Stack,
    /// Sixteen sorted lists: six with the least item first, five with the greatest first, and five that the function
    /// keeps sorted, which must compare the values divided by ten.
    Sorted(F),
    /// The core of a transfer stack, which begins without parties.
    Transfer,
    /// The core of a queue, which begins without parties.
    Queue,
}

/// What the program's arguments choose.
#[derive(Clone, Copy, Debug, PartialEq, Eq)]
pub enum Choice {
    /// Runs a script in mode `list`.
    List,
    /// Runs a script in mode `stack`.
    Stack,
    /// Runs a script in mode `sorted`.
    Sorted,
    /// Runs a script in mode `transfer`.
    Transfer,
    /// Runs a script in mode `queue`.
    Queue,
    /// Lets two threads share a stack.
    Share,
}

/// Returns what the words after the program's name choose, or `None` unless there is exactly one word and it names a
/// mode.
///
/// # Complexity
/// O(1).
pub fn choose(words: &[String]) -> Option<Choice>
    ensures { Chooses (map string_bytes words.now) result }
{
    match words {
        [word] if word.as_str() == "list" => Some(Choice::List),
        [word] if word.as_str() == "stack" => Some(Choice::Stack),
        [word] if word.as_str() == "sorted" => Some(Choice::Sorted),
        [word] if word.as_str() == "transfer" => Some(Choice::Transfer),
        [word] if word.as_str() == "queue" => Some(Choice::Queue),
        [word] if word.as_str() == "share" => Some(Choice::Share),
        _ => None,
    }
}

/// Runs a script in a session, as `run_with_reason` does in a mode.
fn run_session<S: Session + Drop, I: Source, O: Sink>(
    alloc: Global,
    session: S,
    vocabulary: Vocabulary,
    input: &mut I,
    output: &mut O,
    why: &mut Option<Reason>,
) -> Result<(), Fault>
    requires { S.is_ready session }
    ensures runs { (left : S.State) × Runs S.machine (S.state session) left
        (I.gives input.old input.new) (I.at_end input.new) (I.has_failed input.new)
        (O.takes output.old output.new) (O.has_failed output.new) result }
    ensures why { TellsWhy result why.new }
{
    let mut noting = Noting::new(session, vocabulary);
    let end = run_script(alloc, &mut noting, input, output);
    *why = match end {
        // the session is given no line that is too long
        Err(Fault::BadLine(_)) => Some(noting.why.unwrap_or(Reason::TooLong)),
        Ok(()) | Err(_) => None,
    };
    end
}

/// Runs the script that the source provides, and writes its replies to the sink.
///
/// A line ends with a line feed, which the last one may lack, and has at most 120 bytes without it. In mode `list` a
/// cursor block is one command. It is run when its end is met, the end of the input, a bad line or a failed read.
///
/// # Errors
/// It returns `BadLine` with the number of the first bad line, or `Read` if the source failed. The replies to the lines
/// before it are then written. It returns `Write` if the sink failed. A prefix of the replies is then written. It
/// returns `Memory` if memory was refused. The replies to the commands before the refused one are then written.
///
/// More of the source may have been read than the lines that were taken.
///
/// # Complexity
/// O(b), for b bytes of the script, and what the commands take. The source is read in blocks of 65,536 bytes. Memory
/// holds one block, and about as many bytes of replies in addition to the replies to one command and the lines of a
/// cursor block.
pub fn run<F: Fn(&Item, &Item) -> Ordering + Copy, I: Source, O: Sink>(
    alloc: Global,
    mode: Mode<F>,
    input: &mut I,
    output: &mut O,
) -> Result<(), Fault>
    requires reading { I.has_failed input.old → ⊥ }
    requires writing { O.has_failed output.old → ⊥ }
    requires callable { IfSorted mode (λ by. F.IsAlwaysCallable by) }
    requires tens { IfSorted mode (λ by. ComparesTens F.Fn by) }
    ensures { RunsIn ⟦<Item as Ord>⟧.cmp mode
        (I.gives input.old input.new) (I.at_end input.new) (I.has_failed input.new)
        (O.takes output.old output.new) (O.has_failed output.new) result }
{
    let mut why = None;
    run_with_reason(alloc, mode, input, output, &mut why)
}

/// Runs a script as `run` does, and tells why a line is bad: after `BadLine`, `why` is the reason, and otherwise it is
/// `None`.
///
/// # Errors
/// It returns the errors of `run`.
///
/// # Complexity
/// That of `run`.
pub fn run_with_reason<F: Fn(&Item, &Item) -> Ordering + Copy, I: Source, O: Sink>(
    alloc: Global,
    mode: Mode<F>,
    input: &mut I,
    output: &mut O,
    why: &mut Option<Reason>,
) -> Result<(), Fault>
    requires reading { I.has_failed input.old → ⊥ }
    requires writing { O.has_failed output.old → ⊥ }
    requires callable { IfSorted mode (λ by. F.IsAlwaysCallable by) }
    requires tens { IfSorted mode (λ by. ComparesTens F.Fn by) }
    ensures runs { RunsIn ⟦<Item as Ord>⟧.cmp mode
        (I.gives input.old input.new) (I.at_end input.new) (I.has_failed input.new)
        (O.takes output.old output.new) (O.has_failed output.new) result }
    ensures why { TellsWhy result why.new }
{
    match mode {
        Mode::List => {
            let session = ListSession::new(alloc);
            run_session(alloc, session, Vocabulary::List, input, output, why)
        }
        Mode::Stack => {
            let session = StackSession::new(alloc);
            run_session(alloc, session, Vocabulary::Stack, input, output, why)
        }
        Mode::Sorted(by) => {
            let session = SortedSession::new(alloc, by);
            run_session(alloc, session, Vocabulary::Sorted, input, output, why)
        }
        Mode::Transfer => {
            let session = TransferSession::new(alloc);
            run_session(alloc, session, Vocabulary::Transfer, input, output, why)
        }
        Mode::Queue => {
            let session = QueueSession::new(alloc);
            run_session(alloc, session, Vocabulary::Queue, input, output, why)
        }
    }
}

/// Compares the values divided by ten.
///
/// # Complexity
/// O(1).
pub fn compare_tens(first: &Item, second: &Item) -> Ordering
    ensures { result ≡ by_tens first.now second.now }
{
    (first.value / 10).cmp(&(second.value / 10))
}
