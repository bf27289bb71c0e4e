//! Two threads that push to one stack, whose elements are all taken in the end.
ghost use Rattle.std.specs.Prelude.{◌≡◌, ◌&&◌, length, map, is_ok, MatchResult, IfOk, IfErr};
ghost use Rattle.std.specs.Ordering.{nat_cmp};
ghost use Rattle.std.specs.List.Sorted.{IsPermutation, IsSorted};
ghost use Rattle.std.specs.Thread.{IsSync};
ghost use Rattle.replay_sharing.specs.Sharing.{item, Works, Leaves, Shared, IsReady, line_of_numbers, Prints};
ghost use Rattle.replay_driver.specs.declared.fault.Fault.TheVariants.{Memory};

use cordyceps_base::node::Node;
use cordyceps_base::stack::Links;
use cordyceps_commands::Item;
use cordyceps_stack::stack::{Party, Stack, TransferStack};
use replay_driver::fault::{Failed, Fault};
use replay_driver::sink::Sink;
use replay_driver::text::flush;
use std::alloc::{AllocError, Global};
use std::snapshot::Snapshot;
use std::sync::Wait;
use std::sync::atomic::{AtomicBool, Ordering};
use std::thread;
use std::thread::{Promise, SpawnError, Threads};

/// The handle of an item of the stack.
type Handle = Node<Item, Links<Item>>;

/// What a worker returns: its party, after its work, or as it was, if the worker was called off.
type Back = Result<Party<Item>, Party<Item>>;

/// What a worker of [`share`] passes before it pushes.
pub trait Gate: Sync {
    /// Lets a worker pass. It is called once before the first try of each push. The workers are 0 and 1, and so are the
    /// pushes of each.
    fn pass(&self, worker: u64, push: u64);
}

/// A gate that lets each worker pass at once.
#[derive(Clone, Copy, Debug)]
pub struct OpenGate;

impl Gate for OpenGate {
    fn pass(&self, _worker: u64, _push: u64) {}
}

/// Creates a node of the item whose value and number are `number`.
fn node(alloc: Global, number: u64) -> Result<Handle, AllocError>
    ensures { IfOk result (λ node. node ≡ item number) }
{
    let value = Item {
        value: number,
        id: number,
    };
    match Node::new(alloc, number, value) {
        Ok(node) => Ok(node),
        Err(_) => Err(AllocError),
    }
}

/// What a worker has to do: push two handles, by the rooms of a party.
#[derive(Drop)]
struct Task {
    party: Snapshot<Party<Item>>,
    handles: Snapshot<(Handle, Handle)>,
}

impl Task {
    fn of(party: &Party<Item>, handles: &(Handle, Handle)) -> Task
        ensures { (result.party.value ≡ party.now) × (result.handles.value ≡ handles.now) }
    {
        Task {
            party: Snapshot::of(party),
            handles: Snapshot::of(handles),
        }
    }
}

impl Promise<Back> for Task {
    ghost kept_by = { λ task back. Leaves task.handles.value.0 task.handles.value.1 task.party.value back };
}

/// Does what each worker of [`share`] does: passes the gate and pushes, twice, and returns the party. Requires that the
/// party has two rooms.
///
/// # Complexity
/// That of two calls of `TransferStack::push` and of `Gate::pass`.
///
/// # Waits
/// As `TransferStack::push` and `Gate::pass`.
pub fn work<R: Wait, G: Gate>(
    rt: &R,
    gate: &G,
    worker: u64,
    stack: &TransferStack<Item>,
    mut party: Party<Item>,
    handles: (Handle, Handle),
) -> Party<Item>
    requires { (party.table ≡ stack.now) × (party.rooms ≡ 2) }
    ensures { Works handles.0 handles.1 party result }
{
    let (first, second) = handles;
    gate.pass(worker, 0);
    stack.push(rt, &mut party, first);
    gate.pass(worker, 1);
    stack.push(rt, &mut party, second);
    party
}

/// Works as [`work`] does, unless it was called off before it began.
fn work_unless<R: Wait, G: Gate>(
    rt: &R,
    called_off: &AtomicBool,
    gate: &G,
    worker: u64,
    stack: &TransferStack<Item>,
    party: Party<Item>,
    handles: (Handle, Handle),
) -> Back
    requires { (party.table ≡ stack.now) × (party.rooms ≡ 2) }
    ensures { Leaves handles.0 handles.1 party result }
{
    if called_off.load(Ordering::SeqCst) {
        return Err(party);
    }
    Ok(work(rt, gate, worker, stack, party, handles))
}

/// Calls the workers off, and returns what one leaves for which no thread could be started.
fn call_off<F: FnOnce() -> Back>(called_off: &AtomicBool, refused: SpawnError<F>) -> Back
    requires { F.pre refused.value }
    ensures { F.post refused.value result }
{
    called_off.store(true, Ordering::SeqCst);
    (refused.value)()
}

/// Runs both workers, each in its own thread. If a thread cannot be started, it calls both off, and returns what they
/// leave once a thread that was started has ended.
fn work_both<R: Threads + Wait + Sync, G: Gate>(
    rt: &R,
    gate: &G,
    stack: &TransferStack<Item>,
    parties: (Party<Item>, Party<Item>),
    tens: (Handle, Handle),
    twenties: (Handle, Handle),
) -> (Back, Back)
    requires first { (parties.0.table ≡ stack.now) × (parties.0.rooms ≡ 2) }
    requires second { (parties.1.table ≡ stack.now) × (parties.1.rooms ≡ 2) }
    ensures first { Leaves tens.0 tens.1 parties.0 result.0 }
    ensures second { Leaves twenties.0 twenties.1 parties.1 result.1 }
{
    let (first, second) = parties;
    let flag = AtomicBool::new(false);
    let called_off = &flag;
    thread::scope(
        thread::scope_env(),
        rt,
        move |scope| -> (Back, Back)
            requires { IsSync R.row × IsSync G.row × (first.table ≡ stack.now) × (first.rooms ≡ 2)
                × (second.table ≡ stack.now) × (second.rooms ≡ 2) }
            ensures { Leaves tens.0 tens.1 first result.0 × Leaves twenties.0 twenties.1 second result.1 }
        {
            let task = Task::of(&first, &tens);
            let work_on = move || -> Back
                requires { IsSync R.row × IsSync G.row × (first.table ≡ stack.now) × (first.rooms ≡ 2) }
                ensures { Leaves tens.0 tens.1 first result }
            { work_unless(rt, called_off, gate, 0, stack, first, tens) };
            let one = match scope.spawn_with(task, work_on) {
                Ok(one) => one,
                Err(refused) => return (call_off(called_off, refused), Err(second)),
            };
            let task = Task::of(&second, &twenties);
            let work_on = move || -> Back
                requires { IsSync R.row × IsSync G.row × (second.table ≡ stack.now) × (second.rooms ≡ 2) }
                ensures { Leaves twenties.0 twenties.1 second result }
            { work_unless(rt, called_off, gate, 1, stack, second, twenties) };
            match scope.spawn_with(task, work_on) {
                Ok(two) => (one.join(rt), two.join(rt)),
                Err(refused) => {
                    let back = call_off(called_off, refused);
                    (one.join(rt), back)
                }
            }
        },
    )
}

/// Returns the values of the items, sorted.
fn values_in_order(alloc: Global, items: Stack<Item>) -> Result<Vec<u64>, AllocError>
    ensures { IfOk result (λ values. IsPermutation (map (λ e. e.value.value) items) values.items
        × IsSorted nat_cmp values.items) }
{
    let mut values = Vec::new(alloc);
    for node in items {
        values.push(node.get().value)?;
    }
    values.sort()?;
    Ok(values)
}

/// Returns a worker's party.
fn party_of(back: Back) -> Party<Item>
    ensures { MatchResult back (λ party. result ≡ party) (λ party. result ≡ party) }
{
    match back {
        Ok(party) => party,
        Err(party) => party,
    }
}

/// Returns whether both workers have worked.
fn have_worked(first: &Back, second: &Back) -> bool
    ensures { result ≡ (is_ok first.now && is_ok second.now) }
{
    first.is_ok() && second.is_ok()
}

/// Does what `share` does.
fn run_workers<R: Threads + Wait + Sync, G: Gate>(
    rt: &R,
    alloc: Global,
    gate: &G,
    stack: &TransferStack<Item>,
    party: &mut Party<Item>,
) -> Result<Vec<u64>, AllocError>
    requires table { party.old.table ≡ stack.now }
    requires ready { IsReady party.old }
    ensures values { IfOk result (λ values. Shared party.old party.new values.items) }
    ensures ready { (party.new.table ≡ stack.now) × IsReady party.new }
{
    let tens = (node(alloc, 10)?, node(alloc, 11)?);
    let twenties = (node(alloc, 20)?, node(alloc, 21)?);
    let parties = (stack.split(party, 2), stack.split(party, 2));
    let (first, second) = work_both(rt, gate, stack, parties, tens, twenties);
    let both = have_worked(&first, &second);
    stack.absorb(party, party_of(first));
    stack.absorb(party, party_of(second));
    let items = stack.take_all(party);
    if !both {
        return Err(AllocError);
    }
    values_in_order(alloc, items)
}

/// Lets two threads push to a stack, one 10 and then 11, and the other 20 and then 21, each item with its value as its
/// number. When both have ended it takes all items, and returns their values, sorted: 10, 11, 20, 21.
///
/// The gate is passed before each push. Requires a whole party with 4 rooms whose stack is empty. Each worker has a
/// party with two of its rooms, which it absorbs in the end.
///
/// # Errors
/// If memory for the items or the values is refused or a thread cannot be started, it returns `Memory`, and the party
/// is as it has to be for another call: whole, with 4 rooms, and its stack is empty. The other thread has ended then,
/// and items that were pushed are dropped.
///
/// # Complexity
/// That of the two calls of `work`, and O(1) more.
///
/// # Waits
/// For both threads. If the second cannot be started, the first may still pass the gate, alone.
pub fn share<R: Threads + Wait + Sync, G: Gate>(
    rt: &R,
    alloc: Global,
    gate: &G,
    stack: &TransferStack<Item>,
    party: &mut Party<Item>,
) -> Result<Vec<u64>, Fault>
    requires table { party.old.table ≡ stack.now }
    requires ready { IsReady party.old }
    ensures ok { IfOk result (λ values. Shared party.old party.new values.items) }
    ensures err { IfErr result (λ fault. fault ≡ Memory) }
    ensures ready { (party.new.table ≡ stack.now) × IsReady party.new }
{
    match run_workers(rt, alloc, gate, stack, party) {
        Ok(values) => Ok(values),
        Err(AllocError) => Err(Fault::Memory),
    }
}

/// Returns the line that shows four values.
fn line_of(alloc: Global, values: &[u64]) -> Result<Vec<u8>, AllocError>
    requires { length values.now ≡ 4 }
    ensures { IfOk result (λ line. line.items ≡ line_of_numbers values.now) }
{
    match values {
        [first, second, third, fourth] => {
            let line = format!(in alloc; "{first} {second} {third} {fourth}\n")?;
            Ok(line.into_bytes())
        }
        _ => unreachable!(),
    }
}

/// Creates a stack of four rooms, and writes what [`share`] returns on it as a line: `10 11 20 21`.
///
/// # Errors
/// If `share` fails, or memory for the stack or the line is refused, it returns `Memory`, and nothing is written. If
/// the sink fails, it returns `Write`, and a prefix of the line is written.
///
/// # Complexity
/// That of `share`, and O(1) more.
///
/// # Waits
/// As `share`.
pub fn run_share<R: Threads + Wait + Sync, O: Sink>(
    rt: &R,
    alloc: Global,
    output: &mut O,
) -> Result<(), Fault>
    requires { O.has_failed output.old → ⊥ }
    ensures { Prints (O.takes output.old output.new) (O.has_failed output.new) result }
{
    let Ok((stack, mut party)) = TransferStack::new(alloc, 4) else {
        return Err(Fault::Memory);
    };
    let values = share(rt, alloc, &OpenGate, &stack, &mut party)?;
    let Ok(mut line) = line_of(alloc, &values) else {
        return Err(Fault::Memory);
    };
    match flush(output, &mut line) {
        Ok(()) => Ok(()),
        Err(Failed) => Err(Fault::Write),
    }
}
