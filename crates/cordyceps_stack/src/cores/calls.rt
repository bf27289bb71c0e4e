//! The core of a transfer stack.
ghost use Rattle.std.specs.Prelude.{◌≡◌, ◌≤◌, ◌++◌, ◌↔◌, ℕ, [], ◌∷◌, List, Some, None, Err, slice_get, nat_eq, length, reverse, true, IsFalse, IfOk, IfErr, OnOk, OnErr, is_ok, is_none};
ghost use Rattle.std.specs.Option.{option_eq};
ghost use Rattle.cordyceps_base.specs.Runs.{after};
ghost use Rattle.cordyceps_stack.specs.Cores.CoreMeets.{CoreMeets, IsSound, step_events, core_step, AnswerSays};
ghost use Rattle.cordyceps_stack.specs.Cores.Alone.{push_steps, take_steps};
ghost use Rattle.cordyceps_stack.specs.History.{Event, Load, Push, Taken, held};
ghost use Rattle.cordyceps_shared.specs.Rooms.{element_in, next_in};
ghost use Rattle.cordyceps_stack.specs.Cores.Machine.{new_machine, with_party, with_room, held_in, after_step, acts, is_there, step_element, is_at_rest, is_ready, load, set_next, exchange, take, walk, least_free};
ghost use Rattle.cordyceps_stack.specs.Cores.Walks.{HandsOut, HandsOn, handed_elements, only};

use crate::cores::rooms::Rooms;
use crate::cores::stage::{Attempt, Stage};
use crate::cores::steps::{TransferAnswer, TransferStep};
use cordyceps_base::shared::StepError;
use std::alloc::Global;
use std::marker::Model;

/// What a step returns. A step that is refused returns its element.
type Answered<E> = Result<TransferAnswer<E>, (StepError, Option<E>)>;

/// The core of a transfer stack: the algorithm as a plain value, whose steps the parties take one at a time, in any
/// order.
///
/// A party pushes an element by the steps `Load`, `SetNext` and `Exchange`, for which it needs a free room of its own.
/// It takes all elements by `Take` and one `Walk` for each of them, whose rooms become its free ones. Steps of other
/// parties may come between. A contract sees the core as a machine: the head, the rooms, and at which stage each party
/// is.
///
/// # Examples
/// From `examples::push_meanwhile` of `cordyceps_uses`:
/// ```
/// let mut core: TransferCore<Job> = TransferCore::new(alloc);
/// let first = core.add_party()?;
/// let second = core.add_party()?;
/// core.add_room(first)?;
/// core.add_room(second)?;
/// let _ = core.step(first, TransferStep::Load(early));
/// let _ = core.step(first, TransferStep::SetNext);
/// // The other party takes all steps of its push.
/// let _ = core.push_was_empty(second, late);
/// // The head has changed, so the exchange of the first party fails, and its push is tried again.
/// if let Ok(TransferAnswer::Failed(back)) = core.step(first, TransferStep::Exchange) {
///     let _ = core.push_was_empty(first, back);
/// }
/// core.take_all(second)
/// ```
#[derive(Drop)]
pub struct TransferCore<E> {
    alloc: Global,
    head: Option<usize>,
    rooms: Rooms<E>,
    parties: Vec<Stage>,
}

impl<E> Model for TransferCore<E> {
    ghost use Rattle.cordyceps_stack.specs.Cores.CoreMeets.{IsSound};
    ghost use Rattle.cordyceps_stack.specs.Cores.Machine.{Machine};

    ghost Value = { Machine E };

    ghost view = { λ c. record { head = c.head; rooms = c.rooms; parties = c.parties.items } };

    ghost invariant = { λ c. IsSound record { head = c.head; rooms = c.rooms; parties = c.parties.items } };
}

impl<E: Drop> TransferCore<E> {
    /// Creates a core without parties, rooms and elements. Allocates nothing.
    ///
    /// # Complexity
    /// O(1).
    pub fn new(alloc: Global) -> Self
        ensures machine { result ≡ new_machine }
        ensures history { CoreMeets [] result }
        ensures walks { (party : ℕ) → HandsOut [] result party [] }
    {
        TransferCore {
            alloc,
            head: None,
            rooms: Rooms::new(alloc),
            parties: Vec::new(alloc),
        }
    }

    /// Adds a party at rest, without rooms, and returns its number. The first number is 0.
    ///
    /// # Errors
    /// If memory is refused, it returns `Memory`, and the core is unchanged.
    ///
    /// # Complexity
    /// Amortized O(1).
    pub fn add_party(&mut self) -> Result<usize, StepError>
        ensures ok { IfOk result (λ party. (party ≡ length self.old.parties) × (self.new ≡ with_party self.old)) }
        ensures err { IfErr result (λ e. (e ≡ StepError.Memory) × (self.new ≡ self.old)) }
        ensures history { (h : List (Event ℕ E)) → CoreMeets h self.old → CoreMeets h self.new }
        ensures walks { (h : List (Event ℕ E)) → HandsOn h self.old h self.new (λ _. []) }
    {
        let party = self.parties.len();
        match self.parties.push(Stage::Rest) {
            Ok(()) => Ok(party),
            Err(_) => Err(StepError::Memory),
        }
    }

    /// Adds a free room to a party, at any stage.
    ///
    /// # Errors
    /// If there is no such party, it returns `NotThere`. If memory is refused, it returns `Memory`. Both leave the core
    /// unchanged.
    ///
    /// # Complexity
    /// Amortized O(1).
    pub fn add_room(&mut self, party: usize) -> Result<(), StepError>
        ensures not_there { (result ≡ Err StepError.NotThere) ↔ (length self.old.parties ≤ party) }
        ensures ok { OnOk result (self.new ≡ with_room self.old party) }
        ensures err { OnErr result (self.new ≡ self.old) }
        ensures history { (h : List (Event ℕ E)) → CoreMeets h self.old → CoreMeets h self.new }
        ensures walks { (h : List (Event ℕ E)) → HandsOn h self.old h self.new (λ _. []) }
    {
        if party >= self.parties.len() {
            return Err(StepError::NotThere);
        }
        match self.rooms.add(party) {
            Ok(()) => Ok(()),
            Err(_) => Err(StepError::Memory),
        }
    }

    /// Takes a step of a party. Allocates nothing.
    ///
    /// # Errors
    /// If there is no such party, it is not at that step, or it has no free room for a `Load`, it returns `NotThere`
    /// and the step's element, and the core is unchanged. It never returns `Memory`.
    ///
    /// # Complexity
    /// O(r) for `Load`, for r rooms, among which it seeks a free one. O(1) for the other steps.
    pub fn step(
        &mut self,
        party: usize,
        step: TransferStep<E>,
    ) -> Result<TransferAnswer<E>, (StepError, Option<E>)>
        ensures machine { self.new ≡ (after_step self.old party step).0 }
        ensures answer { result ≡ (after_step self.old party step).1 }

        // What the definition of the machine says of refusals, in plain words.
        ensures accepted { is_ok result ≡ is_there self.old party step }
        ensures refused { IfErr result (λ e. (e ≡ (StepError.NotThere, step_element step)) × (self.new ≡ self.old)) }

        ensures history { (h : List (Event ℕ E))
            → CoreMeets h self.old
            → CoreMeets (h ++ step_events h self.old party step result) self.new × AnswerSays h party result }

        // What a party's walks return, and then what is left of them, are the batches that it took.
        ensures walks { (h : List (Event ℕ E))
            → CoreMeets h self.old
            → HandsOn h self.old (h ++ step_events h self.old party step result) self.new
            (only party (handed_elements result)) }
    {
        match self.stage_of(party) {
            Some(stage) => self.act(party, step, stage),
            None => Err((StepError::NotThere, step.into_element())),
        }
    }

    /// Pushes an element by three steps of a party, without a step of another between, and returns `true` if the core
    /// had no element. Allocates nothing.
    ///
    /// # Errors
    /// If there is no such party, it is not at rest, or it has no free room, it returns `NotThere` and the element, and
    /// the core is unchanged. It never returns `Memory`.
    ///
    /// # Complexity
    /// O(r), for r rooms, among which it seeks a free one.
    pub fn push_was_empty(&mut self, party: usize, element: E) -> Result<bool, (StepError, E)>
        ensures accepted { is_ok result ≡ is_ready self.old party }
        ensures err { IfErr result (λ e. (e ≡ (StepError.NotThere, element)) × (self.new ≡ self.old)) }
        ensures ok { IfOk result (λ was_empty. (was_empty ≡ is_none self.old.head)
            × (self.new ≡ after core_step self.old (push_steps party element))) }
        ensures history { IfOk result (λ was_empty. (h : List (Event ℕ E))
            → CoreMeets h self.old
            → CoreMeets ((h ++ Load party ∷ []) ++ Push party element ∷ []) self.new
            × ((was_empty ≡ true) ↔ (held h ≡ []))) }
        ensures walks { OnOk result ((h : List (Event ℕ E))
            → CoreMeets h self.old
            → HandsOn h self.old ((h ++ Load party ∷ []) ++ Push party element ∷ []) self.new (λ _. [])) }
    {
        if !self.is_ready(party) {
            return Err((StepError::NotThere, element));
        }
        let was_empty = self.head.is_none();
        let _ = self.step(party, TransferStep::Load(element));
        let _ = self.step(party, TransferStep::SetNext);
        let _ = self.step(party, TransferStep::Exchange);
        Ok(was_empty)
    }

    /// Takes all elements by steps of a party, without a step of another between, and returns them, the newest first.
    /// Their rooms become free ones of the party.
    ///
    /// # Errors
    /// If there is no such party or it is not at rest, it returns `NotThere`. If memory for as many elements as there
    /// are rooms in use is refused, it returns `Memory`. Both leave the core unchanged.
    ///
    /// # Complexity
    /// O(r), for r rooms, with at most one allocation.
    pub fn take_all(&mut self, party: usize) -> Result<Vec<E>, StepError>
        ensures not_there { (result ≡ Err StepError.NotThere) ↔ IsFalse (is_at_rest self.old party) }
        ensures err { OnErr result (self.new ≡ self.old) }
        ensures batch { IfOk result (λ batch. batch.items ≡ held_in self.old) }
        ensures ok { IfOk result
            (λ batch. self.new ≡ after core_step self.old (take_steps party (length batch.items))) }
        ensures history { IfOk result (λ batch. (h : List (Event ℕ E))
            → CoreMeets h self.old
            → (batch.items ≡ reverse (held h)) × CoreMeets (h ++ Taken party batch.items ∷ []) self.new) }
        ensures walks { IfOk result (λ batch. (h : List (Event ℕ E))
            → CoreMeets h self.old
            → HandsOn h self.old (h ++ Taken party batch.items ∷ []) self.new (only party batch.items)) }
    {
        if !self.is_at_rest(party) {
            return Err(StepError::NotThere);
        }
        let Ok(mut batch) = Vec::with_capacity(self.alloc, self.rooms.occupied()) else {
            return Err(StepError::Memory);
        };
        let mut at = self.head.take();
        while let Some(room) = at {
            at = self.rooms.next(room);
            batch.push_reserved(self.rooms.free(room, party));
        }
        Ok(batch)
    }
}

impl<E: Drop> TransferCore<E> {
    /// Returns the stage of a party, if there is such a party.
    fn stage_of(&self, party: usize) -> Option<Stage>
        ensures stage { result ≡ slice_get self.now.parties party }
        ensures sound { IsSound self.now }
    {
        self.parties.get(party).copied()
    }

    /// Takes a step of a party that is at `stage`.
    fn act(&mut self, party: usize, step: TransferStep<E>, stage: Stage) -> Answered<E>
        requires { slice_get self.old.parties party ≡ Some stage }
        ensures machine { self.new ≡ (acts self.old party step stage).0 }
        ensures answer { result ≡ (acts self.old party step stage).1 }
    {
        match step {
            TransferStep::Load(element) => match stage {
                Stage::Rest => self.load(party, element),
                _ => Err((StepError::NotThere, Some(element))),
            },
            TransferStep::SetNext => match stage {
                Stage::Loaded(attempt) => self.set_next(party, attempt),
                _ => Err((StepError::NotThere, None)),
            },
            TransferStep::Exchange => match stage {
                Stage::Set(attempt) => self.exchange(party, attempt),
                _ => Err((StepError::NotThere, None)),
            },
            TransferStep::Take => match stage {
                Stage::Rest => self.take(party),
                _ => Err((StepError::NotThere, None)),
            },
            TransferStep::Walk => match stage {
                Stage::Walking(room) => self.walk(party, room),
                _ => Err((StepError::NotThere, None)),
            },
        }
    }

    fn load(&mut self, party: usize, element: E) -> Answered<E>
        requires { slice_get self.old.parties party ≡ Some Stage.Rest }
        ensures machine { self.new ≡ (load self.old party element (least_free party self.old.rooms)).0 }
        ensures answer { result ≡ (load self.old party element (least_free party self.old.rooms)).1 }
    {
        let Some(room) = self.rooms.least_free(party) else {
            return Err((StepError::NotThere, Some(element)));
        };
        self.rooms.hold(room, element);
        self.parties[party] = Stage::Loaded(Attempt {
            room,
            read: self.head,
        });
        Ok(TransferAnswer::Done)
    }

    fn set_next(&mut self, party: usize, attempt: Attempt) -> Answered<E>
        requires { slice_get self.old.parties party ≡ Some (Stage.Loaded attempt) }
        ensures machine { self.new ≡ (set_next self.old party attempt).0 }
        ensures answer { result ≡ (set_next self.old party attempt).1 }
    {
        self.rooms.link(attempt.room, attempt.read);
        self.parties[party] = Stage::Set(attempt);
        Ok(TransferAnswer::Done)
    }

    fn exchange(&mut self, party: usize, attempt: Attempt) -> Answered<E>
        requires { slice_get self.old.parties party ≡ Some (Stage.Set attempt) }
        ensures machine { let found = option_eq nat_eq self.old.head attempt.read in
            self.new ≡ (exchange self.old party attempt found).0 }
        ensures answer { let found = option_eq nat_eq self.old.head attempt.read in
            result ≡ (exchange self.old party attempt found).1 }
    {
        self.parties[party] = Stage::Rest;
        if self.head == attempt.read {
            self.head = Some(attempt.room);
            Ok(TransferAnswer::Pushed(attempt.read.is_none()))
        } else {
            Ok(TransferAnswer::Failed(self.rooms.free(attempt.room, party)))
        }
    }

    fn take(&mut self, party: usize) -> Answered<E>
        requires { slice_get self.old.parties party ≡ Some Stage.Rest }
        ensures machine { self.new ≡ (take self.old party self.old.head).0 }
        ensures answer { result ≡ (take self.old party self.old.head).1 }
    {
        let Some(room) = self.head else {
            return Ok(TransferAnswer::Nothing);
        };
        self.head = None;
        self.parties[party] = Stage::Walking(room);
        Ok(TransferAnswer::Taken)
    }

    fn walk(&mut self, party: usize, room: usize) -> Answered<E>
        requires { slice_get self.old.parties party ≡ Some (Stage.Walking room) }
        ensures machine { let here = slice_get self.old.rooms room in
            self.new ≡ (walk self.old party room (next_in here) (element_in here)).0 }
        ensures answer { let here = slice_get self.old.rooms room in
            result ≡ (walk self.old party room (next_in here) (element_in here)).1 }
    {
        let next = self.rooms.next(room);
        let element = self.rooms.free(room, party);
        match next {
            None => {
                self.parties[party] = Stage::Rest;
                Ok(TransferAnswer::Last(element))
            }
            Some(following) => {
                self.parties[party] = Stage::Walking(following);
                Ok(TransferAnswer::Gives(element))
            }
        }
    }

    /// Returns `true` if there is such a party and it is at rest.
    fn is_at_rest(&self, party: usize) -> bool
        ensures { result ≡ is_at_rest self.now party }
    {
        matches!(self.stage_of(party), Some(Stage::Rest))
    }

    /// Returns `true` if there is such a party, at rest and with a free room.
    fn is_ready(&self, party: usize) -> bool
        ensures { result ≡ is_ready self.now party }
    {
        self.is_at_rest(party) && self.rooms.least_free(party).is_some()
    }
}
