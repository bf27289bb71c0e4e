//! Accounts of the tasks that each place and each thread got and gave. Each transfer is entered once on each side, so
//! in all accounts together the tasks that were got are those that were given, whichever way they went.
//!
//! Only contracts use them: nothing that the program computes depends on an account. A transfer costs three loads of a
//! word that no thread writes.
ghost use Rattle.std.specs.Prelude.{◌≡◌, ◌-◌, ◌<◌, [], IfOk};
ghost use Rattle.cordyceps.specs.Parties.Counts.{Same};
ghost use Rattle.cordyceps_shared_uses.specs.Accounts.{IsOpen, after_giving, after_getting, opened, joined, IsAtRest};
ghost use Rattle.cordyceps_shared_uses.specs.Accounts.{told, keeping, cut, giving, getting, same_view};
ghost use Rattle.cordyceps_shared_uses.specs.Accounts.{meeting, merged, alone, blank};

use crate::scheduler::name::Name;
use atomic_table::{Join, Play, Seat, Split, Table, TableRule};
use std::alloc::{AllocError, Global};
use std::marker::{Brand, Model, PhantomData};
use std::mem;

/// What the seat of an account knows. The program creates no value of this type, and a contract sees a `View`.
pub(crate) struct Known;

impl Model for Known {
    ghost use Rattle.cordyceps_shared_uses.specs.Accounts.{View, alone, blank};

    ghost Value = { View };

    ghost view = { λ _. alone (blank 0) };
}

/// The rule of the accounts' table, which each step keeps. Its key is the number of parts.
pub(crate) struct Rule;

impl TableRule<(), Known, u64> for Rule {
    ghost use Rattle.cordyceps_shared_uses.specs.Accounts.{AreEven, alone, blank};

    ghost holds = { λ parts. AreEven parts };

    ghost first = { λ parts. alone (blank parts) };
}

/// The parameters of a step, which each call chooses.
pub(crate) trait Chosen {
    ghost use Rattle.std.specs.Prelude.{ℕ};
    ghost use Rattle.cordyceps_shared_uses.specs.declared.scheduler.name.Name.{Name};

    ghost parts: { ℕ };

    ghost name: { Name };
}

impl Chosen for Brand {
    ghost parts = { 0 };

    ghost name = { record { id = 0; number = 0; rounds = 0; pause = 0; ran = 0 } };
}

/// A split by which an account gives `B::parts` of its parts to a new one.
struct Cut<B> {
    chosen: PhantomData<B>,
}

impl<B: Chosen> Split<Known> for Cut<B> {
    ghost left = { keeping B.parts };

    ghost right = { cut B.parts };
}

/// A split by which an account without parts is created.
struct Spare;

impl Split<Known> for Spare {
    ghost left = { same_view };

    ghost right = { cut 0 };
}

/// A join by which one seat knows two accounts.
struct Meet;

impl Join<Known> for Meet {
    ghost both = { meeting };

    ghost spent = { alone (blank 0) };
}

/// A split by which the two get seats of their own again, after the first gave `B::name` to the second.
struct Part<B> {
    chosen: PhantomData<B>,
}

impl<B: Chosen> Split<Known> for Part<B> {
    ghost left = { giving B.name };

    ghost right = { getting B.name };
}

/// A join by which an account absorbs another.
struct Merge;

impl Join<Known> for Merge {
    ghost both = { merged };

    ghost spent = { alone (blank 0) };
}

/// A load by which an account that has all `B::parts` parts learns that it got what it gave.
struct Learn<B> {
    chosen: PhantomData<B>,
}

impl<B: Chosen> Play<(), Known> for Learn<B> {
    ghost then = { told B.parts };
}

/// The accounts of all places and threads. A contract sees their table, by which it knows the accounts that belong to
/// them, and the number of their parts.
#[derive(Drop)]
pub struct Accounts {
    table: Table<(), Known, u64, Rule, Global>,
}

impl Model for Accounts {
    ghost use Rattle.std.specs.Prelude.{◌<◌};
    ghost use Rattle.cordyceps_shared_uses.specs.Accounts.{Books};

    ghost Value = { Books };

    ghost view = { λ a. record { table = a.table.shared.table_id; parts = a.table.shared.key } };

    ghost invariant = { λ a. 0 < a.table.shared.table_id.words };
}

/// One account. A contract sees the table of the accounts to which it belongs, how many of their parts it has, and the
/// tasks that it got and gave, the last first.
#[derive(Drop)]
pub struct Account {
    seat: Seat<(), Known>,
}

impl Model for Account {
    ghost use Rattle.cordyceps_shared_uses.specs.Accounts.{Entries, entries, IsAtRest};

    ghost Value = { Entries };

    ghost view = { λ a. entries a.seat.table_id a.seat.me.0 };

    ghost invariant = { λ a. IsAtRest a.seat.me };
}

impl Accounts {
    /// Creates accounts of `parts` parts, and the account that has them all and no entries.
    ///
    /// # Errors
    /// If memory is refused, it returns `AllocError`.
    ///
    /// # Complexity
    /// O(1).
    pub fn new(alloc: Global, parts: u64) -> Result<(Accounts, Account), AllocError>
        ensures { IfOk result (λ made. (made.0.parts ≡ parts) × (made.1 ≡ opened made.0.table parts)) }
    {
        let (table, seat) = Table::of_words(alloc, &[0], &parts)?;
        Ok((Accounts { table }, Account { seat }))
    }

    /// Splits the seat of a new account with `_parts` parts off a seat.
    fn cut<B: Chosen>(&self, seat: &mut Seat<(), Known>, _parts: u64) -> Seat<(), Known>
        requires table { seat.old.table_id ≡ self.now.table }
        requires rest { IsAtRest seat.old.me }
        requires parts { (B.parts ≡ _parts) × (_parts < seat.old.me.0.mine.parts) }
        ensures table { (seat.new.table_id ≡ seat.old.table_id) × (result.table_id ≡ seat.old.table_id) }
        ensures views { (seat.new.me ≡ (keeping _parts seat.old.me.0, []))
            × (result.me ≡ (cut _parts seat.old.me.0, [])) }
        ensures rest { IsAtRest seat.new.me × IsAtRest result.me }
    {
        self.table.shared.split_seat::<Cut<B>>(seat)
    }

    /// Splits a new account without entries off `account`, which gives it `parts` of its parts. Requires that `account`
    /// has more parts.
    ///
    /// # Complexity
    /// O(1): one load.
    ///
    /// # Waits
    /// Never.
    pub fn split(&self, account: &mut Account, parts: u64) -> Account
        requires table { account.old.table ≡ self.now.table }
        requires parts { parts < account.old.parts }
        ensures kept { account.new ≡ record account.old { parts = account.old.parts - parts } }
        ensures given { result ≡ opened account.old.table parts }
    {
        Account {
            seat: self.cut::<Brand>(&mut account.seat, parts),
        }
    }

    /// Splits the seat of a new account without parts off a seat, which knows the same as before.
    fn spare(&self, seat: &mut Seat<(), Known>) -> Seat<(), Known>
        requires table { seat.old.table_id ≡ self.now.table }
        requires rest { IsAtRest seat.old.me }
        ensures same { (seat.new.table_id ≡ seat.old.table_id) × (seat.new.me ≡ seat.old.me) }
        ensures rest { IsAtRest result.me }
    {
        self.table.shared.split_seat::<Spare>(seat)
    }

    /// Enters in the accounts of two seats that a task goes from the first to the second, and returns a seat for the
    /// second.
    fn hand_over<B: Chosen>(
        &self,
        from: &mut Seat<(), Known>,
        to: Seat<(), Known>,
        _name: Name,
    ) -> Seat<(), Known>
        requires tables { (from.old.table_id ≡ self.now.table) × (to.table_id ≡ self.now.table) }
        requires rest { IsAtRest from.old.me × IsAtRest to.me }
        requires parts { (0 < from.old.me.0.mine.parts) × (0 < to.me.0.mine.parts) }
        requires name { B.name ≡ _name }
        ensures tables { (from.new.table_id ≡ self.now.table) × (result.table_id ≡ self.now.table) }
        ensures views { (from.new.me ≡ (giving _name from.old.me.0, []))
            × (result.me ≡ (getting _name (meeting from.old.me.0 to.me.0), [])) }
        ensures rest { IsAtRest from.new.me × IsAtRest result.me }
    {
        let shared = &self.table.shared;
        shared.join_seat::<Meet>(from, to);
        shared.split_seat::<Part<B>>(from)
    }

    /// Enters that a task goes from one account to another. Requires that both belong to these accounts and have one
    /// part.
    ///
    /// # Complexity
    /// O(1): three loads.
    ///
    /// # Waits
    /// Never.
    pub fn give(&self, from: &mut Account, to: &mut Account, name: Name)
        requires { IsOpen self.now.table from.old × IsOpen self.now.table to.old }
        ensures gave { from.new ≡ after_giving name from.old }
        ensures got { to.new ≡ after_getting name to.old }
    {
        let spare = self.spare(&mut from.seat);
        let other = mem::replace(&mut to.seat, spare);
        to.seat = self.hand_over::<Brand>(&mut from.seat, other, name);
    }

    /// Adds the account of another seat to that of a seat.
    fn merge(&self, seat: &mut Seat<(), Known>, other: Seat<(), Known>)
        requires tables { (seat.old.table_id ≡ self.now.table) × (other.table_id ≡ self.now.table) }
        requires rest { IsAtRest seat.old.me × IsAtRest other.me }
        ensures table { seat.new.table_id ≡ seat.old.table_id }
        ensures views { seat.new.me ≡ (merged seat.old.me.0 other.me.0, []) }
        ensures rest { IsAtRest seat.new.me }
    {
        self.table.shared.join_seat::<Merge>(seat, other);
    }

    /// Absorbs another account: `account` has the parts and the entries of both.
    ///
    /// # Complexity
    /// O(1): one load.
    ///
    /// # Waits
    /// Never.
    pub fn absorb(&self, account: &mut Account, other: Account)
        requires { (account.old.table ≡ self.now.table) × (other.table ≡ self.now.table) }
        ensures { account.new ≡ joined account.old other }
    {
        let Account { seat } = other;
        self.merge(&mut account.seat, seat);
    }

    /// Shows, for the seat of an account that has all parts, that the account got what it gave.
    fn learn<B: Chosen>(&self, seat: &mut Seat<(), Known>)
        requires table { seat.old.table_id ≡ self.now.table }
        requires rest { IsAtRest seat.old.me }
        requires parts { B.parts ≡ self.now.parts }
        ensures same { (seat.new.table_id ≡ seat.old.table_id) × (seat.new.me ≡ seat.old.me) }
        ensures told { seat.old.me.0.mine.parts ≡ self.now.parts
            → Same seat.old.me.0.mine.got seat.old.me.0.mine.gave }
    {
        self.table.shared.load::<Learn<B>>(seat, 0);
    }

    /// Leaves the account unchanged. Its contract states that the account got exactly the tasks that it gave. Requires
    /// that the account has all parts.
    ///
    /// # Complexity
    /// O(1): one load.
    ///
    /// # Waits
    /// Never.
    pub fn audit(&self, account: &mut Account)
        requires { (account.old.table ≡ self.now.table) × (account.old.parts ≡ self.now.parts) }
        ensures same { account.new ≡ account.old }
        ensures even { Same account.old.got account.old.gave }
    {
        self.learn::<Brand>(&mut account.seat);
    }
}
