//! The lock.
ghost use Rattle.std.specs.Prelude.{◌≡◌, ◌≤◌, ℕ, Contains, IfOk, IfErr, OnOk, OnErr};
ghost use mathlib.Core.List.{IsPrefix};
ghost use Rattle.turn_lock.specs.Passes.{first_pass, one_share_fewer, one_share_of, joined, KeepsRights, TakesTurn, Closes};

use crate::bells::Bells;
use crate::pass::Pass;
use crate::plays::{Settle, Share, Turns};
use crate::steps::COUNT;
use crate::story::{Job, Storied};
use crate::view::View;
use atomic_table::{Refused, Table};
use hazard_types::Oom;
use std::alloc::Global;
use std::marker::Model;
use std::snapshot::Snapshot;
use std::sync::Wait;

/// A value that one caller at a time works on, in the order of the tickets that callers draw. A
/// contract sees the lock as its name.
///
/// docs/DECISIONS.md, "Turns".
#[derive(Drop)]
pub struct TurnLock<T: Storied> {
    pub(crate) table: Table<Option<T>, View<T::Base, T::Entry>, Snapshot<T>, Turns, Global>,
    pub(crate) bells: Bells,
}

impl<T: Storied> Model for TurnLock<T> {
    ghost use Rattle.std.specs.Prelude.{◌≡◌};
    ghost use Rattle.turn_lock.specs.Passes.{LockName};
    ghost use Rattle.atomic_table.specs.Seated.{table_id_coded};

    ghost Value = { LockName };

    ghost coded = { table_id_coded };

    ghost view = { λ l. l.table.shared.table_id };

    ghost invariant = { λ l.
        (l.table.shared.table_id.words ≡ 3) × (l.table.shared.table_id.slots ≡ 1) };
}

impl<T: Storied> TurnLock<T> {
    /// Returns a lock over `value`, and a pass with all of its 1,024 shares.
    ///
    /// # Errors
    ///
    /// `value` itself, if memory ran out.
    pub fn start(alloc: Global, value: T) -> Result<(TurnLock<T>, Pass<T>), T>
        ensures ok { IfOk result
            (λ made. made.1 ≡ first_pass made.0 (T.base value) (T.story value)) }
        ensures err { IfErr result (λ back. back ≡ value) }
    {
        let about = Snapshot::of(&value);
        let count = value.count();
        let Ok(bells) = Bells::new(alloc) else {
            return Err(value);
        };
        let mut slots = match Vec::with_capacity(alloc, 1) {
            Ok(slots) => slots,
            Err(_) => return Err(value),
        };
        slots.push_reserved(Some(value));
        match Table::new(alloc, &[0, 0, count], slots, &about) {
            Ok((table, seat)) => Ok((TurnLock { table, bells }, Pass { seat })),
            Err(Refused { mut slots }) => {
                let value = slots.pop().unwrap().unwrap();
                slots.destroy_empty();
                Err(value)
            }
        }
    }

    /// Runs `job` once on the value, after it has waited for its turn, and returns the job's
    /// result. The pass then has seen all entries up to the end of that turn.
    pub fn turn<R: Wait, J: Job<T>>(&self, rt: &R, pass: &mut Pass<T>, job: J) -> J::Out
        requires pass { pass.old.lock ≡ self.now }
        requires job { J.may_run job }
        ensures kept { KeepsRights pass.old pass.new }
        ensures ran { TakesTurn T.base T.story (J.meets job) pass.old pass.new result }
    {
        let ticket = self.draw(rt, &mut pass.seat);
        let (mut value, before) = self.take(rt, &mut pass.seat, ticket);
        let answer = job.run(&mut value);
        self.put_back(&mut pass.seat, value, before);
        self.pass_on(&mut pass.seat);
        answer
    }

    /// Returns a pass with one of this pass's shares, which has seen the same entries and has none
    /// of its own. `pass` must have two shares at least.
    ///
    /// # Errors
    ///
    /// Out of memory; the pass is as before. No clause says when this comes.
    pub fn split(&self, pass: &mut Pass<T>) -> Result<Pass<T>, Oom>
        requires pass { pass.old.lock ≡ self.now }
        requires shares { 2 ≤ pass.old.shares }
        ensures old { OnOk result (pass.new ≡ one_share_fewer pass.old) }
        ensures new { IfOk result (λ split. split ≡ one_share_of pass.old) }
        ensures err { OnErr result (pass.new ≡ pass.old) }
    {
        let seat = self.table.shared.split_seat::<Share>(&mut pass.seat);
        Ok(Pass { seat })
    }

    /// Joins `other` to `pass`, which then has the shares of both, the entries that either has
    /// added, and the longer of the two lists of entries that they have seen. Both must be passes
    /// of this lock.
    pub fn join(&self, pass: &mut Pass<T>, other: Pass<T>)
        requires pass { pass.old.lock ≡ self.now }
        requires other { other.lock ≡ self.now }
        ensures both { pass.new ≡ joined pass.old other }

        // Each of the two lists seen is a prefix of the longer one.
        ensures begins { IsPrefix pass.old.seen pass.new.seen × IsPrefix other.seen pass.new.seen }
        ensures apart { (place : ℕ) → Contains pass.old.mine place → ¬ Contains other.mine place }
    {
        let Pass { seat } = other;
        self.table.shared.join_seat::<Share>(&mut pass.seat, seat);
        self.table.shared.load::<Settle>(&mut pass.seat, COUNT);
    }

    /// Returns the value and ends the lock. `pass` must have all 1,024 shares; then all entries
    /// that the value's list got since `start` are entries that the pass, or one joined to it, has
    /// added.
    pub fn close(self, pass: Pass<T>) -> T
        requires pass { pass.lock ≡ self }
        requires shares { pass.shares ≡ 1024 }
        ensures { Closes pass (T.base result) (T.story result) }
    {
        let TurnLock {
            table,
            bells: _bells,
        } = self;
        let Pass { seat } = pass;
        let mut closed = table.close_with(seat);
        let slot = closed.take(0);
        closed.free();
        slot.unwrap()
    }
}
