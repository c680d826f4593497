//! The steps of one turn.
ghost use Rattle.std.specs.Prelude.{◌≡◌, ℕ, ◌⊎◌, ◌++◌, ◌∷◌, [], length, Some, None};
ghost use mathlib.Core.List.{IsPrefix};
ghost use Rattle.turn_lock.specs.Story.{GrowsByOneAtMost};
ghost use Rattle.turn_lock.specs.Turns.{staged, taught, grown};
ghost use Rattle.turn_lock.specs.declared.view.Stage.TheVariants.{Idle, Waits, Learnt};

use crate::lock::TurnLock;
use crate::plays::{Add, Draw, Learn, Look, PassOn};
use crate::story::Storied;
use crate::view::View;
use atomic_table::Seat;
use std::sync::Wait;

/// The index of the word with the next ticket.
pub(crate) const TICKET: usize = 0;

/// The index of the word with the ticket that is served.
pub(crate) const SERVING: usize = 1;

/// The index of the word with the number of entries.
pub(crate) const COUNT: usize = 2;

impl<T: Storied> TurnLock<T> {
    /// Draws the next ticket for the pass of `seat`, which must hold none, and returns it. Tickets
    /// are served in the order in which they are drawn.
    pub(crate) fn draw<R: Wait>(
        &self,
        rt: &R,
        seat: &mut Seat<Option<T>, View<T::Base, T::Entry>>,
    ) -> u64
        requires { (seat.old.table_id ≡ self.now)
            × (seat.old.me.0.stage ≡ Idle)
            × (seat.old.me.1 ≡ [])
            × ((b : T.Base) × (seat.old.me.0.base ≡ Some b)) }
        ensures { (seat.new.table_id ≡ seat.old.table_id)
            × (seat.new.id ≡ seat.old.id)
            × (seat.new.me ≡ (staged (Waits result) seat.old.me.0, [])) }
    {
        let shared = &self.table.shared;
        for _ in rt.forever() {
            let next = shared.peek(TICKET);
            if next < u64::MAX
                && shared.compare_exchange::<Draw>(seat, TICKET, next, next + 1) == next
            {
                return next;
            }
        }
        unreachable!()
    }

    /// Waits until the ticket, which was drawn for `seat`, is served, takes the value out of the
    /// lock, and returns it with the number of its entries.
    pub(crate) fn take<R: Wait>(
        &self,
        rt: &R,
        seat: &mut Seat<Option<T>, View<T::Base, T::Entry>>,
        ticket: u64,
    ) -> (T, u64)
        requires { (seat.old.table_id ≡ self.now)
            × (seat.old.me.0.stage ≡ Waits ticket)
            × (seat.old.me.1 ≡ [])
            × ((b : T.Base) × (seat.old.me.0.base ≡ Some b)) }
        ensures seat { (seat.new.table_id ≡ seat.old.table_id)
            × (seat.new.id ≡ seat.old.id)
            × (seat.new.me ≡ (taught ticket (T.story result.0) seat.old.me.0, (0, None) ∷ [])) }
        ensures value { (seat.old.me.0.base ≡ Some (T.base result.0))
            × IsPrefix seat.old.me.0.seen (T.story result.0) }
        ensures alone { seat.old.me.0.shares ≡ 1024 → T.story result.0 ≡ seat.old.me.0.seen }
        ensures count { result.1 ≡ length (T.story result.0) }
    {
        let shared = &self.table.shared;
        for _ in rt.forever() {
            if shared.load::<Look>(seat, SERVING) == ticket {
                let value = shared.exchange(seat, 0, None).unwrap();
                let count = shared.load::<Learn>(seat, COUNT);
                return (value, count);
            }
            self.wait_for(rt, ticket);
        }
        unreachable!()
    }

    /// Sleeps until the ticket is served. It may return earlier, so the caller must look again.
    fn wait_for<R: Wait>(&self, rt: &R, ticket: u64) {
        self.bells.mark(ticket);
        // Whoever passes the turn on from here on finds the mark.
        if self.table.shared.peek(SERVING) != ticket {
            self.bells.sleep(rt, ticket);
        }
    }

    /// Puts the value back into the lock, and counts the entry that was added if it has more than
    /// `before`, the number of its entries when it was taken out. It may have one more at most.
    pub(crate) fn put_back(
        &self,
        seat: &mut Seat<Option<T>, View<T::Base, T::Entry>>,
        value: T,
        before: u64,
    )
        requires seat { (seat.old.table_id ≡ self.now)
            × ((ticket : ℕ) × (seat.old.me.0.stage ≡ Learnt ticket))
            × (seat.old.me.1 ≡ (0, None) ∷ []) }
        requires value { (seat.old.me.0.base ≡ Some (T.base value))
            × (before ≡ length seat.old.me.0.seen) }
        requires story { GrowsByOneAtMost seat.old.me.0.seen (T.story value) }
        ensures seat { (seat.new.table_id ≡ seat.old.table_id)
            × (seat.new.id ≡ seat.old.id)
            × (seat.new.me.1 ≡ (0, Some value) ∷ [])
            × (seat.new.me.0.seen ≡ T.story value) }
        ensures view { ((T.story value ≡ seat.old.me.0.seen) × (seat.new.me.0 ≡ seat.old.me.0))
            ⊎ ((e : T.Entry) × (T.story value ≡ seat.old.me.0.seen ++ e ∷ [])
            × (seat.new.me.0 ≡ grown (T.story value) seat.old.me.0)) }
    {
        let shared = &self.table.shared;
        let grew = value.count() != before;
        let old = shared.exchange(seat, 0, Some(value));
        let None = old else { unreachable!() };
        if grew {
            shared.fetch_add::<Add>(seat, COUNT, 1);
        }
    }

    /// Serves the next ticket, and wakes its holder if it sleeps. `seat` must have the turn, and
    /// the value must be back in the lock; the seat then holds no ticket.
    pub(crate) fn pass_on(&self, seat: &mut Seat<Option<T>, View<T::Base, T::Entry>>)
        requires seat { (seat.old.table_id ≡ self.now)
            × ((ticket : ℕ) × (seat.old.me.0.stage ≡ Learnt ticket)) }
        requires value { (x : T) × (seat.old.me.1 ≡ (0, Some x) ∷ [])
            × (seat.old.me.0.base ≡ Some (T.base x))
            × (T.story x ≡ seat.old.me.0.seen) }
        ensures { (seat.new.table_id ≡ seat.old.table_id)
            × (seat.new.id ≡ seat.old.id)
            × (seat.new.me ≡ (staged Idle seat.old.me.0, [])) }
    {
        let served = self.table.shared.fetch_add::<PassOn>(seat, SERVING, 1);
        self.bells.ring(served.wrapping_add(1));
    }
}
