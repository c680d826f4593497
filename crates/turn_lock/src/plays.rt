//! The invariant of the lock's table for the proof, and what each step does to it.
ghost use Rattle.turn_lock.specs.Turns.{KeepsTurns, starting, drawn, looked, learns, adds, passed, settles, cut, given, both, spent};

use crate::story::Storied;
use crate::view::View;
use atomic_table::{Join, Play, Split, TableRule};
use std::snapshot::Snapshot;

/// The invariant of the lock's table.
pub struct Turns;

impl<T: Storied> TableRule<Option<T>, View<T::Base, T::Entry>, Snapshot<T>> for Turns {
    ghost holds = { λ _. KeepsTurns T.base T.story };

    ghost first = { λ key. starting (T.base key.value) (T.story key.value) };
}

/// Draws the next ticket.
pub(crate) struct Draw;

impl<T: Storied> Play<Option<T>, View<T::Base, T::Entry>> for Draw {
    ghost then = { drawn };
}

/// Reads the served ticket. If it is the caller's own, the turn has come.
pub(crate) struct Look;

impl<T: Storied> Play<Option<T>, View<T::Base, T::Entry>> for Look {
    ghost then = { looked T.base T.story };
}

/// Reads the count of entries in the caller's turn, after which the caller has seen the whole list.
pub(crate) struct Learn;

impl<T: Storied> Play<Option<T>, View<T::Base, T::Entry>> for Learn {
    ghost then = { learns };
}

/// Counts the entry that was added.
pub(crate) struct Add;

impl<T: Storied> Play<Option<T>, View<T::Base, T::Entry>> for Add {
    ghost then = { adds T.story };
}

/// Serves the next ticket.
pub(crate) struct PassOn;

impl<T: Storied> Play<Option<T>, View<T::Base, T::Entry>> for PassOn {
    ghost then = { passed };
}

/// Reads a word after a join, for what the invariant says of the joined pass.
pub(crate) struct Settle;

impl<T: Storied> Play<Option<T>, View<T::Base, T::Entry>> for Settle {
    ghost then = { settles };
}

/// How a pass is split, and how two are joined.
pub(crate) struct Share;

impl<B, E> Split<View<B, E>> for Share {
    ghost left = { cut };

    ghost right = { given };
}

impl<B, E> Join<View<B, E>> for Share {
    ghost both = { both };

    ghost spent = { spent };
}
