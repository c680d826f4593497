//! Passes, as their holders see them.
ghost use Rattle.std.specs.Prelude.{IsSome};

use crate::story::Storied;
use crate::view::View;
use atomic_table::Seat;
use std::marker::Model;

/// The right to take turns at one lock, together with the entries that its holder has seen. It
/// exists for proofs and takes no bytes.
#[derive(Drop)]
pub struct Pass<T: Storied> {
    pub(crate) seat: Seat<Option<T>, View<T::Base, T::Entry>>,
    pub(crate) ghost live: { IsSome seat.me.0.base },
}

impl<T: Storied> Model for Pass<T> {
    ghost use Rattle.std.specs.Prelude.{◌≡◌, []};
    ghost use Rattle.turn_lock.specs.declared.view.Stage.TheVariants.{Idle};
    ghost use Rattle.turn_lock.specs.Passes.{PassRecord, pass_of};

    ghost Value = { PassRecord T.Base T.Entry };

    ghost view = { λ p. pass_of p.seat.table_id p.seat.me.0 p.live };

    ghost invariant = { λ p. (p.seat.me.0.stage ≡ Idle) × (p.seat.me.1 ≡ []) };
}
