//! A seat of a turn, and the turn itself.
ghost use Rattle.std.specs.Prelude.{◌≡◌};
ghost use Rattle.mt_turn.specs.Private.Views.{carried_of};

use crate::recorded::Recorded;
use crate::turn_table::{Token, TurnTable};
use std::marker::Model;

/// A seat of a turn. Each thread that is to have the turn has one of its own.
///
/// Contracts see it as a `SeatNow`: the turn that it is of, its `home`, and what it knows, its `view`.
/// Outside of a turn its phase is `Idle`. A seat that is dropped while it has the turn stops all others.
pub struct Seat<T: Recorded> {
    pub(crate) token: Token<T>,
    pub(crate) number: u32,
}

impl<T: Recorded> Model for Seat<T> {
    ghost use Rattle.std.specs.Prelude.{◌≡◌};
    ghost use Rattle.mt_turn.specs.Seats.{SeatNow};
    ghost use Rattle.mt_turn.specs.Private.Views.{carried_of};

    ghost Value = { SeatNow T.Entry T.Fixed };

    ghost view = { λ s. record { home = s.token.table_id; view = s.token.me.0 } };

    ghost invariant = { λ s. (s.number ≡ s.token.me.0.number) × (s.token.me.1 ≡ carried_of s.token.me.0.phase) };
}

impl<T: Recorded> Seat<T> {
    pub(crate) fn into_token(self) -> Token<T>
        ensures own { result.table_id ≡ self.home }
        ensures view { result.me.0 ≡ self.view }
        ensures carries { result.me.1 ≡ carried_of self.view.phase }
    {
        let Self { token, number: _ } = self;
        token
    }
}

impl<T: Recorded> Drop for Seat<T> {
    fn drop(self) {
        let Self {
            token: _,
            number: _,
        } = self;
    }
}

/// One value behind a turn. Contracts see it as the name that its seats have as their `home`.
#[derive(Drop)]
pub struct Turn<T: Recorded> {
    pub(crate) inner: TurnTable<T>,
}

impl<T: Recorded> Model for Turn<T> {
    ghost use Rattle.atomic_table.specs.Seated.{TableId};

    ghost Value = { TableId };

    ghost view = { λ t. t.inner.table.shared.table_id };
}
