//! A value that is lent.
ghost use Rattle.std.specs.Prelude.{◌≡◌};
ghost use Rattle.std.specs.Borrow.{Lends, sem};
ghost use Rattle.mt_turn.specs.contracts.held.Held.{the_row};

use crate::recorded::Recorded;
use crate::seat::Turn;
use std::marker::Model;
use std::snapshot::Snapshot;

/// A value that `enter` lends. It cannot be dropped: only `leave` takes it.
///
/// Contracts see it as a `Loan`: the turn that it is of, its `home`, the value as it was `lent`, and the `value` as it is.
pub struct Held<T: Recorded> {
    pub(crate) value: T,
    pub(crate) lent: Snapshot<T>,
    pub(crate) of: Snapshot<Turn<T>>,
    /// The number of entries when it was lent.
    pub(crate) count: u64,
}

impl<T: Recorded> Model for Held<T> {
    ghost use Rattle.std.specs.Prelude.{◌≡◌, length};
    ghost use Rattle.mt_turn.specs.Seats.{Loan};

    ghost Value = { Loan T };

    ghost view = { λ h. record { home = h.of.value; lent = h.lent.value; value = h.value } };

    ghost invariant = { λ h. h.count ≡ length (T.history h.lent.value) };
}

impl<T: Recorded> Held<T> {
    /// The value as it is.
    pub fn value(&self) -> &T
        ensures { result.now ≡ self.now.value }
    {
        &self.value
    }

    /// The value, to be changed. When the borrow ends, it is what was written through it.
    pub fn value_mut(&mut self) -> &mut T
        ensures* writes_back { sem 𝓛 (Lends (the_row T.row T.Entry.row T.Fixed.row T.Recorded) T.row self.entry result (λ w. record { home = self.old.home; lent = self.old.lent; value = w })) }
        ensures value { result.now ≡ self.old.value }
    {
        &mut self.value
    }
}
