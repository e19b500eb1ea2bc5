//! The table behind a turn, and the rule that each step on it keeps.
ghost use Rattle.mt_turn.specs.Views.{first_view};
ghost use Rattle.mt_turn.specs.Private.Turning.{Turning};

use crate::recorded::Recorded;
use crate::view::View;
use atomic_table::TableRule;
use std::marker::PhantomData;
use std::snapshot::Snapshot;

/// The rule, told the value that the turn began with.
pub(crate) struct Rule<T> {
    value: PhantomData<T>,
}

impl<T: Recorded> TableRule<Option<T>, View<T::Entry, T::Fixed>, Snapshot<T>> for Rule<T> {
    ghost holds = { λ k. Turning T.history T.number T.fixed (T.fixed k.value) };

    ghost first = { λ k. first_view (T.fixed k.value) };
}
