//! The kinds of step: one type each, which says what the step tells or how it changes views.
ghost use Rattle.mt_turn.specs.Private.Steps.{DrawsTicket, Looks, SeesHistory, HandsOn, Numbers};
ghost use Rattle.mt_turn.specs.Views.{giver, newcomer, taker};
ghost use Rattle.mt_turn.specs.Private.Views.{spent};

use crate::recorded::Recorded;
use crate::view::View;
use atomic_table::{Join, Play, Split};
use std::marker::PhantomData;

/// Draw a ticket.
pub(crate) struct Draw;

impl<T, E, F> Play<Option<T>, View<E, F>> for Draw {
    ghost then = { λ _. DrawsTicket };
}

/// Look at the ticket being served.
pub(crate) struct Peek<T> {
    value: PhantomData<T>,
}

impl<T: Recorded> Play<Option<T>, View<T::Entry, T::Fixed>> for Peek<T> {
    ghost then = { λ _. Looks T.history T.number T.fixed };
}

/// Count the entries that were added.
pub(crate) struct Add<T> {
    value: PhantomData<T>,
}

impl<T: Recorded> Play<Option<T>, View<T::Entry, T::Fixed>> for Add<T> {
    ghost then = { λ _. SeesHistory T.history T.number };
}

/// Pass the turn on.
pub(crate) struct Pass;

impl<T, E, F> Play<Option<T>, View<E, F>> for Pass {
    ghost then = { λ _. HandsOn };
}

/// Draw the next seat's number.
pub(crate) struct Number;

impl<T, E, F> Play<Option<T>, View<E, F>> for Number {
    ghost then = { λ _. Numbers };
}

/// Split a seat off.
pub(crate) struct Cut;

impl<E, F> Split<View<E, F>> for Cut {
    ghost left = { giver };

    ghost right = { newcomer };
}

/// Join a seat into the first one.
pub(crate) struct Glue;

impl<E, F> Join<View<E, F>> for Glue {
    ghost both = { taker };

    ghost spent = { spent };
}
