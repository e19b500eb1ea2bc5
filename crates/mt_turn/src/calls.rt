//! What a turn offers.
ghost use Rattle.std.specs.Prelude.{◌≡◌, ℕ, ◌^◌, ◌<◌, ◌≤◌, [], length, IfOk, IfErr, Some};
ghost use Rattle.mt_turn.specs.declared.view.Phase.TheVariants.{Idle, Holds};
ghost use Rattle.mt_turn.specs.Views.{first_view, with_phase, giver, newcomer, taker, up_to};
ghost use Rattle.mt_turn.specs.Lending.{HasTurn, Lent, Grows, Left, AllJoined, ClosesHistory};

use crate::held::Held;
use crate::recorded::Recorded;
use crate::seat::{Seat, Turn};
use crate::turn_table::TurnTable;
use mt_memory::Memory;
use std::alloc::Global;
use std::snapshot::Snapshot;
use std::sync::Wait;

impl<T: Recorded> Seat<T> {
    /// 0 for the first seat, and else the number that the split gave.
    pub fn number(&self) -> u32
        ensures { result ≡ self.now.view.number }
    {
        self.number
    }
}

impl<T: Recorded> Turn<T> {
    /// A turn over a value with no entry yet, and its first seat, which has the number 0 and has seen nothing.
    ///
    /// `first_view` says what the seat knows. The one error is want of memory, and the value comes back with it.
    pub fn make(alloc: Global, value: T) -> Result<(Turn<T>, Seat<T>), (T, Memory)>
        requires empty { T.history value ≡ [] }
        ensures ok { IfOk result (λ r. (r.1.home ≡ r.0) × (r.1.view ≡ first_view (T.fixed value))) }
        ensures err { IfErr result (λ e. e.0 ≡ value) }
    {
        match TurnTable::open(alloc, value) {
            Ok((inner, token)) => Ok((Turn { inner }, Seat { token, number: 0 })),
            Err(failed) => Err(failed),
        }
    }

    /// Splits a seat off the first one, with the next number and with all that the first one has seen. It takes no memory.
    ///
    /// The numbers are 1, 2, 3 and so on, at most 2^31 of them. `giver` and `newcomer` say what the two seats know.
    pub fn split(&self, seat: &mut Seat<T>) -> Seat<T>
        requires own { seat.old.home ≡ self.now }
        requires first { seat.old.view.number ≡ 0 }
        requires idle { seat.old.view.phase ≡ Idle }
        requires room { length seat.old.view.gave < 2 ^ 31 }
        ensures own { (seat.new.home ≡ self.now) × (result.home ≡ self.now) }
        ensures gives { seat.new.view ≡ giver seat.old.view }
        ensures comes { result.view ≡ newcomer seat.old.view }
        ensures in_order { seat.new.view.gave ≡ up_to result.view.number }
    {
        let (token, number) = self.inner.split(&mut seat.token);
        Seat { token, number }
    }

    /// Joins a seat into the first one, which keeps the longer of what the two have seen. It takes no memory.
    ///
    /// `taker` says what the first seat knows then: the other's number, seen and mine are among its joined.
    pub fn join(&self, seat: &mut Seat<T>, other: Seat<T>)
        requires own { (seat.old.home ≡ self.now) × (other.home ≡ self.now) }
        requires first { seat.old.view.number ≡ 0 }
        requires idle { (seat.old.view.phase ≡ Idle) × (other.view.phase ≡ Idle) }
        ensures own { seat.new.home ≡ self.now }
        ensures joins { seat.new.view ≡ taker seat.old.view other.view }
    {
        let token = other.into_token();
        self.inner.join(&mut seat.token, token);
    }

    /// Waits for the turn, and lends the value. What is said holds if it returns.
    ///
    /// `Lent` says how the value stands to what the seat knows: its history begins with what the seat has seen, and no later entry has the
    /// seat's number. While another seat has the turn the thread sleeps. No clause says that the turn comes.
    pub fn enter<R: Wait>(&self, rt: &R, seat: &mut Seat<T>) -> Held<T>
        requires own { seat.old.home ≡ self.now }
        requires idle { seat.old.view.phase ≡ Idle }
        ensures own { (seat.new.home ≡ self.now) × (result.home ≡ self.now) }
        ensures holds { (t : ℕ) × (seat.new.view ≡ with_phase seat.old.view (Holds t (T.history result.lent))) }
        ensures lent { Lent T.history T.number T.fixed seat.old.view result.value }
        ensures unchanged { result.value ≡ result.lent }
    {
        let value = self.inner.enter(rt, &mut seat.token);
        Held {
            lent: Snapshot::of(&value),
            of: Snapshot::of(self),
            count: value.count(),
            value,
        }
    }

    /// Takes the value back, and passes the turn on. It takes no memory.
    ///
    /// `Grows` says what history may be left, of at most 2^32 entries, and `Left` what the seat knows then: it has seen all of that history.
    pub fn leave(&self, seat: &mut Seat<T>, held: Held<T>)
        requires own { (seat.old.home ≡ self.now) × (held.home ≡ self.now) }
        requires holds { HasTurn seat.old.view (T.history held.lent) }
        requires fixed { Some (T.fixed held.value) ≡ seat.old.view.fixed }
        requires grows { Grows T.number seat.old.view.number (T.history held.lent) (T.history held.value) }
        requires room { length (T.history held.value) ≤ 2 ^ 32 }
        ensures own { seat.new.home ≡ self.now }
        ensures idle { seat.new.view.phase ≡ Idle }
        ensures left { Left T.number seat.old.view (T.history held.lent) (T.history held.value) seat.new.view }
    {
        let Held {
            value,
            lent,
            of: _,
            count,
        } = held;
        self.inner.leave(&mut seat.token, value, lent, count);
    }

    /// Gives the value, where every seat that was split off is joined again, as `AllJoined` says. It takes no memory.
    ///
    /// `ClosesHistory` says what its history is: it begins with what each seat has seen, has each seat's entries and no others.
    pub fn close(self, seat: Seat<T>) -> T
        requires own { seat.home ≡ self }
        requires first { seat.view.number ≡ 0 }
        requires idle { seat.view.phase ≡ Idle }
        requires joined { AllJoined seat.view }
        ensures history { ClosesHistory T.number seat.view (T.history result) }
        ensures fixed { Some (T.fixed result) ≡ seat.view.fixed }
    {
        let Turn { inner } = self;
        inner.close(seat.into_token())
    }
}
