//! The desk: how it begins, is shared and ends.
ghost use Rattle.std.specs.Prelude.{◌≡◌, ◌<◌, ◌^◌, false, [], length, IfOk, IfErr};
ghost use Rattle.mt_base.specs.History.{IsLegal};
ghost use Rattle.mt_turn.specs.Lending.{AllJoined, ClosesHistory};
ghost use Rattle.mt_turn.specs.Views.{first_view, giver, newcomer, taker, up_to};
ghost use Rattle.mt_desk.specs.Desk.{IsSeatOfDesk};

use crate::hand::Hand;
use crate::legal::Legal;
use mt_base::Memory;
use mt_picture::Picture;
use mt_probe::Snapshot;
use mt_turn::Turn;
use std::alloc::Global;
use std::marker::Model;

/// A seat of a desk. Contracts see it as a `SeatNow`: the turn that it is of, and what it knows.
pub type Seat = mt_turn::Seat<Legal>;

/// One kept picture behind a turn. Contracts see it as the name of the turn with the rules and tables.
#[derive(Drop)]
pub struct Desk {
    pub(crate) alloc: Global,
    pub(crate) turn: Turn<Legal>,
    // The picture as it was handed in. It tells the rules and tables.
    pub(crate) opening: Snapshot,
}

impl Model for Desk {
    ghost use Rattle.mt_desk.specs.Desk.{Desk};

    ghost Value = { Desk };

    ghost view = { λ d. record { home = d.turn; fixed = d.opening.setup } };
}

impl Desk {
    /// A desk over a picture that nothing was entered into, and its first seat, which has the number 0 and has seen nothing. The one error is
    /// want of memory, and the picture comes back with it as it was.
    pub fn make(alloc: Global, picture: Picture) -> Result<(Desk, Seat), (Picture, Memory)>
        requires empty { picture.history ≡ [] }
        ensures fixed { IfOk result (λ r. r.0.fixed ≡ picture.setup) }
        ensures ready { IfOk result (λ r. IsSeatOfDesk r.0 r.1) }
        ensures first { IfOk result (λ r. r.1.view ≡ first_view picture.setup) }
        ensures err { IfErr result (λ e. e.0 ≡ picture) }
    {
        let Ok(opening) = picture.snapshot() else {
            return Err((picture, Memory));
        };
        match Turn::make(alloc, Legal::of(picture)) {
            Ok((turn, seat)) => Ok((
                Desk {
                    alloc,
                    turn,
                    opening,
                },
                seat,
            )),
            Err((legal, memory)) => Err((legal.into_picture(), memory)),
        }
    }

    /// Where its memory comes from.
    pub fn alloc(&self) -> Global {
        self.alloc
    }

    /// A hand with a seat of this desk. It takes no memory.
    pub fn hand(&self, seat: Seat) -> Hand<'_>
        requires ready { IsSeatOfDesk self.now seat }
        ensures { result ≡ record { desk = self.now; view = seat.view; keeps_look = false } }
    {
        Hand {
            desk: self,
            seat,
            look: None,
        }
    }

    /// Splits a seat off the first one, with the next number and with all that the first one has seen. It takes no memory.
    ///
    /// The numbers are 1, 2, 3 and so on, at most 2^31 of them. `giver` and `newcomer` say what the two seats know.
    pub fn split(&self, seat: &mut Seat) -> Seat
        requires ready { IsSeatOfDesk self.now seat.old }
        requires first { seat.old.view.number ≡ 0 }
        requires room { length seat.old.view.gave < 2 ^ 31 }
        ensures ready { IsSeatOfDesk self.now seat.new × IsSeatOfDesk self.now result }
        ensures gives { seat.new.view ≡ giver seat.old.view }
        ensures comes { result.view ≡ newcomer seat.old.view }
        ensures in_order { seat.new.view.gave ≡ up_to result.view.number }
    {
        self.turn.split(seat)
    }

    /// Joins a seat into the first one, which keeps the longer of what the two have seen. It takes no memory.
    ///
    /// `taker` says what the first seat knows then: the other's number, seen and mine are among its joined.
    pub fn join(&self, seat: &mut Seat, other: Seat)
        requires ready { IsSeatOfDesk self.now seat.old × IsSeatOfDesk self.now other }
        requires first { seat.old.view.number ≡ 0 }
        ensures ready { IsSeatOfDesk self.now seat.new }
        ensures joins { seat.new.view ≡ taker seat.old.view other.view }
    {
        self.turn.join(seat, other);
    }

    /// Gives the picture, where every seat that was split off is joined again, as `AllJoined` says. It takes no memory.
    ///
    /// Its history is legal under the desk's rules and tables, and `ClosesHistory` says what it is: it begins with what each seat has seen, has each
    /// seat's entries and no others.
    pub fn close(self, seat: Seat) -> Picture
        requires ready { IsSeatOfDesk self seat }
        requires first { seat.view.number ≡ 0 }
        requires joined { AllJoined seat.view }
        ensures history { ClosesHistory (λ e. e.who) seat.view result.history }
        ensures fixed { result.setup ≡ self.fixed }
        ensures legal { IsLegal result.setup result.history }
    {
        let Desk {
            alloc: _,
            turn,
            opening: _,
        } = self;
        turn.close(seat).into_picture()
    }
}
