//! A seat in the hand of a thread.
ghost use Rattle.std.specs.Prelude.{◌≡◌, length, IfOk};
ghost use Rattle.mt_board.specs.BoardSeat.{HasSeen};
ghost use Rattle.mt_desk.specs.Desk.{IsSeatOfDesk, seat_of, seat_of_hand};
ghost use Rattle.mt_desk.specs.Private.Taken.{StandsFor};
ghost use Rattle.mt_turn.specs.Lending.{AreViewsOfOneSeat};

use crate::desk::{Desk, Seat};
use mt_base::Memory;
use mt_probe::Snapshot;
use std::marker::Model;
use std::sync::Wait;

/// A seat of a desk, through which one thread reads and changes the picture: it is a `Board`. Contracts see it as its desk with what the seat
/// knows, and whether it keeps a snapshot.
///
/// It may keep the snapshot that it last took, as long as that stands for all that the seat has seen: tries are answered from it.
#[derive(Drop)]
pub struct Hand<'a> {
    pub(crate) desk: &'a Desk,
    pub(crate) seat: Seat,
    pub(crate) look: Option<Snapshot>,
}

impl<'a> Model for Hand<'a> {
    ghost use Rattle.std.specs.Prelude.{IfSome, is_some};
    ghost use Rattle.mt_desk.specs.Desk.{Hand, IsSeatOfDesk, seat_of};
    ghost use Rattle.mt_desk.specs.Private.Taken.{IsLook};

    ghost Value = { Hand };

    ghost view = { λ h. record { desk = h.desk.now; view = h.seat.view; keeps_look = is_some h.look } };

    ghost invariant = { λ h. IsSeatOfDesk h.desk.now h.seat × IfSome h.look (IsLook (seat_of h.desk.now.fixed h.seat.view)) };
}

impl<'a> Hand<'a> {
    /// Its seat. It takes no memory.
    pub fn back(self) -> Seat
        ensures seat { result ≡ seat_of_hand self.entry }
        ensures ready { IsSeatOfDesk self.entry.desk result }
    {
        let Hand {
            desk: _,
            seat,
            look: _,
        } = self;
        seat
    }

    // The snapshot that is kept; or one that is taken now, and kept. It stands for all that the seat has seen then.
    pub(crate) fn look<R: Wait>(&mut self, rt: &R) -> Result<Snapshot, Memory>
        ensures desk { self.new.desk ≡ self.old.desk }
        ensures same { AreViewsOfOneSeat self.old.view self.new.view }
        ensures seen { HasSeen (seat_of self.old.desk.fixed self.old.view) (seat_of self.new.desk.fixed self.new.view) (length self.new.view.seen) }
        ensures taken { IfOk result (StandsFor (seat_of self.new.desk.fixed self.new.view)) }
    {
        if let Some(look) = &self.look {
            return look.share();
        }
        let taken = self.desk.take(rt, &mut self.seat)?;
        self.look = Some(taken.share()?);
        Ok(taken)
    }
}
