//! How the answers of a seat follow each other.
ghost use Rattle.std.specs.Prelude.{◌≡◌, ◌++◌, ℕ, List, Result, length};
ghost use Rattle.mt_base.specs.declared.command.Command.{Command};
ghost use Rattle.mt_base.specs.declared.command.Entered.{Entered};
ghost use Rattle.mt_base.specs.Picture.{State};
ghost use Rattle.mt_base.specs.Tables.{Setup};
ghost use Rattle.mt_board.specs.declared.ask.Answer.{Answer};
ghost use Rattle.mt_board.specs.declared.ask.Ask.{Ask};
ghost use Rattle.mt_board.specs.declared.no.No.{No};
ghost use Rattle.mt_board.specs.Asking.{IsRead};
ghost use Rattle.mt_board.specs.Changing.{HasEntered, IsChanged};
ghost use Rattle.mt_board.specs.Probing.{IsPast};
ghost use Rattle.mt_board.specs.BoardSeat.{BoardSeat, GoesOn, HasLooked, HasSeen, IsSameSeat, entries_by};
ghost use Rattle.mt_board.specs.Settling.{AreRenewalsAsked};

/// A command's answer after a look is its answer. Whatever it is answered, it is the same seat, and what it has seen
/// goes on from what it had seen; so what is past for a seat stays past. What is entered has the version of all that the seat has seen then.
/// Renewals after renewals are renewals. No entry of the seat's own is hidden in what it has seen, and a look hides none.
pub fn seat_laws()
    ensures look_on { (s t u : BoardSeat) → HasLooked s t → HasLooked t u → HasLooked s u }
    ensures change_on { (s t u : BoardSeat) (command : Command) (result : Result Entered No) → HasLooked s t → IsChanged t command result u
        → IsChanged s command result u }
    ensures read_goes_on { (s t : BoardSeat) (asked : Ask) (result : Result Answer No) → IsRead s asked result t → IsSameSeat s t × GoesOn s.seen t.seen }
    ensures change_goes_on { (s t : BoardSeat) (command : Command) (result : Result Entered No) → IsChanged s command result t
        → IsSameSeat s t × GoesOn s.seen t.seen }
    ensures renewals_go_on { (s t : BoardSeat) (calls : List (List ℕ)) (results : List (Result Entered No)) → AreRenewalsAsked s calls results t
        → IsSameSeat s t × GoesOn s.seen t.seen }
    ensures renewals_add { (s t u : BoardSeat) (calls more : List (List ℕ)) (results others : List (Result Entered No)) → AreRenewalsAsked s calls results t
        → AreRenewalsAsked t more others u → AreRenewalsAsked s (calls ++ more) (results ++ others) u }
    ensures past { (s t : BoardSeat) (fixed : Setup) (state : State) (version : ℕ) → IsPast s fixed state version → IsSameSeat s t → GoesOn s.seen t.seen
        → IsPast t fixed state version }
    ensures own { (s t : BoardSeat) (version : ℕ) → HasSeen s t version → entries_by t.number t.seen ≡ t.mine }
    ensures own_on { (s t : BoardSeat) → HasLooked s t → entries_by s.number s.seen ≡ s.mine → entries_by t.number t.seen ≡ t.mine }
    ensures version { (s t : BoardSeat) (command : Command) (entered : Entered) → HasEntered s t command entered → entered.version ≡ length t.seen }
{}
