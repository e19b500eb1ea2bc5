//! A session at work: its role, its book and its board, seen as one.
ghost use Rattle.std.specs.Prelude.{◌≡◌, false, IfOk};
ghost use Rattle.std.specs.Thread.{IsSync};
ghost use Rattle.mt_base.specs.Bounds.{IsAskedFor, IsBoundedCommand};
ghost use Rattle.mt_base.specs.Tally.{raised};
ghost use Rattle.mt_board.specs.Asking.{IsRead, IsShortAnswer};
ghost use Rattle.mt_board.specs.Changing.{IsChanged};
ghost use Rattle.mt_board.specs.Probing.{IsPast};
ghost use Rattle.mt_board.specs.BoardSeat.{BoardSeat};
ghost use Rattle.mt_board.specs.Book.{empty_book, with_probe};
ghost use Rattle.mt_session.specs.Private.Keeping.{StaysOn};
ghost use Rattle.mt_session.specs.Session.{new_session, with_seat};

use mt_base::{Command, Entered, Role};
use mt_board::{Answer, Ask, Board, Book, No, Probed};
use mt_io::Gate;
use std::marker::Model;
use std::sync::Wait;
use std::thread::Threads;

/// A session: its role, its book of probes, and its board. It is seen as a session of the definitions, beside what tells the turn that the
/// board's seat is of, and whether the board keeps a look.
pub struct Serving<B: Board> {
    pub(crate) role: Option<Role>,
    pub(crate) book: Book<B::Probe>,
    pub(crate) board: B,
}

impl<B: Board> Model for Serving<B> {
    ghost use Rattle.mt_board.specs.Book.{told_book};
    ghost use Rattle.mt_session.specs.Private.Keeping.{ArePast, ServingNow};

    ghost Value = { ServingNow B.Home };

    ghost view = { λ s. record { session = record { role = s.role; book = told_book B.Probe.told s.book; seat = B.seat s.board }; home = B.home s.board; keeps_look = B.keeps_look s.board } };

    ghost invariant = { λ s. ArePast B.Probe.told B.Probe.fixed B.Probe.state (B.seat s.board) s.book.last };
}

impl<B: Board> Serving<B> {
    /// A session that has no role, and an empty book.
    pub fn of(board: B, book: Book<B::Probe>) -> Serving<B>
        requires { book ≡ empty_book }
        ensures new { result.session ≡ new_session (B.seat board) }
        ensures home { result.home ≡ B.home board }
    {
        Serving {
            role: None,
            book,
            board,
        }
    }

    /// Its board.
    pub fn board(self) -> B
        ensures seat { B.seat result ≡ self.session.seat }
        ensures home { B.home result ≡ self.home }
    {
        let Serving {
            role: _role,
            book: _book,
            board,
        } = self;
        board
    }

    // Where no whole line is ahead, lets go of the look at the picture that tries are answered from: what is read next may have been asked for later
    // than that.
    pub(crate) fn before_read(&mut self, ahead: bool)
        ensures same { (self.new.session ≡ self.old.session) × (self.new.home ≡ self.old.home) }
        ensures anew { ahead ≡ false → self.new.keeps_look ≡ false }
    {
        if !ahead {
            self.board.look_anew();
        }
    }

    // Reads.
    pub(crate) fn read<R: Threads + Wait + Sync>(&mut self, rt: &R, ask: &Ask) -> Result<Answer, No>
        requires sync { IsSync R.row }
        ensures read { (seat : BoardSeat) × IsRead self.old.session.seat ask.now result seat × (self.new.session ≡ with_seat self.old.session seat) }
        ensures short { IfOk result IsShortAnswer }
        ensures on { StaysOn self.old self.new }
    {
        self.board.read(rt, ask)
    }

    // Asks for a command.
    pub(crate) fn change<R: Threads + Wait + Sync, G: Gate>(
        &mut self,
        rt: &R,
        command: Command,
        gate: &G,
    ) -> Result<Entered, No>
        requires sync { IsSync R.row }
        requires bounded { IsBoundedCommand command }
        requires asked_for { IsAskedFor command }
        ensures changed { (seat : BoardSeat) × IsChanged self.old.session.seat command result seat × (self.new.session ≡ with_seat self.old.session seat) }
        ensures on { StaysOn self.old self.new }
    {
        self.board.change(rt, command, gate)
    }

    // Puts a probe in the book; its number.
    pub(crate) fn keep(&mut self, probe: B::Probe) -> u64
        requires { IsPast self.old.session.seat (B.Probe.fixed probe) (B.Probe.state probe) (B.Probe.told probe).version }
        ensures number { result ≡ raised self.old.session.book.count }
        ensures kept { self.new.session ≡ record self.old.session { book = with_probe self.old.session.book (B.Probe.told probe) } }
        ensures on { StaysOn self.old self.new }
    {
        self.book.put(probe)
    }

    // How many probes were ever put in the book.
    pub(crate) fn count(&self) -> u64
        ensures { result ≡ self.now.session.book.count }
    {
        self.book.count()
    }
}
