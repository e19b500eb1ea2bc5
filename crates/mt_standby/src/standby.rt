//! The picture that follows.
ghost use Rattle.std.specs.Prelude.{◌≡◌, [], IfErr, IfOk, OnErr};
ghost use Rattle.mt_base.specs.History.{IsReplayable};
ghost use Rattle.mt_history.specs.Followed.{HasFollowed, IsNotFollowed};
ghost use Rattle.mt_history.specs.Rebuilt.{IsReadyToDecide};

use mt_base::{Entered, Entry, Tally};
use mt_history::{FollowNo, follow_entry};
use mt_picture::Picture;
use std::alloc::Global;
use std::marker::Model;
use std::thread::Threads;

/// A picture that follows a primary's history: its own is a beginning of that, and can be replayed.
#[derive(Drop)]
pub struct Standby {
    pub(crate) alloc: Global,
    pub(crate) picture: Picture,
    tests: Tally,
}

impl Model for Standby {
    ghost use Rattle.mt_base.specs.History.{IsReplayable};
    ghost use Rattle.mt_picture.specs.Story.{Story};

    ghost Value = { Story };

    ghost view = { λ s. s.picture };

    ghost invariant = { λ s. IsReplayable s.picture.setup s.picture.history };
}

impl Standby {
    /// A standby that has followed nothing yet. It asks for a picture without an entry, which has the rules and tables of the primary.
    pub fn make<R: Threads + Sync>(rt: &R, alloc: Global, picture: Picture) -> Standby
        requires { picture.history ≡ [] }
        ensures { result ≡ picture }
    {
        Standby {
            alloc,
            picture,
            tests: Tally::new(rt),
        }
    }

    /// Follows an entry: puts it after the history, where it is what is decided of its command, asked for by who made it, on the state of that
    /// history. Else it says why not, and changes nothing; that an acceptance names a version above the one now is told before any refusal.
    /// Whether its clearance was free on the version that it names isn't tested again.
    ///
    /// It asks that the numbers of the entry are within their bounds and that its clearance says from when it holds, as those do that are read.
    pub fn follow(&mut self, entry: &Entry) -> Result<Entered, FollowNo>
        requires { IsReadyToDecide entry.now }
        ensures followed { IfOk result (HasFollowed self.old entry.now self.new) }
        ensures no { IfErr result (IsNotFollowed self.old entry.now) }
        ensures unchanged { OnErr result (self.new ≡ self.old) }
    {
        follow_entry(self.alloc, &mut self.picture, entry, &mut self.tests)
    }

    /// The picture. Its history can be replayed: so what is published of it is what is published of the state of its entries.
    pub fn picture(&self) -> &Picture
        ensures picture { result.now ≡ self.now }
        ensures replayable { IsReplayable self.now.setup self.now.history }
    {
        &self.picture
    }
}
