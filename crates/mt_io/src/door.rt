//! Where links come from.
ghost use Rattle.std.specs.Prelude.{◌≡◌, ◌<◌, ◌≤◌, ℕ, List, [], ◌∷◌, MatchResult};
ghost use Rattle.std.specs.declared.option.Option.{Option};
ghost use Rattle.mt_io.specs.Causes.{HasCause};
ghost use Rattle.mt_io.specs.Door.{Count, Gains, GivesLink, listened, took_one};

use crate::duplex::Duplex;
use crate::source::Failed;

/// Where links come from, and go back to. It counts its faults.
pub trait Door {
    /// What it gives.
    type Link: Duplex + Send + Drop;

    /// What it tells of its last `listen` that succeeded, and since: the port, the sessions, the links given and those back. A new door
    /// tells of no port and no sessions.
    ghost count: { Self → Count };

    /// The links that it has still to give, where it tells them.
    ghost still: { Self → Option (List Self.Link) };

    /// The links that are back, where it tells them.
    ghost returned: { Self → Option (List Self.Link) };

    /// How often it has failed. The count never falls, and stays at `u64::MAX`.
    ghost faults: { Self → ℕ };

    /// The count of faults.
    fn door_faults(&self) -> u64
        ensures { result ≡ faults self.now };

    /// Opens the door at a port, for so many sessions. Where it fails, it stays as it was. `Failed` comes only where the count rose in
    /// this call.
    fn listen(&mut self, port: u16, sessions: u32) -> Result<(), Failed>
        ensures count { MatchResult result (λ _. count self.new ≡ listened port sessions) (λ _. count self.new ≡ count self.old) }
        ensures links { (still self.new ≡ still self.old) × (returned self.new ≡ returned self.old) }
        ensures cause { HasCause (faults self.old) (faults self.new) result };

    /// The next link; none exactly where as many were given as there are sessions. `Failed` comes only where fewer were given and the count
    /// rose in this call.
    fn next_link(&mut self) -> Result<Option<Self::Link>, Failed>
        ensures gives { GivesLink (count self.old) (count self.new) (still self.old) (still self.new) result }
        ensures back { returned self.new ≡ returned self.old }
        ensures cause { HasCause (faults self.old) (faults self.new) result };

    /// Takes a link back, in the order in which links were given. Not all that were given may be back.
    fn back(&mut self, link: Self::Link)
        requires { (count self.old).back < (count self.old).given }
        ensures count { count self.new ≡ took_one (count self.old) }
        ensures still { still self.new ≡ still self.old }
        ensures returned { Gains (returned self.old) (returned self.new) (link ∷ []) }
        ensures faults { faults self.old ≤ faults self.new };
}
