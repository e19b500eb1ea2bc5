ghost use Rattle.std.specs.Prelude.{◌≡◌, ℕ, Bool, List, All, true, false, Ok};
ghost use Rattle.mt_base.specs.declared.area.Area.{Area};
ghost use Rattle.mt_base.specs.Complete.{IsComplete};
ghost use Rattle.mt_base.specs.History.{IsReplayable};
ghost use Rattle.mt_base.specs.Tables.{Setup};
ghost use Rattle.mt_io.specs.Lines.{lines_of};
ghost use Rattle.mt_picture.specs.Story.{Story};
ghost use Rattle.mt_read.specs.declared.request.Request.TheVariants as requests;
ghost use Rattle.mt_serve.specs.Summary.{HasServedWhole};
ghost use Rattle.mt_serve.specs.Tied.{Doorway};
ghost use Rattle.mt_serve.specs.declared.counts.Counts.{Counts};
ghost use Rattle.mt_standby.specs.Law.{HasCaughtUp};
ghost use Rattle.mt_write.specs.declared.reply.Reply.{Reply};
ghost use Rattle.mt_top.specs.declared.status.Status.TheVariants.{Done};
ghost use Rattle.mt_top.specs.Following.{AreStoodBy, EndsCaughtUp, FollowsPrimary};
ghost use Rattle.mt_top.specs.Run.{StandbyMeans};
ghost use Rattle.mt_top.specs.Script.{IsAnswered, asked};
ghost use Rattle.mt_world.specs.World.{AreAreasTold, IsAreaAdded, World};

use mt_io::Duplex;

/// A line of a world has one reply, and leaves one world, but where memory is wanted. So the bytes that answer a script in which no line
/// wants memory are determined by its lines.
pub fn one_reply_law()
    ensures { (w : World) (line : List ℕ) (r s : Reply) (next other : World) → IsAnswered w (asked w line) r next
        → IsAnswered w (asked w line) s other → (r ≡ s) × (next ≡ other) }
{}

/// Once the picture has begun, `areas` is answered each passage of a trajectory of the state of the history through one of the areas, over
/// every instant of the window, and no other, in order, with the version; and it changes nothing. Before that, `area` puts an area after the
/// others, or is refused for the first reason of three. All this but where memory is wanted.
pub fn areas_law()
    ensures told { (w : World) (who : ℕ) (reply : Reply) (next : World) → w.begun ≡ true → IsAnswered w (Ok (who, requests.Areas)) reply next
        → AreAreasTold w reply next }
    ensures added { (w : World) (who : ℕ) (area : Area) (reply : Reply) (next : World) → w.begun ≡ false
        → IsAnswered w (Ok (who, requests.Area area)) reply next → IsAreaAdded w area reply next }
{}

/// A run of `standby` that was given the lines that set a primary up, and then the texts of the first n entries of the primary's history, and
/// that wrote no `memory`, has exactly these entries, and publishes what the primary published at version n. `lines` says so of lines that were
/// answered, whatever comes after them; `done` of a whole input, by what [`run`](crate::run) with the status `Done` means. That no such text
/// is too long for a line is no premise, and follows from replaying.
pub fn standby_run_law()
    ensures lines { (primary : Story) (n : ℕ) (lines : List (List ℕ)) (bytes : List ℕ) (end : World) → FollowsPrimary primary n lines bytes
        → AreStoodBy lines bytes end → HasCaughtUp primary.setup primary.history n end }
    ensures done { (primary : Story) (n : ℕ) (input left written : List ℕ) → FollowsPrimary primary n (lines_of input) written
        → StandbyMeans Done input left written → EndsCaughtUp primary n input left written }
{}

/// The picture that `serve` closes can be followed: its history can be replayed, and each of its entries is complete. So a standby of it needs no
/// other premise than those of [`standby_run_law`].
pub fn served_law<L: Duplex>()
    ensures { (setup : Setup) (port sessions workers : ℕ) (old new : Doorway L) (faulted : Bool) (closed : Story) (counts : Counts)
        → HasServedWhole L.Source L.Sink setup port sessions workers old new faulted closed counts
        → IsReplayable closed.setup closed.history × All IsComplete closed.history }
{}
