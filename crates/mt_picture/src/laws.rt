ghost use Rattle.std.specs.Prelude.{◌≤◌, ℕ, Bool, List, length};
ghost use Rattle.mt_base.specs.declared.clearance.Clearance.{Clearance};
ghost use Rattle.mt_base.specs.declared.command.Command.TheVariants.{Accept, Withdraw};
ghost use Rattle.mt_base.specs.declared.command.Entered.{Entered};
ghost use Rattle.mt_base.specs.declared.command.Refusal.TheVariants.{Stale};
ghost use Rattle.mt_base.specs.declared.conflict.Conflict.{Conflict};
ghost use Rattle.mt_base.specs.declared.hit.Hit.{Hit};
ghost use Rattle.mt_base.specs.Effect.{state_of};
ghost use Rattle.mt_base.specs.History.{IsLegal, WasFree};
ghost use Rattle.mt_base.specs.Picture.{IsPublished};
ghost use Rattle.mt_board.specs.declared.no.No.TheVariants.{Refused};
ghost use Rattle.mt_picture.specs.Laws.{IsRestored, IsSinceProbe};
ghost use Rattle.mt_picture.specs.Story.{IsEntered, IsCommandRefused, Story};

use mt_law::{strike_out_law, withdrawal_law};

/// Withdrawing restores: where a withdrawal was entered and the history is legal then, what is published is what is published of the history
/// without the tentative clearance that it withdrew and itself.
pub fn restoring_law()
    ensures { (before after : Story) (who : ℕ) (call : List ℕ) (force : Bool) (entered : Entered) (conflicts : List Conflict)
        → IsEntered before after who (Withdraw call force) entered → IsLegal after.setup after.history
        → IsPublished after.setup (state_of after.setup after.history) conflicts → IsRestored after.setup after.history conflicts }
{
    strike_out_law();
    withdrawal_law();
}

/// A clearance that was free of conflicts when it was probed and is refused as stale: the hit that the refusal carries is none of its hits at
/// the version of its probe, so the version that the refusal names is above that.
pub fn stale_law()
    ensures { (story : Story) (who : ℕ) (call : List ℕ) (clearance : Clearance) (eff probed version : ℕ) (hit : Hit)
        → IsCommandRefused story who (Accept call clearance eff probed) (Refused (Stale hit) version) → probed ≤ length story.history
        → WasFree story.setup story.history (Accept call clearance eff probed)
        → IsSinceProbe story.setup story.history call clearance eff probed version hit }
{}
