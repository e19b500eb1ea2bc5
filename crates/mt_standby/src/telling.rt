//! What is answered, as replies.
ghost use Rattle.std.specs.Prelude.{◌≡◌};
ghost use Rattle.mt_lines.specs.Fit.{IsFit};
ghost use Rattle.mt_standby.specs.Private.Following.{follow_reply};

use mt_base::Entered;
use mt_history::FollowNo;
use mt_write::Reply;

/// What an entry is answered, as a reply.
pub(crate) fn followed(outcome: Result<Entered, FollowNo>) -> Reply
    ensures reply { result ≡ follow_reply outcome }
    ensures fit { IsFit result }
{
    match outcome {
        Ok(entered) => Reply::Entered(entered),
        Err(FollowNo::Late { version }) => Reply::Late { version },
        Err(FollowNo::Illegal { version, refusal }) => Reply::Illegal { version, refusal },
        Err(FollowNo::Memory) => Reply::Memory,
    }
}
