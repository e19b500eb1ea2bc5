//! What is answered, as replies.
ghost use Rattle.std.specs.Prelude.{◌≡◌};
ghost use Rattle.mt_lines.specs.Fit.{IsFit};
ghost use Rattle.mt_lines.specs.Told.{answer_reply, entered_reply, no_reply};
ghost use Rattle.mt_wire.specs.Refused.{unread_reply};

use mt_base::Entered;
use mt_board::{Answer, No};
use mt_wire::LineNo;
use mt_write::Reply;

/// Why a line can't be read, as a reply.
pub fn unread(no: LineNo) -> Reply
    ensures reply { result ≡ unread_reply no }
    ensures fit { IsFit result }
{
    match no {
        LineNo::Json => Reply::Json,
        LineNo::Form(name) => Reply::Form(name),
        LineNo::Range(name) => Reply::Range(name),
        LineNo::Memory => Reply::Memory,
    }
}

/// Why nothing is given, as a reply.
pub fn refused(no: No) -> Reply
    ensures reply { result ≡ no_reply no }
    ensures fit { IsFit result }
{
    match no {
        No::Refused { refusal, version } => Reply::Refused { refusal, version },
        No::Memory => Reply::Memory,
    }
}

/// What a command is answered, as a reply.
pub fn reply_to_change(outcome: Result<Entered, No>) -> Reply
    ensures reply { result ≡ entered_reply outcome }
    ensures fit { IsFit result }
{
    match outcome {
        Ok(entered) => Reply::Entered(entered),
        Err(no) => refused(no),
    }
}

/// What a read is answered, as a reply.
pub fn told(outcome: Result<Answer, No>) -> Reply
    ensures reply { result ≡ answer_reply outcome }
    ensures fit { IsFit result }
{
    match outcome {
        Ok(Answer::List { conflicts, version }) => Reply::List { conflicts, version },
        Ok(Answer::Check { conflicts, version }) => Reply::List { conflicts, version },
        Ok(Answer::Due { calls, version }) => Reply::Due { calls, version },
        Ok(Answer::Flight(view)) => Reply::Flight(view),
        Ok(Answer::History { entries, version }) => Reply::History { entries, version },
        Err(no) => refused(no),
    }
}
