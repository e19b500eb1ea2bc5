//! What answers lines, and a line of a script.
ghost use Rattle.std.specs.Prelude.{◌≡◌, ◌<◌, ◌≤◌, ℕ, List, [], All, IfOk, false, length};
ghost use Rattle.std.specs.Thread.{IsSync};
ghost use Rattle.mt_base.specs.Complete.{IsComplete};
ghost use Rattle.mt_lines.specs.Fit.{IsFit};
ghost use Rattle.mt_lines.specs.Given.{IsGivenFor, is_brief};
ghost use Rattle.mt_world.specs.Begun.{is_begin};
ghost use Rattle.mt_top.specs.Script.{IsReplied};
ghost use Rattle.mt_write.specs.declared.reply.Reply.{Reply};
ghost use Rattle.mt_write.specs.declared.reply.Reply.TheVariants as replies;
ghost use Rattle.mt_world.specs.World.{World, opening_world};

use mt_base::Memory;
use mt_lines::unread;
use mt_wire::{Reply, Scratch, Sender, read_line};
use mt_world::Script;
use std::alloc::Global;
use std::thread::Threads;

/// What answers lines one by one, and is seen as the world that they leave.
pub(crate) trait Answers: Drop + Sized {
    /// The world.
    ghost world: { Self → World };

    /// This reply is given to a line of a world, and leaves this world.
    ghost replied: { World → List ℕ → Reply → World → Type 0 };

    /// It before the first line.
    fn make(alloc: Global) -> Result<Self, Memory>
        ensures { IfOk result (λ answers. world answers ≡ opening_world) };

    /// Whether the picture has begun.
    fn has_begun(&self) -> bool
        ensures { result ≡ (world self.now).begun };

    /// Each entry of the history is complete. It does nothing.
    fn keeps(&self)
        ensures { All IsComplete (world self.now).history };

    /// Answers a line of at most 65,536 bytes. A text with an escape goes into `scratch`, which is kept from line to line.
    fn answer<R: Threads + Sync>(
        &mut self,
        rt: &R,
        alloc: Global,
        scratch: &mut Scratch,
        line: &[u8],
    ) -> Reply
        requires sync { IsSync R.row }
        requires short { length line.now ≤ 65536 }
        ensures replied { replied (world self.old) line.now result (world self.new) }
        ensures fit { IsFit result }
        ensures begins { (world self.old).begun ≡ false → ((world self.new).begun ≡ is_begin result) × ((world self.new).history ≡ []) };

    /// The reply to a line that is too long; and what is given in place of a reply is a reply.
    fn reply_law(&self)
        ensures too_long { (w : World) (line : List ℕ) → 65536 < length line → replied w line replies.Long w }
        ensures given { (w next : World) (line : List ℕ) (reply other : Reply) → replied w line reply next → IsGivenFor reply other
            → (is_brief reply ≡ false → length line ≤ 65536) → replied w line other next };
}

impl Answers for Script {
    ghost world = { λ script. script };

    ghost replied = { IsReplied };

    fn make(alloc: Global) -> Result<Self, Memory> {
        Script::make(alloc)
    }

    fn has_begun(&self) -> bool {
        Script::has_begun(self)
    }

    fn keeps(&self) {
        Script::keeps(self)
    }

    fn answer<R: Threads + Sync>(
        &mut self,
        rt: &R,
        alloc: Global,
        scratch: &mut Scratch,
        line: &[u8],
    ) -> Reply {
        answer(rt, alloc, scratch, self, line)
    }

    fn reply_law(&self) {}
}

/// Answers a line of a script, of at most 65,536 bytes.
pub(crate) fn answer<R: Threads + Sync>(
    rt: &R,
    alloc: Global,
    scratch: &mut Scratch,
    script: &mut Script,
    line: &[u8],
) -> Reply
    requires { length line.now ≤ 65536 }
    ensures replied { IsReplied script.old line.now result script.new }
    ensures fit { IsFit result }
    ensures begins { script.old.begun ≡ false → (script.new.begun ≡ is_begin result) × (script.new.history ≡ []) }
{
    match read_line(alloc, scratch, line, Sender::Replay, &script.rules()) {
        Ok((who, request)) => script.serve(rt, alloc, who, &request),
        Err(no) => unread(no),
    }
}
