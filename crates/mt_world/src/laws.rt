ghost use Rattle.std.specs.Prelude.{◌≡◌, ℕ};
ghost use Rattle.mt_read.specs.declared.request.Request.{Request};
ghost use Rattle.mt_write.specs.declared.reply.Reply.{Reply};
ghost use Rattle.mt_world.specs.World.{IsServed, World};

/// A request of an actor of a world has one reply, and leaves one world, but where memory is wanted.
pub fn one_answer_law()
    ensures { (w : World) (who : ℕ) (request : Request) (r s : Reply) (next other : World) → IsServed w who request r next
        → IsServed w who request s other → (r ≡ s) × (next ≡ other) }
{}
