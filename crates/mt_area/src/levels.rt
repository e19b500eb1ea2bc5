ghost use Rattle.std.specs.Prelude.{◌≡◌, ◌≤◌, ◌*◌, pos};

/// The height of a flight level, in 1/60 of a foot.
pub(crate) fn height_of(level: u32) -> i64
    requires { level ≤ 600 }
    ensures { result ≡ pos (6000 * level) }
{
    6_000 * i64::from(level)
}
