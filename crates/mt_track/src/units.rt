//! Coordinates, heights, margins and gains in 32 bits, so that a segment has 52 bytes and a slice of a cover 24: a processor's cache holds more of them
//! where many trajectories are compared.
ghost use Rattle.std.specs.Prelude.{◌≡◌, pos, neg_ℤ};
ghost use Rattle.mt_base.specs.Bounds.{IsWithin};

/// The same number in 32 bits. No coordinate, height, margin or gain is farther from 0 than 9,000,000.
pub fn narrow(z: i64) -> i32
    requires { IsWithin (neg_ℤ (pos 9000000)) (pos 9000000) z }
    ensures { result ≡ z }
{
    z as i32
}
