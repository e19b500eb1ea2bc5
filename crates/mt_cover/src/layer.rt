//! Heights from a least to a greatest one.

/// Heights from a least to a greatest one, in 1/60 of a foot.
#[derive(Clone, Copy, PartialEq, Eq)]
pub struct Layer {
    /// The least.
    pub low: i32,
    /// The greatest.
    pub high: i32,
}
