use mt_base::Second;

/// A pair of ends, the first and the last second of their conflict, and whether it is known to be solid.
#[derive(Clone, Copy)]
pub struct Edge {
    /// The lesser end.
    pub a: u32,
    /// The greater end.
    pub b: u32,
    /// The first second.
    pub first: Second,
    /// The last second.
    pub last: Second,
    /// Whether it is known that each second between has a loss too. Where it says no, nothing is said.
    pub solid: bool,
}
