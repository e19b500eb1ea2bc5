use mt_base::Second;

/// An item that counts to a cell for the seconds `from <= k < to`.
#[derive(Clone, Copy, PartialEq, Eq, Drop)]
pub struct Placed {
    /// The item's number.
    pub item: u32,
    /// The first second.
    pub from: Second,
    /// The second after the last one.
    pub to: Second,
}
