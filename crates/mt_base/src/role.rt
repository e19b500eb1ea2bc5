/// What a session says that it is.
#[derive(Clone, Copy, PartialEq, Eq)]
pub enum Role {
    /// It hands in flights and moments.
    Feed,
    /// It works on conflicts.
    Position,
}
