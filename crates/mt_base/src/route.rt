use crate::fix_name::FixName;
use crate::list::Listed;

/// The names of fixes, seen as their list. A flight's route has 2 to 64, no two neighbours equal; its places are counted from 0.
pub type Route = Listed<FixName>;

/// Why names are no route.
#[derive(Clone, Copy, PartialEq, Eq)]
pub enum RouteNo {
    /// No fix has this name; it is the first such.
    UnknownFix(FixName),
    /// There are fewer than two.
    Short,
    /// There are more than 64.
    Long,
    /// Two neighbours are equal.
    Twice,
}
