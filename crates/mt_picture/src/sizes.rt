//! How much a picture holds.
ghost use Rattle.mt_picture.specs.Sizes.{AreSizes};

use crate::picture::Picture;

/// How much a picture holds.
#[derive(Clone, Copy, Debug, PartialEq, Eq)]
pub struct Sizes {
    /// How many conflicts are published.
    pub conflicts: u64,
    /// How many entries its history has.
    pub entries: u64,
    /// How many flights there are.
    pub flights: u64,
}

/// How many conflicts are published of a picture, how many entries its history has, and how many flights there are, by the definition
/// `AreSizes`. It looks at each slot of the picture once.
pub fn sizes_of(picture: &Picture) -> Sizes
    ensures { AreSizes picture.now.setup picture.now.history result }
{
    Sizes {
        conflicts: picture.published().len() as u64,
        entries: picture.version(),
        flights: u64::from(picture.flights()),
    }
}
