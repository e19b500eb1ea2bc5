//! The pair test: the first and the last second of a range in which two trajectories lose separation, over all instants of each
//! second.
//!
//! While neither trajectory changes its gains, all values are linear in time. So the square of the horizontal distance less that of the
//! horizontal minimum is a quadratic in time, and a vertical minimum gives two lines. There is loss where these three are below 0 at one
//! instant by the lesser minimum; or by the greater one, while a third line says that the one or the other aircraft is above the level from
//! which on that minimum holds. Exact decisions over fractions say whether there is such an instant in some seconds. The first and the last
//! second of loss are found by halving: whether there is a loss before a second turns from no to yes once.
#![tactic(auto)]

mod approach;
mod crossing;
mod horizontal;
mod laws;
mod overlap;
mod question;
mod solid;
mod span;
mod turning;
mod vertical;

pub use crossing::crosses_one;
pub use laws::numbers_fit_law;
pub use overlap::stretch;
pub use solid::Loss;
pub use span::{lose, loss_of};
pub use vertical::level_of;
