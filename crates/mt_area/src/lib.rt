//! Restricted areas: in which seconds a trajectory is inside one, over all instants of each second, and what is told of many of both.
//!
//! While a trajectory keeps its gains, each side of an area and each of its levels is a line in time that is below 0 while the position is on
//! the inner side of it. So some instant of some seconds is inside exactly where these lines are below 0 together somewhere in between.
//!
//! Three tests go before that question, and cost little: the seconds are cut to the area's hours; what lies with its box apart from the area's box
//! has no instant inside; and of the lines those alone are asked that cross 0 in these seconds. Each test is exact, so nothing is missed.
#![tactic(auto)]

mod area_no;
mod areas;
mod crossing;
mod laws;
mod levels;
mod lines;
mod passages;
mod piercing;
mod seconds;
mod segment;
mod shape;
mod telling;
mod volume;

pub use area_no::AreaNo;
pub use areas::Areas;
pub use laws::one_told_list_law;
pub use piercing::pierce;
pub use telling::pierced;
