//! Exact decisions over all fractions of an open interval: the order of fractions, the sign of a
//! quadratic, whether it is below zero somewhere, the part on which a line is below zero, and
//! whether several lines are below zero together somewhere.
//!
//! Nothing is rounded and nothing is searched. The conditions are bounds on the numbers, under
//! which no product leaves 128 bits. The words of the contracts are in `specs/`; what callers may
//! cite besides is in `proofs/Fractions`, `proofs/Openness` and `proofs/Seconds`.
#![tactic(auto)]

mod end;
mod fraction;
mod linear;
mod meeting;
mod quadratic;

pub use fraction::Frac;
pub use linear::Linear;
pub use quadratic::Quad;
