//! A renewal that is to be made.
use mt_base::Callsign;

/// A flight that is to be renewed.
#[derive(Clone, Copy, PartialEq, Eq)]
pub struct Job {
    /// Its callsign.
    pub call: Callsign,
}
