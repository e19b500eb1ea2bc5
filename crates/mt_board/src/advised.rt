//! Advice as a board gives it.
use mt_base::Second;

/// The clearances that are advised to a flight, as probes.
#[derive(Drop)]
pub struct Advised<P> {
    /// The version that they were tried on.
    pub version: u64,
    /// Its moment, from which second on they were tried.
    pub eff: Second,
    /// A probe of each, in order. There may be none.
    pub probes: Vec<P>,
}
