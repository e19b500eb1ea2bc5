//! What a seat can ask for, and what it is told.
use mt_base::{Calls, Callsign, Conflicts, Entries, FlightView, Second};

/// What a read asks for.
#[derive(Clone, Copy, PartialEq, Eq)]
pub enum Ask {
    /// What is published.
    List,
    /// What is published, computed from nothing, pair by pair.
    Check,
    /// The flights for which a new trajectory is due.
    Due,
    /// A flight.
    Flight {
        /// Its callsign.
        call: Callsign,
        /// The second whose row is asked for; absent, the moment.
        sec: Option<Second>,
    },
    /// The entries from number `from`, counted from 0, up to number `to`, without it.
    History {
        /// The first number.
        from: u64,
        /// The number after the last one.
        to: u64,
    },
}

/// What a read is told, each at the version that it names.
#[derive(Drop)]
pub enum Answer {
    /// What is published.
    List {
        /// The conflicts, in order.
        conflicts: Conflicts,
        /// The version that they are of.
        version: u64,
    },
    /// What is published, computed from nothing.
    Check {
        /// The conflicts, in order.
        conflicts: Conflicts,
        /// The version that they are of.
        version: u64,
    },
    /// The flights for which a new trajectory is due.
    Due {
        /// Their callsigns, in the order of filing.
        calls: Calls,
        /// The version that this is of.
        version: u64,
    },
    /// A flight; its view names the version.
    Flight(FlightView),
    /// Some entries.
    History {
        /// The entries, in order.
        entries: Entries,
        /// The version now.
        version: u64,
    },
}
