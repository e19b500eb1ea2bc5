//! What the program is asked to do.

/// What the words ask for.
#[derive(Clone, Copy, Debug, PartialEq, Eq)]
pub enum Task {
    /// To answer a script of lines, from the input.
    Replay,
    /// To follow a primary's history, from the input.
    Standby,
    /// To serve links.
    Serve {
        /// The port, 1 to 65,535.
        port: u16,
        /// How many sessions, 1 to 64.
        sessions: u32,
        /// How many workers, 0 to 8.
        workers: u32,
    },
    /// To run an input that is made for it.
    Load {
        /// How many flights, 1 to 1,024.
        flights: u32,
        /// The number that the input is made from, 0 to 4,294,967,295.
        number: u64,
    },
}

/// The words ask for nothing that the program can do.
#[derive(Clone, Copy, Debug, PartialEq, Eq)]
pub struct Usage;
