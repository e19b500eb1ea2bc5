//! What positions, feeds and workers do: sessions over links, and jobs.

mod gathering;
mod jobs;
mod sessions;
