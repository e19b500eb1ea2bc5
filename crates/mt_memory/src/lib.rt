//! Want of memory, as every crate answers it.
#![tactic(auto)]

use std::alloc::{AllocError, AllocFailed};

/// Want of memory: an allocation was refused. It is the one error that no contract ties to a cause.
#[derive(Clone, Copy, Debug, PartialEq, Eq)]
pub struct Memory;

impl From<AllocError> for Memory {
    fn from(_: AllocError) -> Memory {
        Memory
    }
}

impl<T: Drop> From<AllocFailed<T>> for Memory {
    fn from(_: AllocFailed<T>) -> Memory {
        Memory
    }
}
