ghost use Rattle.std.specs.Prelude.{◌≡◌};
ghost use Rattle.mt_tables.specs.declared.add_no.AddNo.TheVariants as no;

use mt_memory::Memory;
use std::alloc::AllocFailed;

/// Why a fix or a type is not added to the tables.
#[derive(Clone, Copy, PartialEq, Eq)]
pub enum AddNo {
    /// One of that name stands.
    Taken,
    /// The tops of the bands do not rise strictly.
    Bands,
    /// 20,000 fixes stand, or 1,000 types.
    Full,
    /// An allocation was refused.
    Memory,
}

impl From<Memory> for AddNo {
    ghost from_gives = { λ _ e. e ≡ no.Memory };

    fn from(_: Memory) -> AddNo {
        AddNo::Memory
    }
}

impl<T: Drop> From<AllocFailed<T>> for AddNo {
    ghost from_gives = { λ _ e. e ≡ no.Memory };

    fn from(_: AllocFailed<T>) -> AddNo {
        AddNo::Memory
    }
}
