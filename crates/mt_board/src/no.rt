//! Why a call gives nothing.
ghost use Rattle.std.specs.Prelude.{◌≡◌};
ghost use Rattle.mt_board.specs.declared.no.No.TheVariants as no;

use mt_base::{Memory, Refusal};

/// Why a call gives nothing.
#[derive(Clone, Copy, PartialEq, Eq)]
pub enum No {
    /// It is refused.
    Refused {
        /// Why.
        refusal: Refusal,
        /// The version at which that holds.
        version: u64,
    },
    /// There wasn't enough memory.
    Memory,
}

impl From<Memory> for No {
    ghost from_gives = { λ _ e. e ≡ no.Memory };

    fn from(_: Memory) -> No {
        No::Memory
    }
}
