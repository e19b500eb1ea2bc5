ghost use Rattle.std.specs.Prelude.{◌≡◌};
ghost use Rattle.mt_read.specs.declared.stop.Stop.TheVariants as stop;

use crate::key::Fault;
use mt_memory::Memory;

/// Why a line whose value takes memory isn't read.
pub(crate) enum Stop {
    /// It is refused for a field.
    Fault(Fault),
    /// There wasn't enough memory.
    Memory,
}

impl From<Fault> for Stop {
    ghost from_gives = { λ fault e. e ≡ stop.Fault fault };

    fn from(fault: Fault) -> Stop {
        Stop::Fault(fault)
    }
}

impl From<Memory> for Stop {
    ghost from_gives = { λ _ e. e ≡ stop.Memory };

    fn from(_: Memory) -> Stop {
        Stop::Memory
    }
}
