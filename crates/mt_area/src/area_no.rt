ghost use Rattle.std.specs.Prelude.{◌≡◌};
ghost use Rattle.mt_area.specs.declared.area_no.AreaNo.TheVariants as no;

use std::alloc::AllocFailed;

/// Why an area isn't added. Of several reasons it is the first.
#[derive(Clone, Copy, PartialEq, Eq)]
pub enum AreaNo {
    /// One of that name stands.
    Taken,
    /// Its shape isn't right.
    Shape,
    /// 256 areas stand.
    Full,
    /// An allocation was refused.
    Memory,
}

impl<T: Drop> From<AllocFailed<T>> for AreaNo {
    ghost from_gives = { λ _ e. e ≡ no.Memory };

    fn from(_: AllocFailed<T>) -> AreaNo {
        AreaNo::Memory
    }
}
