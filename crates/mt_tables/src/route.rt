ghost use Rattle.std.specs.Prelude.{◌≡◌};
ghost use Rattle.mt_base.specs.Tables.{differ_from_next};

use mt_base::FixName;

/// Whether no name is followed by itself.
pub(crate) fn differ_from_next(names: &[FixName]) -> bool
    ensures { result ≡ differ_from_next names.now }
{
    let mut i = 0;
    while i + 1 < names.len() {
        if names[i] == names[i + 1] {
            return false;
        }
        i += 1;
    }
    true
}
