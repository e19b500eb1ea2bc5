ghost use Rattle.std.specs.Prelude.{◌≡◌, nat_eq, Some};
ghost use Rattle.std.specs.Ordering.{nat_cmp};
ghost use Rattle.std.proofs.Common.{refl};
ghost use Rattle.std.specs.Cmp;
ghost use Rattle.std.specs.Cmp.Lexicographic.{pointwise, slice_cmp, nat_list_eq_equiv, nat_list_cmp_total, texts_po, texts_ties};
ghost use Rattle.mt_base.specs.Name.{IsTypeName, name_of};

use crate::name::Name;
use std::cmp::Ordering;
use std::marker::Model;

/// The name of a type of aircraft: 2 to 4 capital letters and digits, seen as their list and ordered by bytes.
#[derive(Clone, Copy, Hash)]
pub struct TypeName {
    name: Name,
}

impl Model for TypeName {
    ghost use Rattle.std.specs.Prelude.{ℕ, List};
    ghost use Rattle.mt_base.specs.Name.{IsTypeName};

    ghost Value = { List ℕ };

    ghost view = { λ t. t.name };

    ghost invariant = { λ t. IsTypeName t.name };

    ghost inverse = { λ text. record { name = text } };
}

impl TypeName {
    /// The name that the text is; `None` exactly where it has fewer than two letters, more than four, or a byte that is neither a capital
    /// letter nor a digit.
    pub fn of(text: &[u8]) -> Option<TypeName>
        ensures { result ≡ name_of 2 4 text.now }
    {
        let name = Name::of(text, 2, 4)?;
        Some(TypeName { name })
    }

    /// Its letters.
    pub fn bytes(&self) -> &[u8]
        ensures text { result.now ≡ self.now }
        ensures named { IsTypeName self.now }
    {
        self.name.bytes()
    }

    /// Its letters are those of the name of a type. It does nothing.
    pub fn keeps(&self)
        ensures { IsTypeName self.now }
    {
        self.name.bytes();
    }
}

impl PartialEq for TypeName {
    ghost eq = { pointwise nat_eq };

    ghost laws = { Cmp.partial_equiv_from_equiv nat_list_eq_equiv };

    fn eq(&self, other: &Self) -> bool {
        self.name == other.name
    }
}

impl Eq for TypeName {
    ghost laws = { nat_list_eq_equiv };
}

impl PartialOrd for TypeName {
    ghost partial_cmp = { λ x y. Some (slice_cmp nat_cmp x y) };

    ghost laws = { texts_po };

    fn partial_cmp(&self, other: &Self) -> Option<Ordering> {
        Some(self.cmp(other))
    }
}

impl Ord for TypeName {
    ghost cmp = { slice_cmp nat_cmp };

    ghost total = { nat_list_cmp_total };

    ghost matches_partial_cmp = { λ x y. refl };

    ghost matches_eq = { texts_ties };

    fn cmp(&self, other: &Self) -> Ordering {
        self.name.cmp(&other.name)
    }
}
