//! What callsigns, fix names and type names have in common: a few capital letters and digits.
ghost use Rattle.std.specs.Prelude.{◌≡◌, ◌≤◌, true};
ghost use Rattle.std.specs.List.{list_all};
ghost use Rattle.std.specs.Cmp.Lexicographic.{pointwise, slice_cmp, nat_list_eq_equiv, nat_list_cmp_total, texts_po, texts_ties};
ghost use Rattle.std.specs.Cmp;
ghost use Rattle.std.specs.Prelude.{nat_eq, Some};
ghost use Rattle.std.specs.Ordering.{nat_cmp};
ghost use Rattle.std.proofs.Common.{refl, rules};
ghost use Rattle.std.specs.Cmp.Rules.{hashing};
ghost use Rattle.std.specs.Hash as fed;
ghost use Rattle.mt_base.specs.Name.{is_letter, is_name, name_of};
ghost use Rattle.mt_base.specs.Private.Padded.{name_number};

use std::cmp::Ordering;
use std::hash::{Hash, Hasher};
use std::marker::Model;

/// The most letters of any name.
const LONGEST: usize = 7;

/// One to seven capital letters and digits, seen as their list.
#[derive(Clone, Copy)]
pub struct Name {
    /// The letters, then zeros, and last how many letters there are. As one number, the first byte the highest, they are in the letters' order.
    form: [u8; LONGEST + 1],
}

impl Model for Name {
    ghost use Rattle.std.specs.Prelude.{ℕ, List};
    ghost use Rattle.mt_base.specs.Private.Padded.{IsPadded, letters_in, padded};

    ghost Value = { List ℕ };

    ghost view = { λ n. letters_in n.form };

    ghost invariant = { λ n. IsPadded n.form };

    ghost inverse = { λ text. record { form = padded text } };

    ghost inverse_ok = { λ n kept i. record { form = kept.same i } };
}

/// Whether each byte is a capital letter or a digit.
fn are_letters(text: &[u8]) -> bool
    ensures { result ≡ list_all is_letter text.now }
{
    text.iter().all(|letter| letter.is_ascii_uppercase() || letter.is_ascii_digit())
}

/// Whether the text is a name of that many letters.
fn is_name(text: &[u8], low: usize, high: usize) -> bool
    ensures { result ≡ is_name low high text.now }
{
    low <= text.len() && text.len() <= high && are_letters(text)
}

impl Name {
    /// The name that the text is; `None` exactly where it has fewer letters than `low`, more than `high`, or a byte that is none.
    pub fn of(text: &[u8], low: usize, high: usize) -> Option<Name>
        requires shortest { 1 ≤ low }
        requires longest { high ≤ 7 }
        ensures { result ≡ name_of low high text.now }
    {
        if !is_name(text, low, high) {
            return None;
        }
        let mut form = [0; LONGEST + 1];
        form[..text.len()].copy_from_slice(text);
        form[LONGEST] = text.len() as u8;
        Some(Name { form })
    }

    /// Its letters.
    pub fn bytes(&self) -> &[u8]
        ensures text { result.now ≡ self.now }
        ensures named { is_name 1 7 self.now ≡ true }
    {
        &self.form[..usize::from(self.form[LONGEST])]
    }

    // Its bytes as one number. Numbers are in the order of the letters.
    fn number(&self) -> u64
        ensures number { result ≡ name_number self.now }
        ensures named { is_name 1 7 self.now ≡ true }
    {
        u64::from_be_bytes(self.form)
    }
}

impl PartialEq for Name {
    ghost eq = { pointwise nat_eq };

    ghost laws = { Cmp.partial_equiv_from_equiv nat_list_eq_equiv };

    fn eq(&self, other: &Self) -> bool {
        self.number() == other.number()
    }
}

impl Eq for Name {
    ghost laws = { nat_list_eq_equiv };
}

impl Hash for Name {
    ghost hash_input = { λ n. fed.u64 (name_number n) };

    ghost respects_eq = { Prim.search (hashing, rules) };

    fn hash<H: Hasher>(&self, state: &mut H) {
        self.number().hash(state);
    }
}

impl PartialOrd for Name {
    ghost partial_cmp = { λ x y. Some (slice_cmp nat_cmp x y) };

    ghost laws = { texts_po };

    fn partial_cmp(&self, other: &Self) -> Option<Ordering> {
        Some(self.cmp(other))
    }
}

impl Ord for Name {
    ghost cmp = { slice_cmp nat_cmp };

    ghost total = { nat_list_cmp_total };

    ghost matches_partial_cmp = { λ x y. refl };

    ghost matches_eq = { texts_ties };

    fn cmp(&self, other: &Self) -> Ordering {
        // `Less` first, so that `<` of two names is one comparison.
        let (mine, other) = (self.number(), other.number());
        if mine < other {
            Ordering::Less
        } else if mine == other {
            Ordering::Equal
        } else {
            Ordering::Greater
        }
    }
}
