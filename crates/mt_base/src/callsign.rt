ghost use Rattle.std.specs.Prelude.{◌≡◌};
ghost use Rattle.mt_base.specs.Name.{IsCallsign, name_of};

use crate::list::Listed;
use crate::name::Name;
use std::marker::Model;

/// A flight's callsign: 1 to 7 capital letters and digits, seen as their list and ordered by bytes.
#[derive(Clone, Copy, PartialEq, Eq, PartialOrd, Ord)]
pub struct Callsign {
    name: Name,
}

impl Model for Callsign {
    ghost use Rattle.std.specs.Prelude.{ℕ, List};

    ghost Value = { List ℕ };

    ghost view = { λ c. c.name };

    ghost inverse = { λ text. record { name = text } };
}

impl Callsign {
    /// The callsign that the text is; `None` exactly where it has no letter, more than seven, or a byte that is neither a capital
    /// letter nor a digit.
    pub fn of(text: &[u8]) -> Option<Callsign>
        ensures { result ≡ name_of 1 7 text.now }
    {
        let name = Name::of(text, 1, 7)?;
        Some(Callsign { name })
    }

    /// Its letters.
    pub fn bytes(&self) -> &[u8]
        ensures text { result.now ≡ self.now }
        ensures named { IsCallsign self.now }
    {
        self.name.bytes()
    }

    /// Its letters are those of a callsign. It does nothing.
    pub fn keeps(&self)
        ensures { IsCallsign self.now }
    {
        self.name.bytes();
    }
}

/// Callsigns, seen as their list.
pub type Calls = Listed<Callsign>;
