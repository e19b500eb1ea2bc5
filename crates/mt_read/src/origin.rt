ghost use Rattle.std.specs.Prelude.{◌≡◌};
ghost use Rattle.mt_read.specs.Field.{is_line};

use crate::request::Sender;

/// What an object that is read stands for.
#[derive(Clone, Copy)]
pub(crate) enum Origin {
    /// A line that asks for something.
    Line(Sender),
    /// An entry of a history.
    Entry,
}

/// Whether it is a line; there a field with a default may be absent.
pub(crate) fn is_line(origin: Origin) -> bool
    ensures { result ≡ is_line origin }
{
    match origin {
        Origin::Line(_) => true,
        Origin::Entry => false,
    }
}
