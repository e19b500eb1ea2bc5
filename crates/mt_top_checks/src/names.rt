//! Names made from texts.
use mt_base::{Callsign, FixName, TypeName};
use std::process::Abort;

/// The callsign that the text is.
pub fn callsign(rt: &impl Abort, text: &[u8]) -> Callsign {
    Callsign::of(text).expect(rt, "a callsign")
}

/// The name of a fix that the text is.
pub fn fix_name(rt: &impl Abort, text: &[u8]) -> FixName {
    FixName::of(text).expect(rt, "the name of a fix")
}

/// The name of a type that the text is.
pub fn type_name(rt: &impl Abort, text: &[u8]) -> TypeName {
    TypeName::of(text).expect(rt, "the name of a type")
}
