//! Names made from texts.
use mt_base::{FixName, TypeName};
use std::process::Abort;

/// The name of a fix that the text is.
pub fn fix_name(rt: &impl Abort, text: &[u8]) -> FixName {
    FixName::of(text).expect(rt, "the name of a fix")
}

/// The name of a type that the text is.
pub fn type_name(rt: &impl Abort, text: &[u8]) -> TypeName {
    TypeName::of(text).expect(rt, "the name of a type")
}
