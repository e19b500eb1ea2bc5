/// Why a field has no value of the kind that was asked for.
#[derive(Debug, Clone, Copy, PartialEq, Eq)]
pub enum Bad {
    /// No member has the key.
    Missing,
    /// The value at the key is of another kind; a number counts as whole only where serde_json holds it as a whole number of 64 bits.
    Kind,
    /// The whole number at the key is outside the bounds.
    Range,
}

/// An object has a key that isn't allowed.
#[derive(Debug, Clone, Copy, PartialEq, Eq)]
pub struct Extra<'a> {
    /// The least such key, in byte order.
    pub key: &'a str,
}
