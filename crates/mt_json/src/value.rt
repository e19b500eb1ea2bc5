//! A value of JSON, which borrows its keys and its texts from what was read.
ghost use Rattle.std.specs.Prelude.{◌≡◌, option_map};
ghost use Rattle.serde_json.specs.Find.{as_array, as_bool, as_number, as_object, as_str};
ghost use Rattle.serde_json.specs.View.{number_view};
ghost use Rattle.mt_json.specs.View.{items_view, members_view, view};

use serde_json::Number;

/// A key and its value, as they stand in a text.
pub type Member<'a> = (&'a str, Value<'a>);

/// A value of JSON. Its keys and texts are borrowed; an object has its members in the order of the text, and of those with one key the
/// last counts.
#[derive(Drop)]
pub enum Value<'a> {
    /// `null`.
    Null,
    /// A truth value.
    Bool(bool),
    /// A number, as serde_json holds it.
    Number(Number),
    /// A text.
    Text(&'a str),
    /// A list.
    List(Vec<Value<'a>>),
    /// An object.
    Object(Vec<(&'a str, Value<'a>)>),
}

impl<'a> Value<'a> {
    /// The truth value that this is.
    pub fn as_bool(&self) -> Option<bool>
        ensures { result ≡ as_bool (view self.now) }
    {
        if let Value::Bool(truth) = self {
            Some(*truth)
        } else {
            None
        }
    }

    /// The number that this is.
    pub fn as_number(&self) -> Option<&Number>
        ensures { option_map (λ n. number_view n.now) result ≡ as_number (view self.now) }
    {
        if let Value::Number(number) = self {
            Some(number)
        } else {
            None
        }
    }

    /// The text that this is.
    pub fn as_str(&self) -> Option<&'a str>
        ensures { option_map (λ s. s.now) result ≡ as_str (view self.now) }
    {
        if let Value::Text(text) = self {
            Some(*text)
        } else {
            None
        }
    }

    /// The items of the list that this is.
    pub fn as_array(&self) -> Option<&[Value<'a>]>
        ensures { option_map (λ vs. items_view vs.now) result ≡ as_array (view self.now) }
    {
        if let Value::List(items) = self {
            Some(items.as_slice())
        } else {
            None
        }
    }

    /// The members of the object that this is, in the order of its text.
    pub fn as_object(&self) -> Option<&[Member<'a>]>
        ensures { option_map (λ ms. members_view ms.now) result ≡ as_object (view self.now) }
    {
        if let Value::Object(members) = self {
            Some(members.as_slice())
        } else {
            None
        }
    }
}
