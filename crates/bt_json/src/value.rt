//! JSON values whose strings stand elsewhere.
ghost use Rattle.std.specs.Prelude.{◌≡◌, is_some, option_map, option_and_then};
ghost use Rattle.serde_json.specs.Data.{null};
ghost use Rattle.serde_json.specs.Find.{as_array, as_bool, as_i64, as_null, as_number, as_object, as_str, as_u64, get, get_member};
ghost use Rattle.bt_json.specs.View.{items_view, members_view, number_view, view};

use crate::number::Number;

/// The members of an object, by their names, which ascend. Of a name that comes several times the last
/// value counts.
pub type Members<'t> = Vec<(&'t str, Value<'t>)>;

/// A JSON value. Its strings are not copied: they stand in the text, or where they have escapes in the
/// memory that was lent to the reading.
#[derive(Debug, Drop)]
pub enum Value<'t> {
    Null,
    Bool(bool),
    Number(Number),
    String(&'t str),
    Array(Vec<Value<'t>>),
    Object(Members<'t>),
}

impl<'t> Value<'t> {
    pub fn is_null(&self) -> bool
        ensures { result ≡ is_some (as_null (view self.now)) }
    {
        matches!(self, Value::Null)
    }

    pub fn as_bool(&self) -> Option<bool>
        ensures { result ≡ as_bool (view self.now) }
    {
        match self {
            Value::Bool(truth) => Some(*truth),
            _ => None,
        }
    }

    pub fn as_number(&self) -> Option<Number>
        ensures { option_map number_view result ≡ as_number (view self.now) }
    {
        match self {
            Value::Number(number) => Some(*number),
            _ => None,
        }
    }

    /// The number, where it is one that is not below zero and is no float.
    pub fn as_u64(&self) -> Option<u64>
        ensures { result ≡ option_and_then as_u64 (as_number (view self.now)) }
    {
        self.as_number()?.as_u64()
    }

    /// The number, where it is one that fits 63 bits and a sign and is no float.
    pub fn as_i64(&self) -> Option<i64>
        ensures { result ≡ option_and_then as_i64 (as_number (view self.now)) }
    {
        self.as_number()?.as_i64()
    }

    pub fn as_str(&self) -> Option<&'t str>
        ensures { option_map (λ s. s.now) result ≡ as_str (view self.now) }
    {
        match self {
            Value::String(text) => Some(*text),
            _ => None,
        }
    }

    pub fn is_array(&self) -> bool
        ensures { result ≡ is_some (as_array (view self.now)) }
    {
        self.as_array().is_some()
    }

    pub fn as_array(&self) -> Option<&Vec<Value<'t>>>
        ensures { option_map (λ v. items_view v.now.items) result ≡ as_array (view self.now) }
    {
        match self {
            Value::Array(items) => Some(items),
            _ => None,
        }
    }

    pub fn is_object(&self) -> bool
        ensures { result ≡ is_some (as_object (view self.now)) }
    {
        self.as_object().is_some()
    }

    pub fn as_object(&self) -> Option<&Members<'t>>
        ensures { option_map (λ m. members_view m.now.items) result ≡ as_object (view self.now) }
    {
        match self {
            Value::Object(members) => Some(members),
            _ => None,
        }
    }

    /// The value of that member, where the value is an object that has it.
    pub fn get(&self, name: &str) -> Option<&Value<'t>>
        ensures { option_map (λ v. view v.now) result ≡ get name.now (view self.now) }
    {
        match self {
            Value::Object(members) => member(members, name),
            _ => None,
        }
    }
}

fn member<'v, 't>(members: &'v [(&'t str, Value<'t>)], name: &str) -> Option<&'v Value<'t>>
    ensures { option_map (λ v. view v.now) result ≡ get_member name.now (members_view members.now) }
{
    for (other, value) in members.iter() {
        if name == *other {
            return Some(value);
        }
    }
    None
}
