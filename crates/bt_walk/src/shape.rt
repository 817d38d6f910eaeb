//! The shapes of messages.
ghost use Rattle.std.specs.Prelude.{◌≡◌, map, option_map};
ghost use Rattle.bt_walk.specs.Shapes.{seen, is_named, named};

/// The JSON name of a member, and its original name: `_` and a lower-case letter for each capital
/// (protobuf documentation, "ProtoJSON Format").
#[derive(Clone, Copy)]
pub struct Name(pub &'static str, pub &'static str);

/// What one value is.
#[derive(Clone, Copy)]
pub enum Shape {
    /// Not looked into.
    Anything,
    /// An enum whose value has no effect: any string, or any int32.
    AnyEnum,
    Bool,
    Bytes,
    Duration,
    /// An enum, by the number of the list of its names.
    Enum(u8),
    Int32,
    Int64,
    /// A message, by its number.
    Of(u8),
    Text,
}

/// How many values a member has.
#[derive(Clone, Copy)]
pub enum Many {
    One,
    List,
    Map,
}

/// Which values of a member are supported.
#[derive(Clone, Copy)]
pub enum Support {
    /// All; null counts as absent.
    Full,
    /// None; null, false, 0, "0", "" and [] count as absent.
    UnlessZero,
    /// None; null counts as absent.
    UnlessNull,
    /// Of an enum, those of a shorter list of its names, by that list's number; null counts as absent.
    Only(u8),
}

/// A member of a message.
#[derive(Clone, Copy)]
pub struct Member {
    pub name: Name,
    pub many: Many,
    pub shape: Shape,
    /// The number of its oneof in the message, or 0.
    pub choice: u8,
    pub support: Support,
}

/// Messages and enums, each by a number.
pub trait Schema {
    ghost use Rattle.std.specs.Prelude.{◌≡◌, map};
    ghost use Rattle.bt_walk.specs.Shapes.{Table, seen};

    /// The members of each message, and the names of each enum.
    ghost table: { Self → Table };

    /// The members of the message of that number.
    fn members(&self, message: u8) -> &'static [Member]
        ensures { map seen result.now ≡ (table self.now).fields message };

    /// The names of the enum of that number from its value 0 on, joined by commas.
    fn names(&self, list: u8) -> &'static str
        ensures { result.now ≡ (table self.now).names list };
}

pub(crate) fn is_named(member: &Member, key: &str) -> bool
    ensures { result ≡ is_named key.now (seen member.now) }
{
    member.name.0 == key || member.name.1 == key
}

// The member with this name, by either of its names.
pub(crate) fn named(members: &'static [Member], key: &str) -> Option<&'static Member>
    ensures { option_map (λ m. seen m.now) result ≡ named key.now (map seen members.now) }
{
    match members {
        [] => None,
        [member, rest @ ..] => {
            if is_named(member, key) {
                Some(member)
            } else {
                named(rest, key)
            }
        }
    }
}
