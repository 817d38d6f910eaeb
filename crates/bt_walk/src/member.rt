//! Whether a member is itself what the walk looks for.
ghost use Rattle.std.specs.Prelude.{◌≡◌, ◌&&◌, not, map, option_map, IfSome};
ghost use Rattle.bt_json.specs.View.{view};
ghost use Rattle.bt_walk.specs.Shapes.{seen};
ghost use Rattle.bt_walk.specs.Alone.{alone};
ghost use Rattle.bt_walk.specs.Members.{is_absent, is_unsupported, is_there, is_plain, is_renamed, is_set, has_choice, is_too_many};

use crate::leaf::{fits, is_zero};
use crate::shape::{Member, Schema, Shape, Support, is_named};
use bt_json::Value;

pub(crate) fn is_absent(support: Support, value: &Value<'_>) -> bool
    ensures { result ≡ is_absent support (view value.now) }
{
    match support {
        Support::UnlessZero => value.is_null() || is_zero(value),
        Support::Full | Support::UnlessNull | Support::Only(_) => value.is_null(),
    }
}

/// Whether a member that is present is itself not supported.
pub(crate) fn is_unsupported<S: Schema>(schema: &S, member: &Member, value: &Value<'_>) -> bool
    ensures { result
        ≡ is_unsupported (S.Schema.table schema.now).names (seen member.now) (view value.now) }
{
    match member.support {
        Support::Full => false,
        Support::UnlessZero | Support::UnlessNull => true,
        Support::Only(list) => {
            fits(schema, member.shape, value) && !fits(schema, Shape::Enum(list), value)
        }
    }
}

fn is_there(support: Support, value: Option<&Value<'_>>) -> bool
    ensures { result ≡ is_there support (option_map (λ v. view v.now) value.entry) }
{
    match value {
        Some(value) => !is_absent(support, value),
        None => false,
    }
}

// By its JSON name.
fn is_plain(whole: &Value<'_>, member: &Member) -> bool
    ensures { result ≡ is_plain (view whole.now) (seen member.now) }
{
    is_there(member.support, whole.get(member.name.0))
}

// By its original name, where that is another.
fn is_renamed(whole: &Value<'_>, member: &Member) -> bool
    ensures { result ≡ is_renamed (view whole.now) (seen member.now) }
{
    member.name.1 != member.name.0 && is_there(member.support, whole.get(member.name.1))
}

fn is_set(whole: &Value<'_>, member: &Member) -> bool
    ensures { result ≡ is_set (view whole.now) (seen member.now) }
{
    is_plain(whole, member) || is_renamed(whole, member)
}

// Whether another of that oneof is set whose name is less.
fn has_choice(whole: &Value<'_>, choice: u8, name: &str, members: &[Member]) -> bool
    ensures { result ≡ has_choice (view whole.now) choice name.now (map seen members.now) }
{
    match members {
        [] => false,
        [member, rest @ ..] => {
            member.choice == choice && member.name.0 < name && is_set(whole, member)
                || has_choice(whole, choice, name, rest)
        }
    }
}

// The only entry of an object.
fn only_entry<'v, 't>(whole: &'v Value<'t>) -> Option<(&'t str, &'v Value<'t>)>
    ensures { IfSome result (λ entry. view whole.now ≡ alone entry.0.now (view entry.1.now)) }
{
    match whole {
        Value::Object(entries) => match entries.as_slice() {
            [(key, value)] => Some((*key, value)),
            _ => None,
        },
        _ => None,
    }
}

// `is_set` of the object that has only this entry.
fn is_set_alone(key: &str, value: &Value<'_>, member: &Member) -> bool
    ensures { result ≡ is_set (alone key.now (view value.now)) (seen member.now) }
{
    is_named(member, key) && !is_absent(member.support, value)
}

// `has_choice` of the object that has only this entry.
fn has_choice_alone(
    key: &str,
    value: &Value<'_>,
    choice: u8,
    name: &str,
    members: &[Member],
) -> bool
    ensures { result
        ≡ has_choice (alone key.now (view value.now)) choice name.now (map seen members.now) }
{
    match members {
        [] => false,
        [member, rest @ ..] => {
            member.choice == choice && is_set_alone(key, value, member) && member.name.0 < name
                || has_choice_alone(key, value, choice, name, rest)
        }
    }
}

/// Whether a member that is present is so by both its names, or as a later one of its oneof. An only
/// entry is compared with the names, since to look up each name costs more.
pub(crate) fn is_too_many(whole: &Value<'_>, members: &[Member], member: &Member) -> bool
    ensures { result ≡ is_too_many (view whole.now) (map seen members.now) (seen member.now) }
{
    let Member { name, choice, .. } = *member;
    match only_entry(whole) {
        Some((key, value)) => {
            choice != 0 && has_choice_alone(key, value, choice, name.0, members)
        }
        None => {
            is_renamed(whole, member) && is_plain(whole, member)
                || choice != 0 && has_choice(whole, choice, name.0, members)
        }
    }
}
